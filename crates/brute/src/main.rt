#![tactic(auto)]

// Tries every order of the admitted programs on many small boards, and compares what it finds with the carried order of the search,
// with the matrix of who reaches whom and with the loop that is found.
mod boards;
mod compare;
mod families;
mod known;
mod orders;
mod paths;

use std::io;

fn main(rt: HostRuntime) -> io::Result<()> {
    let hand = known::known_answers();
    println!(rt; "boards with known answers: {hand}")?;
    let small = families::small(&rt, hand)?;
    let middle = families::middle(&rt, small)?;
    let rings = families::rings(&rt, middle)?;
    let total = families::large(&rt, rings)?;
    println!(rt; "in all: {total}")
}
