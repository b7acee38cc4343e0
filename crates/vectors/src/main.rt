#![tactic(auto)]

// The program `vectors`: replays every set of data/ and says where it differs from what the set expects.
mod hosted;
mod load;
mod program;
mod text;

use program::Replayed;
use std::fs::Files;
use std::io;

// The sets so far, their lines, and how many sets are equal to what they expect.
#[derive(Clone, Copy, Default)]
struct Totals {
    sets: u64,
    lines: u64,
    equal: u64,
}

// Lines are counted until there are more than so many.
const MOST_LINES: u64 = 1000000;

// The totals with one set more.
fn counted(t: Totals, lines: u64, equal: bool) -> Totals {
    let more = if MOST_LINES < t.lines { 0 } else { lines };
    Totals {
        sets: t.sets.saturating_add(1),
        lines: t.lines.saturating_add(more),
        equal: t.equal.saturating_add(u64::from(equal)),
    }
}

// Says that there is no difference, or at which line.
fn write_difference(rt: &impl Print, bad: Option<u64>, differs: &str) -> io::Result<()> {
    match bad {
        None => rt.print(" equal"),
        Some(line) => print!(rt; "{differs}{line}"),
    }
}

// The line of a set: its name is written already.
fn write_set(rt: &impl Print, program: Replayed, hosted: Option<u64>) -> io::Result<()> {
    print!(rt; ": {} lines, journal", program.lines)?;
    write_difference(rt, program.bad, " differs at line ")?;
    if !program.order {
        rt.print(", order differs")?;
    }
    rt.print(", images")?;
    write_difference(rt, hosted, " differ at line ")?;
    rt.println("")
}

// Replays a set in both ways.
fn replay(
    rt: &impl Print,
    t: Totals,
    input: &[u8],
    output: &[u8],
    sums: &[u8],
) -> io::Result<Totals> {
    let program = program::replay(input, output)?;
    let hosted = hosted::replay(input, sums)?;
    write_set(rt, program, hosted)?;
    let equal = program.bad.is_none() && program.order && hosted.is_none();
    Ok(counted(t, program.lines, equal))
}

// Reads the files of a set and replays it.
fn take_set(rt: &(impl Files + Print), t: Totals, name: &[u8]) -> io::Result<Totals> {
    let mut input = [0u8; load::MOST_BYTES];
    let mut output = [0u8; load::MOST_BYTES];
    let mut sums = [0u8; load::MOST_BYTES];
    rt.write_all(name)?;
    let (Some(input), Some(output), Some(sums)) = (
        load::load(rt, name, ".in", &mut input),
        load::load(rt, name, ".out", &mut output),
        load::load(rt, name, ".host", &mut sums),
    ) else {
        rt.println(": a file cannot be read")?;
        return Ok(counted(t, 0, false));
    };
    replay(rt, t, input, output, sums)
}

// Every set that the names list.
fn take_sets(rt: &(impl Files + Print), names: &[u8]) -> io::Result<Totals> {
    let mut t = Totals::default();
    for line in names.split_inclusive(text::ends_line) {
        t = take_set(rt, t, text::without_end(line))?;
    }
    Ok(t)
}

fn main(rt: HostRuntime) -> io::Result<()> {
    let mut names = [0u8; load::MOST_BYTES];
    let names = load::front(&rt, b"names", "", &mut names).unwrap_or(b"");
    let t = take_sets(&rt, names)?;
    println!(rt;
        "{} sets, {} lines, {} sets equal",
        t.sets, t.lines, t.equal
    )
}
