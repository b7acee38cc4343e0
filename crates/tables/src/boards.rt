// A board's programs by their numbers: the place of each, who is admitted, and whether a record is in use.
ghost use Rattle.std.specs.Prelude.{◌≡◌, ◌-◌, ◌≤◌, ◌<◌};
ghost use Rattle.store.specs.Store.{seat_uses};
ghost use Rattle.tables.specs.Boards.{admitted_seats, other_uses, taken_in};

use crate::ProgramSet;
use parts::standings::{is_admitted, is_running};
use store::{Rest, Seat};

// The place of program p in an array of 32.
pub fn place_of(p: u8) -> usize
    requires { (1 ≤ p) × (p ≤ 32) }
    ensures { (result ≡ p - 1) × (result < 32) }
{
    (p - 1) as usize
}

// The set of the admitted programs.
pub fn admitted_seats(rest: Rest) -> ProgramSet
    ensures { result ≡ admitted_seats rest }
{
    ProgramSet::those(|p| is_admitted(rest.seats[place_of(p)].standing))
}

// Whether the program in a seat has the record n of f in use.
fn has_record(seat: Seat, f: u16, n: u16) -> bool
    ensures { result ≡ seat_uses seat f n }
{
    seat.item != 0 && seat.file == f && seat.item == n && is_running(seat.standing)
}

// Whether program i, in this seat, is another than p and has the record n of f in use.
fn another_has(seat: Seat, i: u8, p: u8, f: u16, n: u16) -> bool
    ensures { result ≡ other_uses seat i p f n }
{
    i != p && has_record(seat, f, n)
}

// Whether another program than p has the record n of f in use.
pub fn is_taken(rest: Rest, p: u8, f: u16, n: u16) -> bool
    ensures { result ≡ taken_in rest p f n }
{
    for i in 1..=32 {
        if another_has(rest.seats[place_of(i)], i, p, f, n) {
            return true;
        }
    }
    false
}
