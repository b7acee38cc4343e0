#![tactic(auto)]

// A board of the rules, whole, made of its sets and the rest; at the edges only.
// That a set is one word is known here alone.
ghost use Rattle.std.specs.Prelude.{◌≡◌, ◌-◌, ◌≤◌, ◌<◌, length, get_or};
ghost use Rattle.files.specs.Words.{word_count, set_of};
ghost use Rattle.store.specs.Sets.{place_count, set_in};
ghost use Rattle.store.specs.Store.{no_seat, program_with, programs_from, board_of};

use files::FileSet;
use rules::{Board, Mode, Program};
use store::sets::Sets;
use store::{Rest, Seat, sets};

// The set of a row.
fn set_of(s: &[u64]) -> FileSet
    requires { length s.now ≡ word_count }
    ensures { result ≡ set_of s.now }
{
    FileSet { bits: s[0] }
}

// The set in place k.
pub fn set_at(sets: &Sets, k: usize) -> FileSet
    requires { k < place_count }
    ensures { result ≡ set_in sets.now k }
{
    set_of(sets::row(sets, k))
}

// Program p, with a seat.
fn program(sets: &Sets, p: u8, seat: Seat) -> Program
    requires { (1 ≤ p) × (p ≤ 32) }
    ensures { result ≡ program_with sets.now (p - 1) seat }
{
    Program {
        writable: set_at(sets, sets::claim_at(Mode::Write, p)),
        readable: set_at(sets, sets::claim_at(Mode::Read, p)),
        inquirable: set_at(sets, sets::claim_at(Mode::Inquiry, p)),
        writing: set_at(sets, sets::open_at(Mode::Write, p)),
        reading: set_at(sets, sets::open_at(Mode::Read, p)),
        inquiring: set_at(sets, sets::open_at(Mode::Inquiry, p)),
        standing: seat.standing,
        file: seat.file,
        item: seat.item,
    }
}

// The programs.
fn programs(sets: &Sets, seats: [Seat; 32]) -> [Program; 32]
    ensures { result ≡ programs_from sets.now (λ i. get_or seats i no_seat) 32 0 }
{
    let mut ps = [Program::ABSENT; 32];
    for i in 0..32 {
        ps[i] = program(sets, (i + 1) as u8, seats[i]);
    }
    ps
}

// The board.
pub fn board(sets: &Sets, rest: Rest) -> Board
    ensures { result ≡ board_of sets.now rest }
{
    // The arrays have names: the prover does not cover a field that is an array straight in a literal.
    let seats = rest.seats;
    let programs = programs(sets, seats);
    let waiting = rest.waiting;
    let entry = rest.entry;
    let passed = rest.passed;
    Board {
        programs,
        waiting,
        entry,
        favoured: rest.favoured,
        initial: rest.initial,
        leaves: rest.leaves,
        passed,
    }
}
