// The sets of a board's programs in an array of places that is lent and not copied, a row of words in each place.
// Which place has which set is said here alone: V of program p stands in place p - 1, and Q, J, W, R and I stand 32, 64, 96, 128 and 160 places further.
ghost use Rattle.std.specs.Prelude.{◌≡◌, length, set, ◌-◌, ◌≤◌, ◌<◌};
ghost use Rattle.rules.specs.declared.Mode.TheVariants.{Write, Read, Inquiry};
ghost use Rattle.rules.specs.Modes.{some_mode, by_mode};
ghost use Rattle.rules.specs.Boards.{set_program};
ghost use Rattle.files.specs.Sets.{member};
ghost use Rattle.files.specs.Words.{word_count, set_of, words_for};
ghost use Rattle.store.specs.Store.{seat_of, put_seat, board_of, SeatsTo};
ghost use Rattle.store.specs.Sets.{place_count, row_in, IsStore, claim_place, open_place, PutAt, SetsOf, claims_at, opens_at, closed_at};
ghost use Rattle.store.specs.Sets.{PutsFrom, claim_at, open_at, mode_at, left_in, dropped_at, given_at};

use crate::{Rest, Seat};
use files::{FileSet, WORDS, words};
use rules::{Board, Mode, Program};

// The places: V, Q, J, W, R and I of each program.
pub const PLACES: usize = 192;

// Lent, not copied: in each place the words of a set.
pub type Sets = [[u64; WORDS]; PLACES];

// The places, and the words in each, are as many as the type says.
pub fn sized(sets: &Sets)
    ensures { IsStore sets.now }
{
    for k in 0..PLACES {
        let _n = words_in(&sets[k]);
    }
}

// The words in place k.
pub fn row(sets: &Sets, k: usize) -> &[u64]
    requires { k < place_count }
    ensures words { result.now ≡ row_in sets.now k }
    ensures length { length result.now ≡ word_count }
{
    &sets[k]
}

// How many words a row has.
fn words_in(row: &[u64]) -> usize
    ensures { result ≡ length row.now }
{
    row.len()
}

const READABLE: usize = 32;

const INQUIRABLE: usize = 64;

// Behind the places of what is claimed come those of what is open.
const OPEN: usize = 96;

// The place of what p claims in a mode: V, Q or J.
pub fn claim_at(mode: Mode, p: u8) -> usize
    requires { (1 ≤ p) × (p ≤ 32) }
    ensures { (result ≡ claim_place mode (p - 1)) × (result < 96) }
{
    match mode {
        Mode::Write => usize::from(p - 1),
        Mode::Read => READABLE + usize::from(p - 1),
        Mode::Inquiry => INQUIRABLE + usize::from(p - 1),
    }
}

// The place of what p has open in a mode: W, R or I.
pub fn open_at(mode: Mode, p: u8) -> usize
    requires { (1 ≤ p) × (p ≤ 32) }
    ensures { (result ≡ open_place mode (p - 1)) × (result < place_count) }
{
    OPEN + claim_at(mode, p)
}

// A set, put in place k.
fn put_set(sets: &mut Sets, k: usize, x: FileSet)
    requires { k < place_count }
    ensures row { sets.new ≡ set sets.old k (words_for word_count x) }
    ensures value { set_of (words_for word_count x) ≡ x }
{
    words::put(&mut sets[k], x);
}

// Three sets, put from place k on: the first there, the others 32 and 64 places further.
fn put_three(sets: &mut Sets, k: usize, x: FileSet, y: FileSet, z: FileSet)
    requires { k < 128 }
    ensures { PutsFrom k (by_mode x y z) sets.old sets.new }
{
    sized(sets);
    put_set(sets, k, x);
    put_set(sets, 32 + k, y);
    put_set(sets, 64 + k, z);
}

// The sets of a program, put at index i.
fn put_sets(sets: &mut Sets, i: usize, q: Program)
    requires { i < 32 }
    ensures { PutAt q i sets.old sets.new }
{
    put_three(sets, i, q.writable, q.readable, q.inquirable);
    put_three(sets, OPEN + i, q.writing, q.reading, q.inquiring);
}

// The sets of the board's programs.
fn take_sets(b: Board, sets: &mut Sets)
    ensures { SetsOf b sets.new }
{
    for i in 0..32 {
        put_sets(sets, i, b.programs[i]);
    }
    sized(sets);
}

// What a program has beside its sets.
fn seat_of(q: Program) -> Seat
    ensures { result ≡ seat_of q }
{
    Seat {
        standing: q.standing,
        file: q.file,
        item: q.item,
    }
}

// The seats of the board's programs.
fn seats_of(b: Board) -> [Seat; 32]
    ensures { SeatsTo b 32 result }
{
    let mut seats = [Seat::NONE; 32];
    for i in 0..32 {
        seats[i] = seat_of(b.programs[i]);
    }
    seats
}

// The board, taken apart: its sets are put into the array, and the rest comes back.
pub fn take(b: Board, sets: &mut Sets) -> Rest
    ensures { SetsOf b sets.new × (board_of sets.new result ≡ b) }
{
    take_sets(b, sets);
    // The arrays have names: the prover does not cover a field that is an array straight in a literal.
    let seats = seats_of(b);
    let waiting = b.waiting;
    let entry = b.entry;
    let passed = b.passed;
    Rest {
        seats,
        waiting,
        entry,
        favoured: b.favoured,
        initial: b.initial,
        leaves: b.leaves,
        passed,
    }
}

// q is put as program p: its sets into the array, its seat into the rest.
pub fn put(sets: &mut Sets, rest: Rest, p: u8, q: Program) -> Rest
    requires { (1 ≤ p) × (p ≤ 32) }
    ensures result_after { board_of sets.new result ≡ set_program (board_of sets.old rest) p q }
    ensures value { (result ≡ put_seat rest p (seat_of q)) × IsStore sets.new }
{
    put_sets(sets, usize::from(p - 1), q);
    crate::put_seat(rest, p, seat_of(q))
}

// The mode in which p opens f.
pub fn mode_at(sets: &Sets, p: u8, f: u16) -> Mode
    requires { (1 ≤ p) × (p ≤ 32) }
    ensures { result ≡ mode_at sets.now p f }
{
    if claims(sets, p, f, Mode::Write) {
        return Mode::Write;
    }
    if claims(sets, p, f, Mode::Read) {
        return Mode::Read;
    }
    Mode::Inquiry
}

// Whether p claims f in the mode.
fn claims(sets: &Sets, p: u8, f: u16, mode: Mode) -> bool
    requires { (1 ≤ p) × (p ≤ 32) }
    ensures { result ≡ member (claim_at sets.now p mode) f }
{
    words::has(&sets[claim_at(mode, p)], f)
}

// Whether p claims f in some mode.
fn claims_somehow(sets: &Sets, p: u8, f: u16) -> bool
    requires { (1 ≤ p) × (p ≤ 32) }
    ensures { result ≡ some_mode (λ m. member (claim_at sets.now p m) f) }
{
    claims(sets, p, f, Mode::Write)
        || claims(sets, p, f, Mode::Read)
        || claims(sets, p, f, Mode::Inquiry)
}

// Whether p has f open in the mode.
fn opens(sets: &Sets, p: u8, f: u16, mode: Mode) -> bool
    requires { (1 ≤ p) × (p ≤ 32) }
    ensures { result ≡ member (open_at sets.now p mode) f }
{
    words::has(&sets[open_at(mode, p)], f)
}

// Whether p claims f in a mode that clashes with this one.
pub fn has_claim(sets: &Sets, p: u8, f: u16, mode: Mode) -> bool
    requires { (1 ≤ p) × (p ≤ 32) }
    ensures { result ≡ claims_at sets.now f mode p }
{
    match mode {
        Mode::Write => claims_somehow(sets, p, f),
        Mode::Read => claims(sets, p, f, Mode::Write) || claims(sets, p, f, Mode::Inquiry),
        Mode::Inquiry => claims(sets, p, f, Mode::Write) || claims(sets, p, f, Mode::Read),
    }
}

// Whether p has f open.
pub fn has_open(sets: &Sets, p: u8, f: u16) -> bool
    requires { (1 ≤ p) × (p ≤ 32) }
    ensures { result ≡ opens_at sets.now f p }
{
    opens(sets, p, f, Mode::Write)
        || opens(sets, p, f, Mode::Read)
        || opens(sets, p, f, Mode::Inquiry)
}

// p is given f: it joins what p has open in the mode of its claim.
pub fn give(sets: &mut Sets, p: u8, f: u16)
    requires { (1 ≤ p) × (p ≤ 32) }
    ensures { sets.new ≡ given_at sets.old p f }
{
    let mode = mode_at(sets, p, f);
    words::add(&mut sets[open_at(mode, p)], f);
}

// f leaves the set in place k.
fn take_out(sets: &mut Sets, k: usize, f: u16)
    requires { k < place_count }
    ensures { sets.new ≡ left_in sets.old k f }
{
    words::remove(&mut sets[k], f);
}

// f is open to p no longer.
pub fn close(sets: &mut Sets, p: u8, f: u16)
    requires { (1 ≤ p) × (p ≤ 32) }
    ensures { sets.new ≡ closed_at sets.old p f }
{
    take_out(sets, open_at(Mode::Write, p), f);
    take_out(sets, open_at(Mode::Read, p), f);
    take_out(sets, open_at(Mode::Inquiry, p), f);
}

// f leaves p's claim.
pub fn drop(sets: &mut Sets, p: u8, f: u16)
    requires { (1 ≤ p) × (p ≤ 32) }
    ensures { sets.new ≡ dropped_at sets.old p f }
{
    take_out(sets, claim_at(Mode::Write, p), f);
    take_out(sets, claim_at(Mode::Read, p), f);
    take_out(sets, claim_at(Mode::Inquiry, p), f);
}
