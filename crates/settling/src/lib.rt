#![tactic(auto)]

// Settling, on the sets of the programs, which are lent, and the rest of the board; each line is written where it stands.
ghost use Rattle.std.specs.Prelude.{◌≡◌, ℕ, Bool, true, not, ◌&&◌, eqb, ◌+◌, ◌≤◌, ◌<◌, set};
ghost use Rattle.laws.specs.Lists.{all, first, names};
ghost use Rattle.laws.specs.Laws.{◌∈◌};
ghost use Rattle.rules.specs.Boards.{awaited_of, is_program};
ghost use Rattle.rules.specs.Settling.{line_of, pass, hand_on, candidate, favour, run_held, choose, settle};
ghost use Rattle.theory.specs.Loose.{Loose, Counts};
ghost use Rattle.parts.specs.Entries.{entry_of};
ghost use Rattle.store.specs.Sets.{Sets, IsStore, given_at};
ghost use Rattle.store.specs.Store.{board_of};
ghost use Rattle.search.specs.Gives.{used_in, give_in};
ghost use Rattle.settling.specs.Writing.{progress, written_in, after, Fits, give_to, admit_one, CountsFew, served_rest, seat_wants, record_waiter, Tests, as_option};

use parts::entries;
use parts::entries::{Entries, Entry};
use rules::{Line, Standing, Word};
use search::Uses;
use store::sets::Sets;
use store::{Rest, Seat};

pub mod counts;

// The rest of a board whose sets are lent, and how many lines are written so far: the lines stand in an array that is lent (no heap).
#[derive(Clone, Copy)]
pub struct Progress {
    pub rest: Rest,
    pub count: u8,
}

// The numbers of a line of an accepted call.
pub fn line_of(word: Word, p: u8, f: u16, n: u16) -> Entry
    ensures { result ≡ entry_of (line_of word p f n) }
{
    entries::entry_of(Line {
        word,
        program: u16::from(p),
        file: f,
        refusal: 0,
        item: n,
    })
}

// The waiter p is given its file, or gets its record: it runs, out of the waiting line, with a count of 0, and is favoured no longer.
fn served(rest: Rest, p: u8) -> Rest
    requires { (1 ≤ p) × (p ≤ 32) }
    ensures { result ≡ served_rest rest p }
{
    let mut r = store::seated(rest, p, Standing::Running);
    r.waiting = lines::remove(rest.waiting, p);
    r.passed[(p - 1) as usize] = 0;
    if r.favoured == p {
        r.favoured = 0;
        r.initial = 0;
        r.leaves = 0;
    }
    r
}

// One line more is written, after `count` lines, on the way to this rest.
fn write_line(lines: &mut Entries, count: u8, line: Entry, rest: Rest) -> Progress
    requires { count < 32 }
    ensures value { result ≡ progress rest (count + 1) }
    ensures lines_after { lines.new ≡ set lines.old count line }
{
    lines[count as usize] = line;
    Progress {
        rest,
        count: count + 1,
    }
}

// Whether an open would now give p, which waits in this seat, its file; not if it waits for a record: "Settling's pass skips those who
// wait for a record."
fn can_serve(sets: &Sets, uses: Uses, p: u8, seat: Seat) -> bool
    requires { (1 ≤ p) × (p ≤ 32) }
    ensures { result ≡ eqb seat.item 0 && give_in sets.now uses p (awaited_of seat.standing) }
{
    let f = parts::standings::awaited(seat.standing);
    seat.item == 0 && search::gives::can_give(sets, uses, p, f)
}

// The waiter p is given the file f: a GIVEN line.
// Called in a loop: what the type of the sets says is asked here, and not gone through again.
fn give(sets: &mut Sets, lines: &mut Entries, w: Progress, p: u8, f: u16) -> Progress
    requires { ((1 ≤ p) × (p ≤ 32)) × Loose (board_of sets.old w.rest) × (w.count < 32) × IsStore sets.old }
    ensures result_after { written_in sets.new lines.new result
        ≡ after (written_in sets.old lines.old w) (give_to (board_of sets.old w.rest) p f) }
    ensures sets_after { sets.new ≡ given_at sets.old p f }
{
    store::sets::give(sets, p, f);
    write_line(
        lines,
        w.count,
        line_of(Word::Given, p, f, 0),
        served(w.rest, p),
    )
}

// Once through the waiting line, from the oldest: a GIVEN line for each waiter that is given its file.
fn pass_line(sets: &mut Sets, lines: &mut Entries, w: Progress) -> Progress
    requires { Loose (board_of sets.old w.rest) × Counts (board_of sets.old w.rest)
        × Fits (written_in sets.old lines.old w) (pass (names w.rest.waiting) (board_of sets.old w.rest)) }
    ensures { written_in sets.new lines.new result
        ≡ after (written_in sets.old lines.old w) (pass (names w.rest.waiting) (board_of sets.old w.rest)) }
{
    store::sets::sized(sets);
    let admitted = tables::boards::admitted_seats(w.rest);
    let mut uses = search::gives::uses_in(admitted, sets);
    let mut s = w;
    for p in w.rest.waiting {
        if p == 0 {
            return s;
        }
        let seat = s.rest.seats[tables::boards::place_of(p)];
        if can_serve(sets, uses, p, seat) {
            s = give(sets, lines, s, p, parts::standings::awaited(seat.standing));
            uses = search::gives::uses_in(admitted, sets);
        }
    }
    s
}

// Whether the program p, which waits in this seat, waits for a file, in no conflicting use, and not for a record.
fn is_unused(sets: &Sets, uses: Uses, p: u8, seat: Seat) -> bool
    requires { (1 ≤ p) × (p ≤ 32) }
    ensures { result ≡ eqb seat.item 0 && not (used_in sets.now uses p (awaited_of seat.standing)) }
{
    let f = parts::standings::awaited(seat.standing);
    seat.item == 0 && !search::gives::in_use(sets, uses, p, f)
}

// The oldest of a line that passes a test.
fn oldest<F: Fn(u8) -> bool>(line: [u8; 32], test: F) -> Option<u8>
    requires { (p : ℕ) → p ∈ names line → F.pre test p }
    ensures { (t : ℕ → Bool) → Tests (F.post test) t (names line) → result ≡ as_option (first t (names line)) }
{
    for p in line {
        if p == 0 {
            return None;
        }
        if test(p) {
            return Some(p);
        }
    }
    None
}

// The oldest waiter whose file is in no conflicting use: waits for a record "are never favoured for want of an order".
fn oldest_unused(sets: &Sets, rest: Rest) -> Option<u8>
    requires { Loose (board_of sets.now rest) }
    ensures { result ≡ as_option (candidate (board_of sets.now rest)) }
{
    // Where nobody waits, what is open is not asked for.
    let line = rest.waiting;
    if line[0] == 0 {
        return None;
    }
    store::sets::sized(sets);
    let admitted = tables::boards::admitted_seats(rest);
    let uses = search::gives::uses_in(admitted, sets);
    oldest(
        line,
        |p| is_unused(sets, uses, p, rest.seats[tables::boards::place_of(p)]),
    )
}

// The waiter p becomes favoured, with the number admitted and a leave count of 0: a FAVOUR line, with the record if it awaits one.
pub fn favour_waiter(sets: &Sets, lines: &mut Entries, w: Progress, p: u8) -> Progress
    requires { ((1 ≤ p) × (p ≤ 32)) × (w.count < 32) }
    ensures { written_in sets.now lines.new result
        ≡ after (written_in sets.now lines.old w) (favour (board_of sets.now w.rest) p) }
{
    let seat = store::seat_at(w.rest, p);
    let f = parts::standings::awaited(seat.standing);
    let n = seat.item;
    let admitted = tables::boards::admitted_seats(w.rest);
    let mut rest = w.rest;
    rest.favoured = p;
    rest.initial = admitted.count();
    rest.leaves = 0;
    write_line(lines, w.count, line_of(Word::Favour, p, f, n), rest)
}

// Whether the program in a seat waits for the record n of f.
fn waits_for(seat: Seat, f: u16, n: u16) -> bool
    ensures { result ≡ seat_wants seat f n }
{
    parts::standings::is_waiting(seat.standing)
        && seat.item != 0
        && seat.file == f
        && seat.item == n
}

// The oldest waiter for the record n of f.
fn oldest_for(rest: Rest, f: u16, n: u16) -> Option<u8>
    requires { all is_program (names rest.waiting) ≡ true }
    ensures { (sets : Sets) → result ≡ as_option (record_waiter (board_of sets rest) f n) }
{
    oldest(
        rest.waiting,
        |p| waits_for(rest.seats[tables::boards::place_of(p)], f, n),
    )
}

// "the oldest waiter for the record gets it (GIVEN)": the record n of f, which nobody has in use any more, is handed on.
pub fn hand_on(sets: &Sets, lines: &mut Entries, w: Progress, f: u16, n: u16) -> Progress
    requires { Loose (board_of sets.now w.rest) × (w.count < 32) }
    ensures { written_in sets.now lines.new result
        ≡ after (written_in sets.now lines.old w) (hand_on (board_of sets.now w.rest) f n) }
{
    let Some(p) = oldest_for(w.rest, f, n) else {
        return w;
    };
    store::sets::sized(sets);
    write_line(
        lines,
        w.count,
        line_of(Word::Given, p, f, n),
        served(w.rest, p),
    )
}

// The held program p runs, out of the entry line, and the waiters' counts go up: an ADMIT line.
// Called in a loop: what the type of the sets says is asked here, and not gone through again.
fn admit_one(sets: &Sets, lines: &mut Entries, w: Progress, p: u8) -> Progress
    requires { ((1 ≤ p) × (p ≤ 32)) × (w.count < 32) × CountsFew w.rest.passed × IsStore sets.now }
    ensures { written_in sets.now lines.new result
        ≡ after (written_in sets.now lines.old w) (admit_one (board_of sets.now w.rest) p) }
{
    let mut rest = store::seated(w.rest, p, Standing::Running);
    rest.entry = lines::remove(w.rest.entry, p);
    rest.passed = counts::tally(sets, rest);
    write_line(lines, w.count, line_of(Word::Admit, p, 0, 0), rest)
}

// The held programs run, one after another from the oldest, until a waiter's count is 8: that one is then favoured.
fn admit_held(sets: &Sets, lines: &mut Entries, w: Progress) -> Progress
    requires { Loose (board_of sets.now w.rest) × Counts (board_of sets.now w.rest) × (w.rest.favoured ≡ 0)
        × Fits (written_in sets.now lines.old w) (run_held (names w.rest.entry) (board_of sets.now w.rest)) }
    ensures { written_in sets.now lines.new result
        ≡ after (written_in sets.now lines.old w) (run_held (names w.rest.entry) (board_of sets.now w.rest)) }
{
    store::sets::sized(sets);
    let mut s = w;
    for p in w.rest.entry {
        if p == 0 {
            return s;
        }
        if let Some(overdue) = counts::oldest_overdue(sets, s.rest) {
            return favour_waiter(sets, lines, s, overdue);
        }
        s = admit_one(sets, lines, s, p);
    }
    s
}

// If nobody is favoured, the oldest waiter whose file is not in use is; if there is none, the held programs run.
fn choose_next(sets: &Sets, lines: &mut Entries, w: Progress) -> Progress
    requires { Loose (board_of sets.now w.rest) × Counts (board_of sets.now w.rest)
        × Fits (written_in sets.now lines.old w) (choose (board_of sets.now w.rest)) }
    ensures { written_in sets.now lines.new result
        ≡ after (written_in sets.now lines.old w) (choose (board_of sets.now w.rest)) }
{
    if w.rest.favoured != 0 {
        return w;
    }
    match oldest_unused(sets, w.rest) {
        Some(p) => favour_waiter(sets, lines, w, p),
        None => admit_held(sets, lines, w),
    }
}

// Settle, where somebody waits or is held: through the waiting line once from the oldest, then favour or run those held.
// Not written out in `settled`, which stays small: where nothing is done it hands the progress on, and no move within memory is needed.
#[inline(never)]
fn settle_lines(sets: &mut Sets, lines: &mut Entries, w: Progress) -> Progress
    requires { Loose (board_of sets.old w.rest) × Counts (board_of sets.old w.rest)
        × Fits (written_in sets.old lines.old w) (settle (board_of sets.old w.rest)) }
    ensures { written_in sets.new lines.new result
        ≡ after (written_in sets.old lines.old w) (settle (board_of sets.old w.rest)) }
{
    let s = pass_line(sets, lines, w);
    choose_next(sets, lines, s)
}

// Settle; where nobody waits and nobody is held, nothing is done.
pub fn settled(sets: &mut Sets, lines: &mut Entries, w: Progress) -> Progress
    requires { Loose (board_of sets.old w.rest) × Counts (board_of sets.old w.rest)
        × Fits (written_in sets.old lines.old w) (settle (board_of sets.old w.rest)) }
    ensures { written_in sets.new lines.new result
        ≡ after (written_in sets.old lines.old w) (settle (board_of sets.old w.rest)) }
{
    if w.rest.waiting[0] == 0 && w.rest.entry[0] == 0 {
        return w;
    }
    settle_lines(sets, lines, w)
}
