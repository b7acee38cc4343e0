#![tactic(auto)]

// The rules applied to a sound board, which is its sets, lent, and the rest: each of the eight calls, with checks 8 to 16 and 18 to 21.
ghost use Rattle.std.specs.Prelude.{◌≡◌, true, ◌≤◌, ◌<◌, length, Ok};
ghost use Rattle.laws.specs.Lists.{names, padded};
ghost use Rattle.rules.specs.Boards.{at, set_program, set_item};
ghost use Rattle.rules.specs.Soundness.{sound};
ghost use Rattle.rules.specs.Checks.{open_check, close_check, leave_check, cancel_check, fetch_check, return_check};
ghost use Rattle.rules.specs.Calls.{newcomer, admit, hold, hold_for, open_file, fetch, return_item, close_file, drop_file, count_leave, leave};
ghost use Rattle.rules.specs.Calls.{count_cancel, withdrawn, cancel, call_with, call_of, checked, accepted, apply};
ghost use Rattle.theory.specs.Loose.{Good};
ghost use Rattle.parts.specs.Entries.{no_entries};
ghost use Rattle.store.specs.Store.{board_of};
ghost use Rattle.apply.specs.Replies.{unordered, ComesTo, Carries, InForm, entering, waiting_for};

use parts::entries;
use parts::entries::Entries;
use rules::{Answer, Asked, Claims, Program, Standing, Verb, Word};
use search::{Order, Search};
use settling::Progress;
use store::sets::Sets;
use store::{Rest, Seat, sets};

mod checks;
pub mod replies;

// What a call comes to: the rest of the board after it, with the number of lines written, the answer, and the order of that board
// if the call found it on its way, otherwise none.
#[derive(Clone, Copy)]
pub struct Changed {
    pub progress: Progress,
    pub answer: Answer,
    pub order: Order,
}

impl Changed {
    // With no order found on the way.
    fn unordered(progress: Progress, answer: Answer) -> Changed
        ensures { result ≡ unordered progress answer }
    {
        Changed {
            progress,
            answer,
            order: Order::NONE,
        }
    }
}

// ---- enter

// A program that enters, with nothing open.
fn new_program(claims: Claims, s: Standing) -> Program
    ensures { result ≡ newcomer claims.writable claims.readable claims.inquirable s }
{
    Program {
        writable: claims.writable,
        readable: claims.readable,
        inquirable: claims.inquirable,
        standing: s,
        ..Program::ABSENT
    }
}

// p runs, and the count of each waiting program goes up.
fn put_running(sets: &mut Sets, rest: Rest, p: u8, claims: Claims) -> Rest
    requires { ((1 ≤ p) × (p ≤ 32)) × Good (board_of sets.old rest)
        × (checked (board_of sets.old rest) (entering p claims) ≡ Ok tt) }
    ensures { board_of sets.new result
        ≡ admit (board_of sets.old rest) p claims.writable claims.readable claims.inquirable }
{
    let runs = new_program(claims, Standing::Running);
    let c = sets::put(sets, rest, p, runs);
    Rest {
        passed: settling::counts::tally(sets, c),
        ..c
    }
}

// p is held, at the end of the entry line.
fn put_held(sets: &mut Sets, rest: Rest, p: u8, claims: Claims) -> Rest
    requires { ((1 ≤ p) × (p ≤ 32)) × ((rest.entry ≡ padded 0 (names rest.entry)) × (length (names rest.entry) < 32)) }
    ensures { board_of sets.new result
        ≡ hold (board_of sets.old rest) p claims.writable claims.readable claims.inquirable }
{
    let held = new_program(claims, Standing::Held);
    Rest {
        entry: lines::append(rest.entry, p),
        ..sets::put(sets, rest, p, held)
    }
}

// p is held, and the waiter w, which eight have passed, is favoured: HELD, then FAVOUR.
fn hold_for(
    sets: &mut Sets,
    rest: Rest,
    lines: &mut Entries,
    p: u8,
    claims: Claims,
    w: u8,
) -> Changed
    requires { ((1 ≤ p) × (p ≤ 32)) × Good (board_of sets.old rest)
        × (checked (board_of sets.old rest) (entering p claims) ≡ Ok tt) × ((1 ≤ w) × (w ≤ 32)) × (lines.old ≡ no_entries) }
    ensures comes_to { ComesTo sets.new lines.new result
        (hold_for (board_of sets.old rest) p claims.writable claims.readable claims.inquirable w) }
    ensures carries { Carries (board_of sets.new result.progress.rest) result.order }
{
    let c = put_held(sets, rest, p, claims);
    let held = replies::one_line(sets, c, lines, Word::Held, p, 0, 0);
    let progress = settling::favour_waiter(sets, lines, held, w);
    Changed::unordered(progress, Answer::Held)
}

// Enter: with somebody favoured, p is held; with nobody favoured and a waiter whose count is 8, p is held and that waiter favoured;
// otherwise p runs.
fn do_enter(sets: &mut Sets, rest: Rest, lines: &mut Entries, p: u8, claims: Claims) -> Changed
    requires { ((1 ≤ p) × (p ≤ 32)) × Good (board_of sets.old rest)
        × (checked (board_of sets.old rest) (entering p claims) ≡ Ok tt) × (lines.old ≡ no_entries) }
    ensures comes_to { ComesTo sets.new lines.new result (accepted (board_of sets.old rest) (entering p claims)) }
    ensures carries { Carries (board_of sets.new result.progress.rest) result.order }
{
    if rest.favoured != 0 {
        let c = put_held(sets, rest, p, claims);
        return replies::answered(sets, c, lines, Word::Held, p, 0, 0, Answer::Held);
    }
    if let Some(overdue) = settling::counts::oldest_overdue(sets, rest) {
        return hold_for(sets, rest, lines, p, claims, overdue);
    }
    let c = put_running(sets, rest, p, claims);
    replies::answered(sets, c, lines, Word::Admit, p, 0, 0, Answer::Admit)
}

// ---- open

// p waits for f, at the end of the waiting line: for the record n of the file g, or, if both are 0, for f itself.
fn put_waiting(sets: &Sets, rest: Rest, p: u8, f: u16, g: u16, n: u16) -> Rest
    requires { ((1 ≤ p) × (p ≤ 32)) × ((rest.waiting ≡ padded 0 (names rest.waiting)) × (length (names rest.waiting) < 32)) }
    ensures { board_of sets.now result ≡ waiting_for (board_of sets.now rest) p f g n }
{
    sets::sized(sets);
    let seat = Seat {
        standing: Standing::Waiting(f),
        file: g,
        item: n,
    };
    Rest {
        waiting: lines::append(rest.waiting, p),
        ..store::put_seat(rest, p, seat)
    }
}

// Open: WAIT if another program has f in conflicting use; UNSAFE if no order comes back with f given; otherwise GIVEN.
fn do_open(sets: &mut Sets, rest: Rest, lines: &mut Entries, p: u8, f: u16) -> Changed
    requires { ((1 ≤ p) × (p ≤ 32)) × Good (board_of sets.old rest) × (open_check (board_of sets.old rest) p f ≡ Ok tt)
        × (lines.old ≡ no_entries) }
    ensures comes_to { ComesTo sets.new lines.new result (open_file (board_of sets.old rest) p f) }
    ensures carries { Carries (board_of sets.new result.progress.rest) result.order }
{
    sets::sized(sets);
    let admitted = tables::boards::admitted_seats(rest);
    let uses = search::gives::uses_in(admitted, sets);
    if search::gives::in_use(sets, uses, p, f) {
        let c = put_waiting(sets, rest, p, f, 0, 0);
        return replies::answered(sets, c, lines, Word::Wait, p, f, 0, Answer::Wait);
    }
    let order = search::gives::order_given(sets, rest, p, f);
    // The kind is matched by itself: the order's array stands beside it, and goes on to the reply as it is.
    let kind = order.kind;
    let Search::Found(n) = kind else {
        let c = put_waiting(sets, rest, p, f, 0, 0);
        return replies::answered(sets, c, lines, Word::Unsafe, p, f, 0, Answer::Unsafe);
    };
    sets::give(sets, p, f);
    let at = order.at;
    let given = Order {
        kind: Search::Found(n),
        at,
    };
    replies::given(sets, rest, lines, p, f, given)
}

// ---- fetch

// The running program p with the record n of f in use, or with none if both are 0.
fn put_record(sets: &Sets, rest: Rest, p: u8, f: u16, n: u16) -> Rest
    requires { (1 ≤ p) × (p ≤ 32) }
    ensures { board_of sets.now result
        ≡ set_program (board_of sets.now rest) p (set_item (at (board_of sets.now rest) p) f n) }
{
    sets::sized(sets);
    let seat = Seat {
        standing: store::standing_at(rest, p),
        file: f,
        item: n,
    };
    store::put_seat(rest, p, seat)
}

// Fetch: "It waits (WAIT) while another has that record, else gets it (GIVEN)."
fn do_fetch(sets: &Sets, rest: Rest, lines: &mut Entries, p: u8, f: u16, n: u16) -> Changed
    requires { ((1 ≤ p) × (p ≤ 32)) × Good (board_of sets.now rest) × (fetch_check (board_of sets.now rest) p f n ≡ Ok tt)
        × (lines.old ≡ no_entries) }
    ensures comes_to { ComesTo sets.now lines.new result (fetch (board_of sets.now rest) p f n) }
    ensures carries { Carries (board_of sets.now result.progress.rest) result.order }
{
    if tables::boards::is_taken(rest, p, f, n) {
        let c = put_waiting(sets, rest, p, f, f, n);
        return replies::answered(sets, c, lines, Word::Wait, p, f, n, Answer::Wait);
    }
    let c = put_record(sets, rest, p, f, n);
    replies::answered(sets, c, lines, Word::Given, p, f, n, Answer::Given)
}

// ---- return

// Return: the record in use is in use no longer, and "the oldest waiter for the record gets it (GIVEN), then the board settles".
fn do_return(sets: &mut Sets, rest: Rest, lines: &mut Entries, p: u8) -> Changed
    requires { ((1 ≤ p) × (p ≤ 32)) × Good (board_of sets.old rest) × (return_check (board_of sets.old rest) p ≡ Ok tt)
        × (lines.old ≡ no_entries) }
    ensures comes_to { ComesTo sets.new lines.new result (return_item (board_of sets.old rest) p) }
    ensures carries { Carries (board_of sets.new result.progress.rest) result.order }
{
    sets::sized(sets);
    let seat = store::seat_at(rest, p);
    let free = put_record(sets, rest, p, 0, 0);
    replies::handed_on(sets, free, lines, p, seat.file, seat.item)
}

// ---- close

// Close: f is open no longer.
fn do_close(sets: &mut Sets, rest: Rest, lines: &mut Entries, p: u8, f: u16) -> Changed
    requires { ((1 ≤ p) × (p ≤ 32)) × Good (board_of sets.old rest) × (close_check (board_of sets.old rest) p f ≡ Ok tt)
        × (lines.old ≡ no_entries) }
    ensures comes_to { ComesTo sets.new lines.new result (close_file (board_of sets.old rest) p f) }
    ensures carries { Carries (board_of sets.new result.progress.rest) result.order }
{
    sets::sized(sets);
    sets::close(sets, p, f);
    replies::done(sets, rest, lines, p, f)
}

// ---- drop

// Drop: f leaves p's claim.
fn do_drop(sets: &mut Sets, rest: Rest, lines: &mut Entries, p: u8, f: u16) -> Changed
    requires { ((1 ≤ p) × (p ≤ 32)) × Good (board_of sets.old rest) × (open_check (board_of sets.old rest) p f ≡ Ok tt)
        × (lines.old ≡ no_entries) }
    ensures comes_to { ComesTo sets.new lines.new result (drop_file (board_of sets.old rest) p f) }
    ensures carries { Carries (board_of sets.new result.progress.rest) result.order }
{
    sets::sized(sets);
    sets::drop(sets, p, f);
    replies::done(sets, rest, lines, p, f)
}

// ---- leave

// The leave is counted if somebody was favoured before it.
fn counted(sets: &Sets, rest: Rest) -> Rest
    requires { rest.leaves ≤ 32 }
    ensures { board_of sets.now result ≡ count_leave (board_of sets.now rest) }
{
    if rest.favoured == 0 {
        return rest;
    }
    Rest {
        leaves: rest.leaves + 1,
        ..rest
    }
}

// Leave: all its files and claims go; "a leave returns it too", the record in use.
fn do_leave(sets: &mut Sets, rest: Rest, lines: &mut Entries, p: u8) -> Changed
    requires { ((1 ≤ p) × (p ≤ 32)) × Good (board_of sets.old rest) × (leave_check (board_of sets.old rest) p ≡ Ok tt)
        × (lines.old ≡ no_entries) }
    ensures comes_to { ComesTo sets.new lines.new result (leave (board_of sets.old rest) p) }
    ensures carries { Carries (board_of sets.new result.progress.rest) result.order }
{
    sets::sized(sets);
    let seat = store::seat_at(rest, p);
    let left = sets::put(sets, rest, p, Program::ABSENT);
    let c = counted(sets, left);
    replies::handed_on(sets, c, lines, p, seat.file, seat.item)
}

// ---- cancel

// A cancelled favoured program is favoured no longer; otherwise the cancel of a waiter counts as a leave.
fn cancel_counted(sets: &Sets, rest: Rest, p: u8) -> Rest
    requires { rest.leaves ≤ 32 }
    ensures { board_of sets.now result ≡ count_cancel (board_of sets.now rest) p }
{
    if rest.favoured == p {
        return Rest {
            favoured: 0,
            initial: 0,
            leaves: 0,
            ..rest
        };
    }
    counted(sets, rest)
}

// The program goes, out of its line, and its count is 0.
fn withdraw(sets: &mut Sets, rest: Rest, p: u8, s: Standing) -> Rest
    requires { ((1 ≤ p) × (p ≤ 32)) × (rest.leaves ≤ 32) }
    ensures { board_of sets.new result ≡ withdrawn (board_of sets.old rest) p s }
{
    match s {
        Standing::Absent | Standing::Running => rest,
        Standing::Waiting(_) => {
            let mut c = sets::put(sets, rest, p, Program::ABSENT);
            c.waiting = lines::remove(rest.waiting, p);
            c.passed[(p - 1) as usize] = 0;
            cancel_counted(sets, c, p)
        }
        Standing::Held => Rest {
            entry: lines::remove(rest.entry, p),
            ..sets::put(sets, rest, p, Program::ABSENT)
        },
    }
}

// Cancel: the program goes, with its files and claims.
fn do_cancel(sets: &mut Sets, rest: Rest, lines: &mut Entries, p: u8) -> Changed
    requires { ((1 ≤ p) × (p ≤ 32)) × Good (board_of sets.old rest) × (cancel_check (board_of sets.old rest) p ≡ Ok tt)
        × (lines.old ≡ no_entries) }
    ensures comes_to { ComesTo sets.new lines.new result (cancel (board_of sets.old rest) p) }
    ensures carries { Carries (board_of sets.new result.progress.rest) result.order }
{
    sets::sized(sets);
    let s = store::standing_at(rest, p);
    let c = withdraw(sets, rest, p, s);
    replies::done(sets, c, lines, p, 0)
}

// ---- any call

// The call that is asked for, of the program p, once its checks have passed; so its file, if it has one, is 1 to 64, and its record
// 1 to 65,535.
fn accept(sets: &mut Sets, rest: Rest, lines: &mut Entries, p: u8, a: Asked) -> Changed
    requires { ((1 ≤ p) × (p ≤ 32)) × Good (board_of sets.old rest)
        × (checked (board_of sets.old rest) (call_with a.verb p a.file a.item a.claims) ≡ Ok tt) × (lines.old ≡ no_entries) }
    ensures comes_to { ComesTo sets.new lines.new result
        (accepted (board_of sets.old rest) (call_with a.verb p a.file a.item a.claims)) }
    ensures carries { Carries (board_of sets.new result.progress.rest) result.order }
{
    match a.verb {
        Verb::Enter => do_enter(sets, rest, lines, p, a.claims),
        Verb::Open => do_open(sets, rest, lines, p, a.file as u16),
        Verb::Close => do_close(sets, rest, lines, p, a.file as u16),
        Verb::Drop => do_drop(sets, rest, lines, p, a.file as u16),
        Verb::Leave => do_leave(sets, rest, lines, p),
        Verb::Cancel => do_cancel(sets, rest, lines, p),
        Verb::Fetch => do_fetch(sets, rest, lines, p, a.file as u16, a.item as u16),
        Verb::Return => do_return(sets, rest, lines, p),
    }
}

// The call that is asked for, on a sound board; no line is written yet.
pub fn call(sets: &mut Sets, rest: Rest, lines: &mut Entries, a: Asked) -> Changed
    requires { (sound (board_of sets.old rest) ≡ true) × (lines.old ≡ no_entries) }
    ensures comes_to { ComesTo sets.new lines.new result (apply (board_of sets.old rest) (call_of a)) }
    ensures in_form { InForm sets.new lines.new result }
{
    match checks::check(sets, rest, a) {
        Ok(p) => {
            let c = accept(sets, rest, lines, p, a);
            sets::sized(sets);
            entries::sized(lines);
            c
        }
        Err(refusal) => {
            sets::sized(sets);
            replies::refused(sets, rest, lines, refusal)
        }
    }
}
