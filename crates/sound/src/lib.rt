#![tactic(auto)]

// The test of a sound board: by the sets of its programs, which are lent, and the rest.
ghost use Rattle.std.specs.Prelude.{ℕ, Bool, ◌≡◌, true, false, ◌-◌, ◌≤◌, ◌<◌, eqb, length};
ghost use Rattle.files.specs.Sets.{is_empty, within, meets};
ghost use Rattle.laws.specs.Lists.{all, keep, names};
ghost use Rattle.rules.specs.declared.Standing.{Standing};
ghost use Rattle.rules.specs.Boards.{everyone};
ghost use Rattle.rules.specs.Modes.{each_mode};
ghost use Rattle.rules.specs.Orders.{carried};
ghost use Rattle.rules.specs.Soundness.{sets_sound, item_sound, program_sound, line_sound, sound};
ghost use Rattle.store.specs.Sets.{place_count, set_in, claim_at, open_at};
ghost use Rattle.store.specs.Store.{standing_at, program_with, board_of};
ghost use Rattle.tables.specs.ProgramSets.{has_program};
ghost use Rattle.tables.specs.Tables.{packed, rows_of};
ghost use Rattle.search.specs.Rows.{as_order};
ghost use Rattle.search.specs.Gives.{uses_in};
ghost use Rattle.sound.specs.Parts.{is_name, takes, bare_at, empty_in, claims_meet_in, is_sound_with, stands_for, is_sound_at};
ghost use Rattle.sound.specs.Parts.{record_fits, record_at, waiter_at, KnownLine, WaiterFor, NoneFavoured, SomeFavoured, FavourSound, count_fits, count_at, Packed};

use files::words;
use parts::standings;
use rules::{Mode, Standing};
use search::{Order, Uses};
use store::sets::Sets;
use store::{Rest, Seat, sets};
use tables::ProgramSet;
use tables::boards::place_of;

// Whether a board is sound, and its carried order: a board that is not sound may have one, so both stand beside each other.
#[derive(Clone, Copy)]
pub struct Judged {
    pub sound: bool,
    pub order: Order,
}

// Whether the set in the first place is within the one in the second.
fn is_within(sets: &Sets, k: usize, n: usize) -> bool
    requires { (k < place_count) × (n < place_count) }
    ensures { result ≡ within (set_in sets.now k) (set_in sets.now n) }
{
    words::within(sets::row(sets, k), sets::row(sets, n))
}

// Whether the sets in two places share a file.
fn do_meet(sets: &Sets, k: usize, n: usize) -> bool
    requires { (k < place_count) × (n < place_count) }
    ensures { result ≡ meets (set_in sets.now k) (set_in sets.now n) }
{
    words::meets(sets::row(sets, k), sets::row(sets, n))
}

// Whether the sets in three places are empty.
fn are_empty(sets: &Sets, k: usize, m: usize, n: usize) -> bool
    requires { (k < place_count) × (m < place_count) × (n < place_count) }
    ensures { result ≡ empty_in sets.now k m n }
{
    words::is_empty(&sets[k]) && words::is_empty(&sets[m]) && words::is_empty(&sets[n])
}

// W is within V, R within Q, I within J.
fn opens_claimed(sets: &Sets, p: u8) -> bool
    requires { (1 ≤ p) × (p ≤ 32) }
    ensures { result ≡ each_mode (λ m. within (open_at sets.now p m) (claim_at sets.now p m)) }
{
    is_within(
        sets,
        sets::open_at(Mode::Write, p),
        sets::claim_at(Mode::Write, p),
    ) && is_within(
        sets,
        sets::open_at(Mode::Read, p),
        sets::claim_at(Mode::Read, p),
    ) && is_within(
        sets,
        sets::open_at(Mode::Inquiry, p),
        sets::claim_at(Mode::Inquiry, p),
    )
}

// Two of V, Q and J share a file.
fn claims_meet(sets: &Sets, p: u8) -> bool
    requires { (1 ≤ p) × (p ≤ 32) }
    ensures { result ≡ claims_meet_in sets.now p }
{
    let v = sets::claim_at(Mode::Write, p);
    let c = sets::claim_at(Mode::Read, p);
    let j = sets::claim_at(Mode::Inquiry, p);
    do_meet(sets, v, c) || do_meet(sets, v, j) || do_meet(sets, c, j)
}

// W is within V, R within Q, I within J; no two of V, Q and J share a file.
#[tactic(auto, unfolding(rules::specs::Soundness::sets_sound))]
fn sets_sound(sets: &Sets, p: u8) -> bool
    requires { (1 ≤ p) × (p ≤ 32) }
    ensures { result ≡ sets_sound (bare_at sets.now p) }
{
    opens_claimed(sets, p) && !claims_meet(sets, p)
}

// Nothing is claimed.
fn claims_nothing(sets: &Sets, p: u8) -> bool
    requires { (1 ≤ p) × (p ≤ 32) }
    ensures { result ≡ each_mode (λ m. is_empty (claim_at sets.now p m)) }
{
    let v = sets::claim_at(Mode::Write, p);
    let c = sets::claim_at(Mode::Read, p);
    let j = sets::claim_at(Mode::Inquiry, p);
    are_empty(sets, v, c, j)
}

// Nothing is open.
fn opens_nothing(sets: &Sets, p: u8) -> bool
    requires { (1 ≤ p) × (p ≤ 32) }
    ensures { result ≡ each_mode (λ m. is_empty (open_at sets.now p m)) }
{
    let w = sets::open_at(Mode::Write, p);
    let r = sets::open_at(Mode::Read, p);
    let i = sets::open_at(Mode::Inquiry, p);
    are_empty(sets, w, r, i)
}

// What is said of a program with this standing by itself: absent ones have empty sets, held ones nothing open.
#[tactic(auto, using(crate::proofs::Blank::sound_absent, crate::proofs::Blank::sound_admitted, crate::proofs::Blank::sound_held), unfolding(rules::specs::Soundness::standing_sound))]
fn program_sound(sets: &Sets, p: u8, s: Standing) -> bool
    requires { (1 ≤ p) × (p ≤ 32) }
    ensures { result ≡ is_sound_with sets.now p s }
{
    match s {
        Standing::Absent => claims_nothing(sets, p) && opens_nothing(sets, p),
        Standing::Running | Standing::Waiting(_) => sets_sound(sets, p),
        Standing::Held => opens_nothing(sets, p) && sets_sound(sets, p),
    }
}

// Whether a program with this standing may have a record of the file: it runs, or waits for the file.
fn may_have(s: Standing, f: u16) -> bool
    ensures { result ≡ stands_for s f }
{
    match s {
        Standing::Running => true,
        Standing::Waiting(g) => g == f,
        Standing::Absent | Standing::Held => false,
    }
}

// What is said of the record of p's seat: its file is in I, and p runs or waits for it; without a record there is no file of one.
#[tactic(auto, using(crate::proofs::Seats::may_have_lem), unfolding(rules::specs::Soundness::item_sound))]
fn item_sound(sets: &Sets, p: u8, seat: Seat) -> bool
    requires { (1 ≤ p) × (p ≤ 32) }
    ensures { result ≡ item_sound (program_with sets.now (p - 1) seat) }
{
    let f = seat.file;
    if seat.item == 0 {
        return f == 0;
    }
    words::has(&sets[sets::open_at(Mode::Inquiry, p)], f) && may_have(seat.standing, f)
}

// What is said of p with this seat by itself.
#[tactic(auto, using(crate::proofs::Seats::program_with_lem))]
fn seat_sound(sets: &Sets, p: u8, seat: Seat) -> bool
    requires { (1 ≤ p) × (p ≤ 32) }
    ensures { result ≡ program_sound (program_with sets.now (p - 1) seat) }
{
    program_sound(sets, p, seat.standing) && item_sound(sets, p, seat)
}

// Whether all programs pass the test.
fn do_all<F: Fn(u8) -> bool>(test: F) -> bool
    requires { (p : ℕ) → 1 ≤ p → p ≤ 32 → F.pre test p }
    ensures { (t : ℕ → Bool) → ((p : ℕ) (r : Bool) → 1 ≤ p → p ≤ 32 → F.post test p r → r ≡ t p) → result ≡ all t everyone }
{
    for p in 1..=32 {
        if !test(p) {
            return false;
        }
    }
    true
}

// Each program by itself.
#[tactic(auto, using(crate::proofs::Seats::sound_with))]
fn programs_sound(sets: &Sets, rest: Rest) -> bool
    ensures { result ≡ all (is_sound_at (board_of sets.now rest)) everyone }
{
    do_all(|p| seat_sound(sets, p, rest.seats[(p - 1) as usize]))
}

// The programs whose standing passes the test.
fn standing_set<F: Fn(Standing) -> bool>(rest: Rest, test: F) -> ProgramSet
    requires { F.IsAlwaysCallable test }
    ensures { (t : Standing → Bool) → ((s : Standing) (r : Bool) → F.post test s r → r ≡ t s) → result ≡ packed (λ p. t (standing_at rest p)) 32 }
{
    ProgramSet::those(|p| test(rest.seats[place_of(p)].standing))
}

// Whether the names of the line take all programs out of the set, each once.
fn takes_all(line: [u8; 32], set: ProgramSet) -> bool
    ensures { result ≡ takes (names line) set }
{
    let mut left = set;
    for p in line {
        if p == 0 {
            break;
        }
        if !left.has(p) {
            return false;
        }
        left = left.without(p);
    }
    left.bits == 0
}

// Whether the line names nobody and is 0 throughout; the places are joined, so that none of them is a branch.
#[tactic(auto, using(crate::proofs::Blank::blank_fold))]
fn is_blank(line: [u8; 32]) -> bool
    ensures { result ≡ all (λ x. eqb x 0) line }
{
    line.iter().fold(0, |bits, x| bits | *x) == 0
}

// How many places of the line are not 0.
fn count_named(line: [u8; 32]) -> usize
    ensures { result ≡ length (keep is_name line) }
{
    line.iter().filter(|x| **x != 0).count()
}

// The line names each program of the set once, and nobody else, and is then 0.
#[tactic(auto, using(crate::proofs::Blank::blank_line, crate::proofs::Named::named_line))]
fn line_sound(line: [u8; 32], set: ProgramSet) -> bool
    ensures { result ≡ line_sound line (has_program set) }
{
    if is_blank(line) {
        return set.bits == 0;
    }
    takes_all(line, set) && count_named(line) == usize::from(set.count())
}

// The waiter's file is claimed, not open by it, and can't be given now; "covers file waits only": not if it waits for a record n.
#[tactic(auto, unfolding(rules::specs::Soundness::waiter_sound))]
fn waiter_sound(sets: &Sets, rows: &[u32; 32], uses: Uses, p: u8, f: u16, n: u16) -> bool
    requires { ((1 ≤ p) × (p ≤ 32)) × (has_program uses.admitted p ≡ true) × (rows.now ≡ rows_of sets.now uses.admitted) }
    ensures { WaiterFor sets.now uses p f n result }
{
    if n != 0 {
        return true;
    }
    sets::has_claim(sets, p, f, Mode::Write)
        && !sets::has_open(sets, p, f)
        && !search::gives::can_give_by(sets, rows, uses, p, f)
}

// All waiters of a line that names waiting programs.
fn waiters_sound(sets: &Sets, rows: &[u32; 32], rest: Rest, uses: Uses, line: [u8; 32]) -> bool
    requires { KnownLine sets.now rows.now rest uses line }
    ensures { result ≡ all (waiter_at (board_of sets.now rest)) (names line) }
{
    for p in line {
        if p == 0 {
            break;
        }
        let seat = rest.seats[(p - 1) as usize];
        let f = standings::awaited(seat.standing);
        if !waiter_sound(sets, rows, uses, p, f, seat.item) {
            return false;
        }
    }
    true
}

// The same by who is admitted; what is open is asked only where somebody waits.
fn line_waiters(
    sets: &Sets,
    rows: &[u32; 32],
    rest: Rest,
    admitted: ProgramSet,
    line: [u8; 32],
) -> bool
    requires { KnownLine sets.now rows.now rest (uses_in admitted sets.now) line }
    ensures { result ≡ all (waiter_at (board_of sets.now rest)) (names line) }
{
    if line[0] == 0 {
        return true;
    }
    let uses = search::gives::uses_in(admitted, sets);
    waiters_sound(sets, rows, rest, uses, line)
}

// Nobody favoured: nobody held, and both numbers 0.
#[tactic(auto, using(crate::proofs::Taken::packed_any), unfolding(rules::specs::Soundness::none_favoured, store::specs::Store::board_of))]
fn none_favoured(rest: Rest, held: ProgramSet) -> bool
    ensures { NoneFavoured rest held result }
{
    held.bits == 0 && rest.initial == 0 && rest.leaves == 0
}

// The favoured program is waiting; leaves plus admitted equal the number at favouring, which is at most 32.
#[tactic(auto, using(crate::proofs::Taken::packed_is, crate::proofs::Laws::counted), unfolding(rules::specs::Soundness::some_favoured, store::specs::Store::board_of))]
fn some_favoured(rest: Rest, waiters: ProgramSet, admitted: ProgramSet) -> bool
    ensures { SomeFavoured rest waiters admitted result }
{
    let present = u16::from(rest.leaves) + u16::from(admitted.count());
    waiters.has(rest.favoured) && present == u16::from(rest.initial) && rest.initial <= 32
}

// Whether what is said of the favoured program, or of there being none, holds.
fn favour_sound(rest: Rest, waiters: ProgramSet, held: ProgramSet, admitted: ProgramSet) -> bool
    ensures { FavourSound rest waiters held admitted result }
{
    if rest.favoured == 0 {
        none_favoured(rest, held)
    } else {
        some_favoured(rest, waiters, admitted)
    }
}

// The count of a program with this standing: not above 8, and 0 unless it waits.
fn count_sound(s: Standing, n: u8) -> bool
    ensures { result ≡ count_fits s n }
{
    n == 0 || n <= 8 && standings::is_waiting(s)
}

// All counts.
fn counts_sound(rest: Rest) -> bool
    ensures { result ≡ all (count_at rest) everyone }
{
    do_all(|p| {
        let i = (p - 1) as usize;
        count_sound(rest.seats[i].standing, rest.passed[i])
    })
}

// What a standing says of whether another has the program's record in use: none if it runs, "an awaited record is in use".
fn record_fits(s: Standing, taken: bool) -> bool
    ensures { result ≡ record_fits s taken }
{
    match s {
        Standing::Running => !taken,
        Standing::Waiting(_) => taken,
        Standing::Absent | Standing::Held => true,
    }
}

// All records: "records in use differ", "an awaited record is in use".
fn records_sound(rest: Rest) -> bool
    ensures { result ≡ all (record_at rest) everyone }
{
    do_all(|p| {
        let seat = rest.seats[(p - 1) as usize];
        seat.item == 0
            || record_fits(
                seat.standing,
                tables::boards::is_taken(rest, p, seat.file, seat.item),
            )
    })
}

// Sets; a completion order exists, so that there is no conflict; the two lines; the waiters; the favoured program; the counts; the records.
fn is_sound_by(
    sets: &Sets,
    rows: &[u32; 32],
    rest: Rest,
    admitted: ProgramSet,
    ordered: bool,
    waiters: ProgramSet,
    held: ProgramSet,
) -> bool
    requires { Packed (board_of sets.now rest) admitted ordered waiters held × (rows.now ≡ rows_of sets.now admitted) }
    ensures { result ≡ sound (board_of sets.now rest) }
{
    sets::sized(sets);
    ordered
        && programs_sound(sets, rest)
        && line_sound(rest.waiting, waiters)
        && line_sound(rest.entry, held)
        && line_waiters(sets, rows, rest, admitted, rest.waiting)
        && favour_sound(rest, waiters, held, admitted)
        && counts_sound(rest)
        && records_sound(rest)
}

// Whether the board is sound, and its carried order.
pub fn judge(sets: &Sets, rest: Rest) -> Judged
    ensures { (result.sound ≡ sound (board_of sets.now rest)) × (result.order ≡ as_order (carried (board_of sets.now rest))) }
{
    sets::sized(sets);
    let mut rows = [0u32; 32];
    let admitted = tables::boards::admitted_seats(rest);
    tables::rows::fill_rows(sets, admitted, &mut rows);
    let order = search::order_in(&rows, admitted);
    let ordered = search::is_found(order);
    let waiters = standing_set(rest, standings::is_waiting);
    let held = standing_set(rest, standings::is_held);
    let sound = is_sound_by(sets, &rows, rest, admitted, ordered, waiters, held);
    Judged { sound, order }
}

// Whether the board is sound.
pub fn is_sound(sets: &Sets, rest: Rest) -> bool
    ensures { result ≡ sound (board_of sets.now rest) }
{
    judge(sets, rest).sound
}
