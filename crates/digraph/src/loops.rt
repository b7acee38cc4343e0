// Loops of programs, each holding back the next and the last the first: the test of them, and the search for one.
ghost use Rattle.std.specs.Prelude.{◌≡◌, true, ◌&&◌, ◌+◌, ◌≤◌, drop, take, eqb, position, MatchOption};
ghost use Rattle.std.proofs.Math.Option.{none, some};
ghost use Rattle.rules.specs.Orders.{with_given};
ghost use Rattle.rules.specs.Soundness.{sound};
ghost use Rattle.rules.specs.Digraph.{step, is_loop_of, is_loop_with};
ghost use Rattle.store.specs.Store.{board_of};
ghost use Rattle.tables.specs.ProgramSets.{has_program};
ghost use Rattle.tables.specs.Tables.{packed, row_of};
ghost use Rattle.theory.specs.Loops.{walk};
ghost use Rattle.digraph.specs.Rows.{cell};
ghost use Rattle.digraph.specs.Loops.{list_of, named, lowest_holder, LoopFor, LoopOf, LoopOfWaiter};

use crate::Loop;
use files::WORDS;
use parts::standings;
use rules::{Board, Mode};
use store::sets::{PLACES, Sets};
use store::{Rest, sets};
use tables::ProgramSet;

// ---- the test

// All programs.
const ALL: ProgramSet = ProgramSet { bits: u32::MAX };

// Whether p is left, and `before` holds it back.
fn follows(rows: &[u32; 32], left: ProgramSet, before: u8, p: u8) -> bool
    ensures { result ≡ has_program left p && has_program (row_of rows.now p) before }
{
    left.has(p) && tables::row_of(rows, p).has(before)
}

// Whether the list is a loop: two or more different programs, each holding back the next and the last the first.
fn is_loop_in(rows: &[u32; 32], l: &[u8]) -> bool
    ensures { result ≡ is_loop_of (cell rows.now) l.now }
{
    if l.len() < 2 {
        return false;
    }
    let mut left = ALL;
    let mut before = l[l.len() - 1];
    for &p in l {
        if !follows(rows, left, before, p) {
            return false;
        }
        left = left.without(p);
        before = p;
    }
    true
}

// ---- the search

// The lowest of the set that is another than x and holds it back.
fn lowest_holder(rows: &[u32; 32], set: ProgramSet, x: u8) -> Option<u8>
    requires { (1 ≤ x) × (x ≤ 32) }
    ensures { MatchOption result (lowest_holder rows.now set x ≡ none) (λ y. (lowest_holder rows.now set x ≡ some y) × ((1 ≤ y) × (y ≤ 32))) }
{
    let by = tables::row_of(rows, x).without(x).and(set);
    if by.bits == 0 {
        None
    } else {
        Some(by.lowest())
    }
}

// The first place that has y.
fn place_in(l: &[u8], y: u8) -> Option<usize>
    ensures { result ≡ position (λ z. eqb z y) l.now }
{
    l.iter().position(|z| *z == y)
}

// The same among the places from k on.
fn place_of(at: [u8; 32], k: usize, y: u8) -> Option<usize>
    requires { k ≤ 32 }
    ensures { result ≡ position (λ z. eqb z y) (drop k at) }
{
    place_in(&at[k..], y)
}

// The n numbers from place k on, as a loop.
fn loop_at(at: [u8; 32], k: usize, n: usize) -> Loop
    requires { k + n ≤ 32 }
    ensures { (named result ≡ take n (drop k at)) × (result.count ≤ 32) }
{
    let mut first = [0u8; 32];
    first[..n].copy_from_slice(&at[k..k + n]);
    Loop {
        at: first,
        count: n,
    }
}

// The loop that going back from x finds, each time to the lowest of the set that holds back the one before;
// from place k on stands what x leads to.
fn walk_back(rows: &[u32; 32], set: ProgramSet, n: usize, x: u8, at: [u8; 32], k: usize) -> Loop
    requires { (n ≤ k) × (k ≤ 32) × ((1 ≤ x) × (x ≤ 32)) }
    ensures { (named result ≡ walk (cell rows.now) (list_of set) n x (drop k at)) × (result.count ≤ 32) }
{
    if n == 0 {
        return Loop::NONE;
    }
    let Some(y) = lowest_holder(rows, set, x) else {
        return Loop::NONE;
    };
    let mut next = at;
    next[k - 1] = x;
    match place_of(at, k, y) {
        Some(i) => loop_at(next, k - 1, i + 2),
        None => walk_back(rows, set, n - 1, y, next, k - 1),
    }
}

// The programs that are in their own rows: in the closed rows those that reach themselves.
fn in_own(rows: &[u32; 32]) -> ProgramSet
    ensures { result ≡ packed (λ p. cell rows.now p p) 32 }
{
    ProgramSet::those(|p| tables::row_of(rows, p).has(p))
}

// A loop of the board whose rows and whose matrix these are, and none where it has an order.
fn find_in(rows: &[u32; 32], matrix: &[u32; 32]) -> Loop
    ensures { LoopFor rows.now matrix.now result }
{
    let set = in_own(matrix);
    if set.bits == 0 {
        return Loop::NONE;
    }
    walk_back(rows, set, 32, set.lowest(), [0u8; 32], 32)
}

// ---- of a board

// A loop of the board by its sets and the rest, sound or not; none exactly where it has an order.
fn find_by(sets: &Sets, rest: Rest) -> Loop
    ensures { LoopOf (board_of sets.now rest) result }
{
    let mut rows = [0u32; 32];
    crate::fill_steps(sets, rest, &mut rows);
    let mut matrix = rows;
    crate::close_rows(&mut matrix);
    find_in(&rows, &matrix)
}

// A loop of the board, sound or not; none exactly where it has an order.
pub fn find(b: Board) -> Loop
    ensures { LoopOf b result }
{
    let mut sets = [[0u64; WORDS]; PLACES];
    let rest = sets::take(b, &mut sets);
    find_by(&sets, rest)
}

// Whether the list is a loop of the board by its sets and the rest, sound or not.
fn is_loop(sets: &Sets, rest: Rest, l: &[u8]) -> bool
    ensures { result ≡ is_loop_of (step (board_of sets.now rest)) l.now }
{
    let mut rows = [0u32; 32];
    crate::fill_steps(sets, rest, &mut rows);
    is_loop_in(&rows, l)
}

// ---- with a file given

// A loop of the board with f given to p.
pub fn find_given(b: Board, p: u8, f: u16) -> Loop
    requires { (1 ≤ p) × (p ≤ 32) }
    ensures { LoopOf (with_given b p f) result }
{
    let mut sets = [[0u64; WORDS]; PLACES];
    let rest = sets::take(b, &mut sets);
    sets::give(&mut sets, p, f);
    find_by(&sets, rest)
}

// Whether p is admitted and claims f, and the list is a loop with f given to it.
fn is_loop_by(b: Board, p: u8, f: u16, l: &[u8]) -> bool
    requires { (1 ≤ p) × (p ≤ 32) }
    ensures { result ≡ is_loop_with b p f l.now }
{
    let mut sets = [[0u64; WORDS]; PLACES];
    let rest = sets::take(b, &mut sets);
    if !standings::is_admitted(store::standing_at(rest, p)) {
        return false;
    }
    if !sets::has_claim(&sets, p, f, Mode::Write) {
        return false;
    }
    sets::give(&mut sets, p, f);
    is_loop(&sets, rest, l)
}

// The checker: whether the list is a loop with file f given to program p, for any numbers, of any board.
#[tactic(auto, using(crate::proofs::LoopLaws::no_program_lem, crate::proofs::LoopLaws::no_file))]
pub fn is_loop_with(b: Board, p: u64, f: u64, l: &[u8]) -> bool
    ensures { result ≡ is_loop_with b p f l.now }
{
    if !(1..=32).contains(&p) || 64 < f {
        return false;
    }
    is_loop_by(b, p as u8, f as u16, l)
}

// A loop with the file given that p waits for, of a sound board; none exactly if p doesn't wait for a file.
pub fn find_for(b: Board, p: u8) -> Loop
    requires { ((1 ≤ p) × (p ≤ 32)) × (sound b ≡ true) }
    ensures { LoopOfWaiter b p result }
{
    let q = b.programs[(p - 1) as usize];
    if q.item != 0 || !standings::is_waiting(q.standing) {
        return Loop::NONE;
    }
    find_given(b, p, standings::awaited(q.standing))
}
