#![tactic(auto)]

// The carried order of a board, by its sets and the rest, and whether a file can be given (`gives`).
ghost use Rattle.std.specs.Prelude.{◌≡◌, ◌+◌, ◌≤◌, length, replicate, IfSome};
ghost use Rattle.rules.specs.Orders.{carried};
ghost use Rattle.store.specs.Store.{board_of};
ghost use Rattle.search.specs.Counts.{counts_of, Counted, CanRaise, CanLower, raised, lowered, lowest};
ghost use Rattle.search.specs.Rows.{order_from, placed, outcome, as_order, order_in, is_found};

use store::sets::Sets;
use store::{Rest, sets};
use tables::ProgramSet;
use tables::boards::place_of;
use tables::shared::OpenFiles;

pub mod gives;

// The admitted programs, and what all programs have open.
#[derive(Clone, Copy)]
pub struct Uses {
    pub admitted: ProgramSet,
    pub files: OpenFiles,
}

// What a search comes back with: an order of so many programs, or none. An enum of its own with the array beside it, and no Option: a rule
// of the project, `let Search::Found(n) = kind else` at an open (docs/DECISIONS.md).
#[derive(Clone, Copy)]
pub enum Search {
    Found(usize),
    Stuck,
}

// The order that was found stands in the first places of `at`.
#[derive(Clone, Copy)]
pub struct Order {
    pub kind: Search,
    pub at: [u8; 32],
}

impl Order {
    // No order.
    pub const NONE: Order = Order {
        kind: Search::Stuck,
        at: [0u8; 32],
    };
}

// One more for each program of a set.
fn raise(set: ProgramSet, counts: &mut [u8; 32])
    requires { CanRaise set counts.old }
    ensures { counts.new ≡ raised set counts.old }
{
    for p in set {
        counts[place_of(p)] += 1;
    }
}

// One less for each program of a set. Two loops: with the step as a closure they would be no shorter, and it would need clauses of its own.
fn lower(set: ProgramSet, counts: &mut [u8; 32])
    requires { CanLower set counts.old }
    ensures { counts.new ≡ lowered set counts.old }
{
    for p in set {
        counts[place_of(p)] -= 1;
    }
}

// For each program left the number of those left that hold it back, and 0 for the others.
fn count_all(rows: &[u32; 32], left: ProgramSet, counts: &mut [u8; 32])
    requires { counts.old ≡ replicate 32 0 }
    ensures { counts.new ≡ counts_of rows.now left }
{
    for p in left {
        raise(tables::row_of(rows, p).and(left), counts);
    }
}

// The lowest-numbered program left whose count is 0.
fn lowest_free(counts: &[u8; 32], left: ProgramSet) -> Option<u8>
    ensures value { result ≡ lowest counts.now left }
    ensures in_range { IfSome result (λ p. (1 ≤ p) × (p ≤ 32)) }
{
    for p in left {
        if counts[place_of(p)] == 0 {
            return Some(p);
        }
    }
    None
}

// The order of the n programs left, from place k of `at` on: one is taken, then the same for the rest. Whether all were taken.
// Before each taking the count of each program left is the number of those left that hold it back.
fn search_rest(
    rows: &[u32; 32],
    left: ProgramSet,
    n: usize,
    counts: &mut [u8; 32],
    at: &mut [u8; 32],
    k: usize,
) -> bool
    requires { (k + n ≤ 32) × (length at.old ≡ 32) × Counted rows.now left counts.old }
    ensures { outcome result (k + n) at.new ≡ placed at.old k (order_from n rows.now left) }
{
    if n == 0 {
        return true;
    }
    let Some(p) = lowest_free(counts, left) else {
        return false;
    };
    let rest = left.without(p);
    lower(tables::row_of(rows, p).and(rest), counts);
    at[k] = p;
    search_rest(rows, rest, n - 1, counts, at, k + 1)
}

// The order of the programs left, by the rows: the carried one of every board that has them.
pub fn order_in(rows: &[u32; 32], left: ProgramSet) -> Order
    ensures { result ≡ order_in rows.now left }
{
    let n = left.count() as usize;
    let mut counts = [0u8; 32];
    count_all(rows, left, &mut counts);
    let mut at = [0u8; 32];
    if !search_rest(rows, left, n, &mut counts, &mut at, 0) {
        return Order::NONE;
    }
    Order {
        kind: Search::Found(n),
        at,
    }
}

// The carried order of the board's admitted programs.
pub fn carried_in(sets: &Sets, rest: Rest) -> Order
    ensures { result ≡ as_order (carried (board_of sets.now rest)) }
{
    sets::sized(sets);
    let mut rows = [0u32; 32];
    let left = tables::boards::admitted_seats(rest);
    tables::rows::fill_rows(sets, left, &mut rows);
    order_in(&rows, left)
}

// Whether an order was found.
pub fn is_found(order: Order) -> bool
    ensures { result ≡ is_found order.kind }
{
    matches!(order.kind, Search::Found(_))
}
