#![tactic(auto)]

// Which admitted program holds back which, closed over paths, of any board, and loops of programs that hold back each other.
// In place p - 1 of the rows stands the set of the admitted programs that hold p back; closed, of those that reach p.
ghost use Rattle.std.specs.Prelude.{◌≡◌, ◌≤◌, length, replicate};
ghost use Rattle.rules.specs.Digraph.{step};
ghost use Rattle.store.specs.Store.{board_of};
ghost use Rattle.digraph.specs.Rows.{by_row, rows_saying, holder_rows, PassedBy, ClosedOver, matrix_of};

use files::WORDS;
use rules::Board;
use store::sets::{PLACES, Sets};
use store::{Rest, sets};
use tables::ProgramSet;
use tables::boards::place_of;

pub mod answers;
pub mod loops;

// A loop: its programs stand in the first `count` places of `at` (no heap); of no loop `count` is 0, as `LoopOf` and `CarriedBy` say.
#[derive(Clone, Copy)]
pub struct Loop {
    pub at: [u8; 32],
    pub count: usize,
}

impl Loop {
    // No loop.
    pub const NONE: Loop = Loop {
        at: [0u8; 32],
        count: 0,
    };
}

// ---- who holds back whom

// For each program of the set the others of it that hold it back.
fn fill_holders(sets: &Sets, admitted: ProgramSet, rows: &mut [u32; 32])
    requires { rows.old ≡ replicate 32 0 }
    ensures { rows.new ≡ holder_rows sets.now admitted }
{
    for p in admitted {
        let others = admitted.without(p);
        rows[place_of(p)] = tables::holders_of(sets, p, others).bits;
    }
}

// For each admitted program the others of them that hold it back.
fn fill_steps(sets: &Sets, rest: Rest, rows: &mut [u32; 32])
    requires { rows.old ≡ replicate 32 0 }
    ensures { rows.new ≡ rows_saying (step (board_of sets.now rest)) }
{
    sets::sized(sets);
    fill_holders(sets, tables::boards::admitted_seats(rest), rows);
}

// ---- closing over paths

// The row, with the row of k joined if k is in it.
fn join_row(row: ProgramSet, by: ProgramSet, k: u8) -> ProgramSet
    ensures { result ≡ by_row row by k }
{
    if row.has(k) { row.or(by) } else { row }
}

// Each row with those that reach it by way of k; nothing changes if nobody reaches k.
fn pass(rows: &mut [u32; 32], k: u8)
    requires { ((1 ≤ k) × (k ≤ 32)) × (length rows.old ≡ 32) }
    ensures { PassedBy k rows.old rows.new }
{
    let by = ProgramSet {
        bits: rows[(k - 1) as usize],
    };
    if by.bits == 0 {
        return;
    }
    for row in rows.iter_mut() {
        *row = join_row(ProgramSet { bits: *row }, by, k).bits;
    }
}

// The rows closed over paths.
fn close_rows(rows: &mut [u32; 32])
    requires { length rows.old ≡ 32 }
    ensures { ClosedOver rows.old rows.new }
{
    for k in (1..=32).rev() {
        pass(rows, k);
    }
}

// The matrix of the board, sound or not: in place p - 1 the programs that reach p.
pub fn fill_matrix(b: Board, rows: &mut [u32; 32])
    requires { rows.old ≡ replicate 32 0 }
    ensures { rows.new ≡ matrix_of b }
{
    let mut sets = [[0u64; WORDS]; PLACES];
    let rest = sets::take(b, &mut sets);
    fill_steps(&sets, rest, rows);
    close_rows(rows);
}
