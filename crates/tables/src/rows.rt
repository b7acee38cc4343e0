// Which admitted program holds back which: in the row of a program stand the others that it holds back.
ghost use Rattle.std.specs.Prelude.{◌≡◌, true, ◌≤◌, ◌<◌, replicate, bit_or};
ghost use Rattle.files.specs.Words.{wordwise};
ghost use Rattle.store.specs.Sets.{IsStore, place_count, row_in};
ghost use Rattle.tables.specs.ProgramSets.{has_program, without_program};
ghost use Rattle.tables.specs.Tables.{held_by, rows_of, packed};
ghost use Rattle.tables.specs.Shared.{claimed_at, opened_at, SharedBy};

use crate::ProgramSet;
use crate::boards::place_of;
use crate::shared::Shared;
use files::{WORDS, words};
use rules::Mode;
use store::sets;
use store::sets::Sets;

// What stands in some of three rows.
fn in_any(sets: &Sets, a: usize, b: usize, c: usize) -> [u64; WORDS]
    requires { (a < place_count) × (b < place_count) × (c < place_count) }
    ensures { result ≡ wordwise bit_or (wordwise bit_or (row_in sets.now a) (row_in sets.now b)) (row_in sets.now c) }
{
    let mut files = [0u64; WORDS];
    files.copy_from_slice(sets::row(sets, a));
    words::join(&mut files, sets::row(sets, b));
    words::join(&mut files, sets::row(sets, c));
    files
}

// What p claims.
fn claims_of(sets: &Sets, p: u8) -> [u64; WORDS]
    requires { (1 ≤ p) × (p ≤ 32) }
    ensures { result ≡ claimed_at sets.now p }
{
    in_any(
        sets,
        sets::claim_at(Mode::Write, p),
        sets::claim_at(Mode::Read, p),
        sets::claim_at(Mode::Inquiry, p),
    )
}

// What p has open.
fn opens_of(sets: &Sets, p: u8) -> [u64; WORDS]
    requires { (1 ≤ p) × (p ≤ 32) }
    ensures { result ≡ opened_at sets.now p }
{
    in_any(
        sets,
        sets::open_at(Mode::Write, p),
        sets::open_at(Mode::Read, p),
        sets::open_at(Mode::Inquiry, p),
    )
}

// What the programs of a set claim.
fn claimed_by(sets: &Sets, set: ProgramSet) -> Shared
    ensures { SharedBy (claimed_at sets.now) (has_program set) result }
{
    let mut claimed = Shared::NONE;
    for p in set {
        claimed = claimed.with(claims_of(sets, p));
    }
    claimed
}

// Those of a set that p holds back: one test for each of them.
fn held_by(sets: &Sets, p: u8, set: ProgramSet) -> ProgramSet
    requires { (1 ≤ p) × (p ≤ 32) }
    ensures { result ≡ packed (held_by sets.now p set) 32 }
{
    set.filter(|q| crate::holds_back(sets, p, q))
}

// The row of p, one of the admitted: the others of them that it holds back. Nobody is tested if none of them claims a file that p has open.
fn row_of(sets: &Sets, admitted: ProgramSet, claimed: Shared, p: u8) -> ProgramSet
    requires { ((1 ≤ p) × (p ≤ 32)) × (has_program admitted p ≡ true) × SharedBy (claimed_at sets.now) (has_program admitted) claimed × IsStore sets.now }
    ensures { result ≡ packed (held_by sets.now p (without_program admitted p)) 32 }
{
    let own = claims_of(sets, p);
    let by_others = claimed.by_others(own);
    let open = opens_of(sets, p);
    if !words::meets(&open, &by_others) {
        return ProgramSet::EMPTY;
    }
    let others = admitted.without(p);
    held_by(sets, p, others)
}

// The rows of the admitted: each ordered pair of different ones is tested at most once.
pub fn fill_rows(sets: &Sets, admitted: ProgramSet, rows: &mut [u32; 32])
    requires { rows.old ≡ replicate 32 0 }
    ensures { rows.new ≡ rows_of sets.now admitted }
{
    sets::sized(sets);
    let claimed = claimed_by(sets, admitted);
    for p in admitted {
        rows[place_of(p)] = row_of(sets, admitted, claimed, p).bits;
    }
}
