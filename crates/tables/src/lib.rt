#![tactic(auto)]

// Which admitted program holds back which, in an array that is lent and not copied, by the sets of a board's programs (`store::sets`):
// in `rows` the set of the admitted programs that the admitted program p holds back stands in place p - 1.
ghost use Rattle.std.specs.Prelude.{◌≡◌, ◌≤◌};
ghost use Rattle.store.specs.Sets.{holds_one};
ghost use Rattle.tables.specs.Tables.{holders_of, joined, packed, row_of};

use parts::modes;
use rules::Mode;
use store::sets;
use store::sets::Sets;

pub mod boards;
mod programs;
pub mod rows;
pub mod shared;

// A set of the programs 1 to 32: bit p - 1 says whether program p is in it.
#[derive(Clone, Copy)]
pub struct ProgramSet {
    pub bits: u32,
}

// A walk over a set of programs, the lowest first: those that are still to come.
#[derive(Clone, Copy)]
pub struct Members {
    pub left: ProgramSet,
}

// The set, and p where the test passed.
pub fn join(s: ProgramSet, p: u8, yes: bool) -> ProgramSet
    ensures { result ≡ joined s p yes }
{
    if yes {
        return s.with(p);
    }
    s
}

// The row of p, of 32 rows.
pub fn row_of(rows: &[u32; 32], p: u8) -> ProgramSet
    requires { (1 ≤ p) × (p ≤ 32) }
    ensures { result ≡ row_of rows.now p }
{
    ProgramSet {
        bits: rows[boards::place_of(p)],
    }
}

// The test of an ordered pair: whether p holds back q. No other function makes it.
pub fn holds_back(sets: &Sets, p: u8, q: u8) -> bool
    requires { ((1 ≤ p) × (p ≤ 32)) × ((1 ≤ q) × (q ≤ 32)) }
    ensures { result ≡ holds_one sets.now q p }
{
    let w = sets::open_at(Mode::Write, p);
    let r = sets::open_at(Mode::Read, p);
    let i = sets::open_at(Mode::Inquiry, p);
    let v = sets::claim_at(Mode::Write, q);
    let c = sets::claim_at(Mode::Read, q);
    let j = sets::claim_at(Mode::Inquiry, q);
    modes::touches(&sets[w], &sets[r], &sets[i], &sets[v], &sets[c], &sets[j])
}

// Those of a set that hold p back: one test for each of them.
pub fn holders_of(sets: &Sets, p: u8, set: ProgramSet) -> ProgramSet
    requires { (1 ≤ p) × (p ≤ 32) }
    ensures { result ≡ packed (holders_of sets.now p set) 32 }
{
    set.filter(|q| holds_back(sets, q, p))
}
