// Sets of programs, by value, and a walk over one: `for p in set`, the lowest first.
ghost use Rattle.std.specs.Prelude.{◌≡◌, ◌≢◌, ◌≤◌, length};
ghost use Rattle.laws.specs.Lists.{keep};
ghost use Rattle.rules.specs.Boards.{everyone};
ghost use Rattle.tables.specs.ProgramSets.{has_program, with_program, without_program, programs_meet, union_of, common_of, less_of, lowest_of, IsLowest, PassedBy, AllPassedBy, GivesLowest, programs_left};

use crate::{Members, ProgramSet};
use files::numbers;

// How many programs a set may have.
const PROGRAMS: u16 = 32;

impl ProgramSet {
    // No program.
    pub const EMPTY: ProgramSet = ProgramSet { bits: 0 };

    // Whether p is a program of the set.
    pub fn has(self, p: u8) -> bool
        ensures { result ≡ has_program self p }
    {
        numbers::has(PROGRAMS, u64::from(self.bits), u16::from(p))
    }

    // The set and p; the set itself if p is no program.
    pub fn with(self, p: u8) -> ProgramSet
        ensures { result ≡ with_program self p }
    {
        ProgramSet {
            bits: numbers::with(PROGRAMS, u64::from(self.bits), u16::from(p)) as u32,
        }
    }

    // The set but p.
    pub fn without(self, p: u8) -> ProgramSet
        ensures { result ≡ without_program self p }
    {
        ProgramSet {
            bits: numbers::without(PROGRAMS, u64::from(self.bits), u16::from(p)) as u32,
        }
    }

    // The lowest program of the set, which has some.
    pub fn lowest(self) -> u8
        requires { self.bits ≢ 0 }
        ensures { (result ≡ lowest_of self) × IsLowest self result }
    {
        u32::trailing_zeros(self.bits) as u8 + 1
    }

    // The set, which has some, but its lowest program.
    pub fn but_lowest(self) -> ProgramSet
        requires { self.bits ≢ 0 }
        ensures { result ≡ without_program self (lowest_of self) }
    {
        ProgramSet {
            bits: self.bits & (self.bits - 1),
        }
    }

    // Whether the sets have a program in common.
    pub fn meets(self, other: ProgramSet) -> bool
        ensures { result ≡ programs_meet self other }
    {
        self.bits & other.bits != 0
    }

    // The programs of both.
    pub fn or(self, other: ProgramSet) -> ProgramSet
        ensures { result ≡ union_of self other }
    {
        ProgramSet {
            bits: self.bits | other.bits,
        }
    }

    // The programs that they have in common.
    pub fn and(self, other: ProgramSet) -> ProgramSet
        ensures { result ≡ common_of self other }
    {
        ProgramSet {
            bits: self.bits & other.bits,
        }
    }

    // The programs of the set that are not in the other.
    pub fn less(self, other: ProgramSet) -> ProgramSet
        ensures { result ≡ less_of self other }
    {
        ProgramSet {
            bits: self.bits ^ (self.bits & other.bits),
        }
    }

    // The programs of the set that pass a test, which each of them is put to once.
    pub fn filter<F: Fn(u8) -> bool>(self, test: F) -> ProgramSet
        requires { (p : _) → 1 ≤ p → p ≤ 32 → F.pre test p }
        ensures { PassedBy (F.post test) self result }
    {
        let mut passed = ProgramSet::EMPTY;
        for p in self {
            passed = crate::join(passed, p, test(p));
        }
        passed
    }

    // The programs that pass a test, which each is put to once.
    // Not written out where it is called: there the test would be taken apart for each of the 32, and the board that it looks at with it.
    #[inline(never)]
    pub fn those<F: Fn(u8) -> bool>(test: F) -> ProgramSet
        requires { (p : _) → 1 ≤ p → p ≤ 32 → F.pre test p }
        ensures { AllPassedBy (F.post test) result }
    {
        let mut passed = ProgramSet::EMPTY;
        for p in 1..=32 {
            passed = crate::join(passed, p, test(p));
        }
        passed
    }

    // How many programs the set has.
    pub fn count(self) -> u8
        ensures { (result ≡ length (keep (has_program self) everyone)) × (result ≤ 32) }
    {
        u32::count_ones(self.bits) as u8
    }
}

impl Iterator for Members {
    type Item = u8;

    ghost next_gives = { GivesLowest };

    ghost remaining = { programs_left };

    fn next(&mut self) -> Option<u8> {
        let left = self.left;
        if left.bits == 0 {
            return None;
        }
        self.left = left.but_lowest();
        Some(left.lowest())
    }
}

impl IntoIterator for ProgramSet {
    type Item = u8;

    type IntoIter = Members;

    ghost into_iter_gives = { λ set walk. walk.left ≡ set };

    fn into_iter(self) -> Members {
        Members { left: self }
    }
}
