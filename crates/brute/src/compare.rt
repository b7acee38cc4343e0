// Compares the search, the matrix and the loop with the brute search on one board, and counts what came of it.
use super::orders::{Admitted, Place, Tried};
use super::{orders, paths};
use files::WORDS;
use rules::Board;
use search::{Order, Search};
use std::fmt;
use store::sets::PLACES;

// Whether the board has a completion order, whether it has one by rising number, and whether search, matrix and loop agree.
#[derive(Clone, Copy, Default)]
pub struct Outcome {
    pub some: bool,
    pub rising: bool,
    pub agrees: bool,
}

// Boards, those with a completion order, those of them where the order by rising number is none,
// those without a completion order, and those on which the brute search and the others differ.
#[derive(Clone, Copy, Default)]
pub struct Tally {
    boards: u64,
    with: u64,
    not_rising: u64,
    without: u64,
    different: u64,
}

impl Tally {
    // With what came of one board more.
    pub fn counted(self, o: Outcome) -> Tally {
        let not_rising = o.some && !o.rising;
        Tally {
            boards: self.boards.saturating_add(1),
            with: self.with.saturating_add(u64::from(o.some)),
            not_rising: self.not_rising.saturating_add(u64::from(not_rising)),
            without: self.without.saturating_add(u64::from(!o.some)),
            different: self.different.saturating_add(u64::from(!o.agrees)),
        }
    }

    // With what came of other boards.
    pub fn and(self, t: Tally) -> Tally {
        Tally {
            boards: self.boards.saturating_add(t.boards),
            with: self.with.saturating_add(t.with),
            not_rising: self.not_rising.saturating_add(t.not_rising),
            without: self.without.saturating_add(t.without),
            different: self.different.saturating_add(t.different),
        }
    }
}

impl fmt::Display for Tally {
    fn fmt<W: fmt::Write>(&self, f: &mut fmt::Formatter<W>) -> fmt::Result {
        let Tally {
            boards,
            with,
            not_rising,
            without,
            different,
        } = *self;
        write!(
            f,
            "{boards} boards, {with} with an order, {not_rising} of these not rising, {without} without, {different} differences"
        )
    }
}

// Whether the order found, the first `count` of `at`, is the first of all completion orders, and one of them.
fn right_order(t: Tried, places: &[Place], count: usize, at: &[u8; 32]) -> bool {
    count == places.len()
        && t.expected == 1
        && t.first
        && at.iter().skip(count).all(|name| *name == 0)
}

// Whether the search's answer is what the brute search found.
fn right_answer(order: Order, t: Tried, places: &[Place]) -> bool {
    match order.kind {
        Search::Found(count) => right_order(t, places, count, &order.at),
        Search::Stuck => t.orders == 0,
    }
}

// Both searches on one board; the board's own order is the one that the test of a sound board gives back.
// Nothing agrees where so many programs are admitted that their orders are not tried.
#[tactic(auto, using(store::proofs::Laws::fresh_store))]
pub fn compared(b: Board) -> Outcome {
    let admitted = Admitted::of(&b);
    let places = admitted.places();
    let mut sets = [[0u64; WORDS]; PLACES];
    let rest = store::sets::take(b, &mut sets);
    let order = sound::judge(&sets, rest).order;
    let Some(t) = orders::all_tried(places, &order.at) else {
        return Outcome::default();
    };
    Outcome {
        some: t.orders != 0,
        rising: t.rising,
        agrees: right_answer(order, t, places) && paths::agree(b, places, t.orders == 0),
    }
}
