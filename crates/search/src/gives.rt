// Whether a file can be given, by the arrays of a board.
ghost use Rattle.std.specs.Prelude.{◌≡◌, true, ◌≤◌};
ghost use Rattle.search.specs.Gives.{uses_in, used_in, holders_in, safe_in, give_in};
ghost use Rattle.rules.specs.Orders.{carried, with_given};
ghost use Rattle.files.specs.Sets.{member};
ghost use Rattle.files.specs.Words.{set_of};
ghost use Rattle.store.specs.Store.{board_of};
ghost use Rattle.search.specs.Rows.{as_order};
ghost use Rattle.search.specs.Stages.{TellsHolders};
ghost use Rattle.tables.specs.ProgramSets.{has_program};
ghost use Rattle.tables.specs.Tables.{packed, rows_of};

use crate::{Order, Uses};
use files::{WORDS, words};
use rules::Mode;
use store::sets::Sets;
use store::{Rest, sets};
use tables::ProgramSet;

// What is open, by the sets, with these admitted.
pub fn uses_in(admitted: ProgramSet, sets: &Sets) -> Uses
    ensures { result ≡ uses_in admitted sets.now }
{
    let files = tables::shared::opened(sets);
    Uses { admitted, files }
}

// Whether f is among these files.
fn is_among(files: [u64; WORDS], f: u16) -> bool
    ensures { result ≡ member (set_of files) f }
{
    words::has(&files, f)
}

// Whether some program has f open in a mode that clashes with the one in which p opens it: on a board without conflict, where p has not
// f open, that is conflicting use.
pub fn in_use(sets: &Sets, u: Uses, p: u8, f: u16) -> bool
    requires { (1 ≤ p) × (p ≤ 32) }
    ensures { result ≡ used_in sets.now u p f }
{
    let open = u.files;
    match sets::mode_at(sets, p, f) {
        Mode::Write => is_among(open.writing, f)
            || is_among(open.reading, f)
            || is_among(open.inquiring, f),
        Mode::Read => is_among(open.writing, f) || is_among(open.inquiring, f),
        Mode::Inquiry => is_among(open.writing, f) || is_among(open.reading, f),
    }
}

// Whether giving f to p is safe, where `holders` tells who of a set holds a program back. Those that hold p back, directly or through
// others, are found one after another, until one claims f so that p would hold it back, or there are no more. Who is found is asked
// for no more: each ordered pair is asked for at most once.
fn is_safe_from<F: Fn(u8, ProgramSet) -> ProgramSet>(
    sets: &Sets,
    admitted: ProgramSet,
    p: u8,
    f: u16,
    holders: F,
) -> bool
    requires store { (1 ≤ p) × (p ≤ 32) }
    requires can { (q : _) (set : _) → 1 ≤ q → q ≤ 32 → F.pre holders q set }
    requires tells { TellsHolders sets.now admitted p (F.post holders) }
    ensures { result ≡ safe_in sets.now admitted p f }
{
    let mode = sets::mode_at(sets, p, f);
    let others = admitted.without(p);
    let mut found = holders(p, others);
    let mut rest = others.less(found);
    // No `for`: more come to the set while it is walked.
    while found.bits != 0 {
        let q = found.lowest();
        if sets::has_claim(sets, q, f, mode) {
            return false;
        }
        let more = holders(q, rest);
        rest = rest.less(more);
        found = found.but_lowest().or(more);
    }
    true
}

// Whether giving f to p is safe: on a board that has an order, whether one comes back. Who holds back whom is tested, each ordered pair at
// most once.
pub fn is_safe(sets: &Sets, admitted: ProgramSet, p: u8, f: u16) -> bool
    requires { (1 ≤ p) × (p ≤ 32) }
    ensures { result ≡ safe_in sets.now admitted p f }
{
    is_safe_from(
        sets,
        admitted,
        p,
        f,
        |q, set| tables::holders_of(sets, q, set),
    )
}

// Whether f can be given to p: on a sound board, where p has not f open, whether an open would give it.
pub fn can_give(sets: &Sets, u: Uses, p: u8, f: u16) -> bool
    requires { (1 ≤ p) × (p ≤ 32) }
    ensures { result ≡ give_in sets.now u p f }
{
    !in_use(sets, u, p, f) && is_safe(sets, u.admitted, p, f)
}

// Those of a set that hold p back, by the rows: one bit is read for each of them, and no pair is tested.
fn holders_in(rows: &[u32; 32], p: u8, set: ProgramSet) -> ProgramSet
    requires { (1 ≤ p) × (p ≤ 32) }
    ensures { result ≡ packed (holders_in rows.now p set) 32 }
{
    set.filter(|q| tables::row_of(rows, q).has(p))
}

// The same as `is_safe`, of an admitted program, where the rows of the admitted are filled: who holds back whom is read from them.
pub fn is_safe_by(sets: &Sets, rows: &[u32; 32], admitted: ProgramSet, p: u8, f: u16) -> bool
    requires { ((1 ≤ p) × (p ≤ 32)) × (has_program admitted p ≡ true) × (rows.now ≡ rows_of sets.now admitted) }
    ensures { result ≡ safe_in sets.now admitted p f }
{
    is_safe_from(sets, admitted, p, f, |q, set| holders_in(rows, q, set))
}

// The same as `can_give`, of an admitted program, by the rows.
pub fn can_give_by(sets: &Sets, rows: &[u32; 32], u: Uses, p: u8, f: u16) -> bool
    requires { ((1 ≤ p) × (p ≤ 32)) × (has_program u.admitted p ≡ true) × (rows.now ≡ rows_of sets.now u.admitted) }
    ensures { result ≡ give_in sets.now u p f }
{
    !in_use(sets, u, p, f) && is_safe_by(sets, rows, u.admitted, p, f)
}

// The order with f given to p; the sets are then as they were.
pub fn order_given(sets: &mut Sets, rest: Rest, p: u8, f: u16) -> Order
    requires { (1 ≤ p) × (p ≤ 32) }
    ensures value { result ≡ as_order (carried (with_given (board_of sets.old rest) p f)) }
    ensures sets_unchanged { sets.new ≡ sets.old }
{
    let w = sets::open_at(Mode::Write, p);
    let r = sets::open_at(Mode::Read, p);
    let i = sets::open_at(Mode::Inquiry, p);
    let writing = sets[w];
    let reading = sets[r];
    let inquiring = sets[i];
    sets::sized(sets);
    sets::give(sets, p, f);
    let order = crate::carried_in(sets, rest);
    sets[w] = writing;
    sets[r] = reading;
    sets[i] = inquiring;
    order
}
