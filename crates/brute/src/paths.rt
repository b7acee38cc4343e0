// Who reaches whom by going along all paths, and a test of loops; both compared with the digraph of the board.
use super::orders;
use super::orders::Place;
use digraph::Loop;
use rules::Board;

// ---- paths

// The set, with all places that one of it holds back.
fn one_step(set: u64, places: &[Place]) -> u64 {
    let mut more = set;
    for (i, place) in places.iter().enumerate() {
        if set & orders::only(i) != 0 {
            more |= place.held_back;
        }
    }
    more
}

// The places that are reached from a place: those it holds back, and as many times as there are places those that they hold back.
fn reached_from(place: &Place, places: &[Place]) -> u64 {
    let mut set = place.held_back;
    for _ in 0..places.len() {
        set = one_step(set, places);
    }
    set
}

// ---- the matrix

// The set that holds only a program.
fn program_bit(name: u8) -> u32 {
    if 1 <= name && name <= 32 {
        1 << (name - 1)
    } else {
        0
    }
}

// The programs that reach the one at place `i`.
fn row_of(i: usize, places: &[Place]) -> u32 {
    let mut row = 0;
    for other in places {
        if reached_from(other, places) & orders::only(i) != 0 {
            row |= program_bit(other.name);
        }
    }
    row
}

// The rows of all programs; that of one that is not admitted is 0.
fn rows_of(places: &[Place]) -> [u32; 32] {
    let mut rows = [0; 32];
    for (i, place) in places.iter().enumerate() {
        for (name, row) in (1..=32).zip(rows.iter_mut()) {
            if name == place.name {
                *row = row_of(i, places);
            }
        }
    }
    rows
}

// Whether some program reaches itself in the rows.
fn some_self(rows: &[u32; 32]) -> bool {
    (1..=32)
        .zip(rows)
        .any(|(name, row)| row & program_bit(name) != 0)
}

// ---- the loop

// Whether one program holds back another one. Programs that are not admitted do not.
fn holds_back(places: &[Place], i: u8, j: u8) -> bool {
    let holder = places.iter().find(|p| p.name == i);
    let held = places.iter().position(|p| p.name == j);
    match (holder, held) {
        (Some(holder), Some(held)) => holder.held_back & orders::only(held) != 0,
        _ => false,
    }
}

// Whether no number stands twice in a list.
fn all_differ(names: &[u8]) -> bool {
    names
        .iter()
        .enumerate()
        .all(|(i, name)| !names[i + 1..].contains(name))
}

// Whether each program of a list holds back the next, and the last the first.
fn holds_round(places: &[Place], names: &[u8]) -> bool {
    let next = names.iter().skip(1).chain(names.first());
    names
        .iter()
        .zip(next)
        .all(|(i, j)| holds_back(places, *i, *j))
}

// Whether a loop was found that is one, or none where there is to be none.
fn right_loop(places: &[Place], found: &Loop, some: bool) -> bool {
    if !some {
        return found.count == 0;
    }
    found.at.get(..found.count).is_some_and(|names| {
        2 <= names.len() && all_differ(names) && holds_round(places, names)
    })
}

// Whether matrix and loop of a board are right, of whose orders none is a completion order if `stuck`: then, and only then,
// some program reaches itself, and there is a loop.
pub fn agree(b: Board, places: &[Place], stuck: bool) -> bool {
    let mut rows = [0; 32];
    digraph::fill_matrix(b, &mut rows);
    rows == rows_of(places)
        && some_self(&rows) == stuck
        && right_loop(places, &digraph::loops::find(b), stuck)
}
