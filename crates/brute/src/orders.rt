// The brute search: every order of a board's admitted programs, in dictionary order.
use files::FileSet;
use rules::{Board, Program, Standing};

// The first order of six places; all orders of up to so many are tried. A place is that of an admitted program among all of these,
// lowest number first, counted from 0.
const RISING: [usize; 6] = [0, 1, 2, 3, 4, 5];

// How many orders six places have.
const ORDERS: u64 = 720;

// An admitted program: its number, and the set of the places that it holds back.
#[derive(Clone, Copy)]
pub struct Place {
    pub name: u8,
    pub held_back: u64,
}

// The places of a board's admitted programs: the first `count` of `at` (no heap).
#[derive(Clone, Copy)]
pub struct Admitted {
    at: [Place; 32],
    count: usize,
}

// What came of all orders: how many are completion orders, whether the one by rising number is among them,
// how many of them are the expected one, and whether the first of them is.
#[derive(Clone, Copy, Default)]
pub struct Tried {
    pub orders: u64,
    pub rising: bool,
    pub expected: u64,
    pub first: bool,
}

impl Admitted {
    // No place.
    const NONE: Admitted = Admitted {
        at: [Place {
            name: 0,
            held_back: 0,
        }; 32],
        count: 0,
    };

    // Those of a board.
    pub fn of(b: &Board) -> Admitted {
        let mut named = Admitted::NONE;
        for (name, p) in (1..=32).zip(&b.programs) {
            if matches!(p.standing, Standing::Running | Standing::Waiting(_)) {
                named.add(Place { name, held_back: 0 });
            }
        }
        let mut admitted = Admitted::NONE;
        for place in named.places() {
            admitted.add(Place {
                name: place.name,
                held_back: held_back_by(place.name, named.places(), b),
            });
        }
        admitted
    }

    // One place more, if there is room for it.
    fn add(&mut self, place: Place) {
        if let Some(free) = self.at.get_mut(self.count) {
            *free = place;
            self.count += 1;
        }
    }

    // All of them.
    pub fn places(&self) -> &[Place] {
        self.at.get(..self.count).unwrap_or(&[])
    }
}

impl Tried {
    // One completion order more.
    fn with(self, is_rising: bool, is_expected: bool) -> Tried {
        Tried {
            orders: self.orders.saturating_add(1),
            rising: self.rising || is_rising,
            expected: self.expected.saturating_add(u64::from(is_expected)),
            first: if is_expected {
                self.orders == 0
            } else {
                self.first
            },
        }
    }
}

// Whether two sets have a file in common.
fn meet(a: FileSet, b: FileSet) -> bool {
    a.bits & b.bits != 0
}

// "I of i meets V or Q of j, or W or R of i meets J of j"
fn holds_back_by_inquiry(i: &Program, j: &Program) -> bool {
    meet(i.inquiring, j.writable)
        || meet(i.inquiring, j.readable)
        || meet(i.writing, j.inquirable)
        || meet(i.reading, j.inquirable)
}

// "W of i meets V or Q of j, or R of i meets V of j"
fn holds_back(i: &Program, j: &Program) -> bool {
    meet(i.writing, j.writable)
        || meet(i.writing, j.readable)
        || meet(i.reading, j.writable)
        || holds_back_by_inquiry(i, j)
}

// The set that holds only a place.
pub fn only(place: usize) -> u64 {
    if place < 64 { 1 << place } else { 0 }
}

// Program `name` of a board.
fn program(b: &Board, name: u8) -> Option<&Program> {
    b.programs.get(usize::from(name).wrapping_sub(1))
}

// Whether program i of a board is another than j, and holds it back.
fn holds_other(b: &Board, i: u8, j: u8) -> bool {
    match (program(b, i), program(b, j)) {
        (Some(p), Some(q)) => i != j && holds_back(p, q),
        _ => false,
    }
}

// The places of the others that program `name` of a board holds back.
fn held_back_by(name: u8, places: &[Place], b: &Board) -> u64 {
    let mut set = 0;
    for (place, other) in places.iter().enumerate() {
        if holds_other(b, name, other.name) {
            set |= only(place);
        }
    }
    set
}

// Whether no place of the order holds back one before it.
fn is_completion_order(places: &[Place], order: &[usize]) -> bool {
    let mut before = 0;
    for i in order {
        if places.get(*i).is_some_and(|p| p.held_back & before != 0) {
            return false;
        }
        before |= only(*i);
    }
    true
}

// Whether the programs of the order are the first of the expected ones.
fn is_expected(places: &[Place], order: &[usize], expected: &[u8]) -> bool {
    order.len() <= expected.len()
        && order.iter().zip(expected).all(|(i, name)| places
            .get(*i)
            .is_some_and(|p| p.name == *name))
}

// Makes an order the next one, if it is not the last.
fn advance(order: &mut [usize]) -> bool {
    for i in (1..order.len()).rev() {
        let low = order[i - 1];
        if low < order[i] {
            order[i..].reverse();
            if let Some(k) = order[i..].iter().position(|place| low < *place) {
                order.swap(i - 1, i + k);
            }
            return true;
        }
    }
    false
}

// What came of all orders of the places; none where there are more than six.
pub fn all_tried(places: &[Place], expected: &[u8]) -> Option<Tried> {
    let mut all = RISING;
    let order = all.get_mut(..places.len())?;
    let mut tried = Tried::default();
    for number in 0..ORDERS {
        if is_completion_order(places, order) {
            tried = tried.with(number == 0, is_expected(places, order, expected));
        }
        if !advance(order) {
            break;
        }
    }
    Some(tried)
}
