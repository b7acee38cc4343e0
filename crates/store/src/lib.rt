#![tactic(auto)]

// A board as two things: the sets of its programs in an array that is lent and not copied (`sets`), and the small rest by value.
// The board of the rules stands at the edges: `sets::take` takes it apart.
ghost use Rattle.std.specs.Prelude.{◌≡◌, ◌≤◌};
ghost use Rattle.store.specs.declared.Seat.{Seat};
ghost use Rattle.store.specs.Store.{seat_at, standing_at, put_seat, seated_at};

use rules::Standing;

pub mod sets;

// What is kept of a program beside its sets: its standing, and its record (item) with the file: in use if the program runs, awaited if it
// waits; 0 for none, as in the rules' Program.
#[derive(Clone, Copy)]
pub struct Seat {
    pub standing: Standing,
    pub file: u16,
    pub item: u16,
}

// A board but for its programs' sets; program p has seat p - 1. Everywhere the number of a program is a u8 whose range the contract names,
// and no type of its own: `sets::give`, `tables::holds_back` or `search::gives::is_safe`, which the documents name, take every such u8, and
// a type of its own would be unwrapped at each call of them.
#[derive(Clone, Copy)]
pub struct Rest {
    pub seats: [Seat; 32],
    pub waiting: [u8; 32],
    pub entry: [u8; 32],
    pub favoured: u8,
    pub initial: u8,
    pub leaves: u8,
    pub passed: [u8; 32],
}

impl Seat {
    // Of an absent program.
    pub const NONE: Seat = Seat {
        standing: Standing::Absent,
        file: 0,
        item: 0,
    };
}

impl Rest {
    // Of the empty board.
    pub const EMPTY: Rest = Rest {
        seats: [Seat::NONE; 32],
        waiting: [0; 32],
        entry: [0; 32],
        favoured: 0,
        initial: 0,
        leaves: 0,
        passed: [0; 32],
    };
}

// The seat of p.
pub fn seat_at(rest: Rest, p: u8) -> Seat
    requires { (1 ≤ p) × (p ≤ 32) }
    ensures { result ≡ seat_at rest p }
{
    rest.seats[usize::from(p - 1)]
}

// The rest with a seat for p.
pub fn put_seat(rest: Rest, p: u8, t: Seat) -> Rest
    requires { (1 ≤ p) × (p ≤ 32) }
    ensures { result ≡ put_seat rest p t }
{
    let mut r = rest;
    r.seats[usize::from(p - 1)] = t;
    r
}

// The standing of p.
pub fn standing_at(rest: Rest, p: u8) -> Standing
    requires { (1 ≤ p) × (p ≤ 32) }
    ensures { result ≡ standing_at rest p }
{
    rest.seats[usize::from(p - 1)].standing
}

// The rest with p at a standing.
pub fn seated(rest: Rest, p: u8, s: Standing) -> Rest
    requires { (1 ≤ p) × (p ≤ 32) }
    ensures { result ≡ seated_at rest p s }
{
    let mut r = rest;
    r.seats[usize::from(p - 1)].standing = s;
    r
}
