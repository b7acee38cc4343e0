// Boards made from numbers: each program's standing and what it has of each file are the digits of the board's number.
use super::compare;
use super::compare::Tally;
use files::FileSet;
use rules::{Board, Program, Standing};

// The sets that a file may be in.
const V: u64 = 1;

const Q: u64 = 2;

const J: u64 = 4;

const W: u64 = 8;

const R: u64 = 16;

const I: u64 = 32;

// The ways in which a program may have a file.
#[derive(Clone, Copy)]
pub enum Ways {
    // The first so many of: in V, in V and W, in Q and R, in J and I, in Q, in J, and then not at all.
    First(u64),
    // In any of the six sets.
    Any,
}

// The files of the programs of a family.
#[derive(Clone, Copy)]
pub enum Files<'a> {
    // All programs have the same files.
    Same(&'a [u8]),
    // The program at a place has the file of that place and the next one. The last file is the first again.
    Ring(&'a [u8]),
}

// The numbers of the programs, their files, and the ways in which they may have each of these.
// `standings` is 1 (running), 2 (also waiting), 4 (also running with a record in use, waiting for a record) or 6 (also held or absent).
#[derive(Clone, Copy)]
pub struct Family<'a> {
    pub programs: &'a [u8],
    pub files: Files<'a>,
    pub ways: Ways,
    pub standings: u64,
}

// What is left of a board's number, whose digits are taken one after another, the lowest first.
#[derive(Clone, Copy)]
struct Digits {
    left: u64,
}

impl Digits {
    // Takes a digit to the base b.
    fn next(&mut self, b: u64) -> u64 {
        let digit = self.left.checked_rem(b).unwrap_or(0);
        self.left = self.left.checked_div(b).unwrap_or(self.left);
        digit
    }
}

impl Ways {
    fn count(self) -> u64 {
        match self {
            Ways::First(n) => n,
            Ways::Any => 64,
        }
    }

    // The sets that the file is in, summed up.
    fn sets(self, way: u64) -> u64 {
        match (self, way) {
            (Ways::Any, _) => way,
            (Ways::First(_), 0) => V,
            (Ways::First(_), 1) => V | W,
            (Ways::First(_), 2) => Q | R,
            (Ways::First(_), 3) => J | I,
            (Ways::First(_), 4) => Q,
            (Ways::First(_), 5) => J,
            (Ways::First(_), _) => 0,
        }
    }
}

impl<'a> Files<'a> {
    // The files of the program at a place.
    fn of(self, place: usize) -> &'a [u8] {
        match self {
            Files::Same(files) => files,
            Files::Ring(files) => files.windows(2).nth(place).unwrap_or(b""),
        }
    }
}

// A program with write claim v, read claim q, w open for writing and r open for reading.
pub fn program(v: u64, q: u64, w: u64, r: u64, standing: Standing) -> Program {
    Program {
        writable: FileSet { bits: v },
        readable: FileSet { bits: q },
        writing: FileSet { bits: w },
        reading: FileSet { bits: r },
        standing,
        ..Program::ABSENT
    }
}

// `p` with inquiry claim j and i open for inquiry.
pub fn inquirer(p: Program, j: u64, i: u64) -> Program {
    Program {
        inquirable: FileSet { bits: j },
        inquiring: FileSet { bits: i },
        ..p
    }
}

// `p` with record `item` of `file`: in use if it runs, awaited if it waits.
pub fn with_record(p: Program, file: u16, item: u16) -> Program {
    Program { file, item, ..p }
}

// `b` with `p` as program `number`.
pub fn placed(mut b: Board, number: u8, p: Program) -> Board {
    for (name, seat) in (1..=32).zip(b.programs.iter_mut()) {
        if name == number {
            *seat = p;
        }
    }
    b
}

// The set that holds only file `f`.
fn only(f: u8) -> u64 {
    if 1 <= f && f <= 64 { 1 << (f - 1) } else { 0 }
}

// `p` with a file in the sets that are summed up in `sets`.
fn with_file(p: Program, file: u8, sets: u64) -> Program {
    let with = |files: FileSet, set: u64| FileSet {
        bits: files.bits | if sets & set != 0 { only(file) } else { 0 },
    };
    Program {
        writable: with(p.writable, V),
        readable: with(p.readable, Q),
        inquirable: with(p.inquirable, J),
        writing: with(p.writing, W),
        reading: with(p.reading, R),
        inquiring: with(p.inquiring, I),
        ..p
    }
}

// A program without files whose standing is that of a digit. A file that it waits for, or of which it has a record, is `file`.
fn with_standing(digit: u64, file: u16) -> Program {
    let running = program(0, 0, 0, 0, Standing::Running);
    let waiting = program(0, 0, 0, 0, Standing::Waiting(file));
    match digit {
        0 => running,
        1 => waiting,
        2 => with_record(running, file, 1),
        3 => with_record(waiting, file, 1),
        4 => program(0, 0, 0, 0, Standing::Held),
        _ => Program::ABSENT,
    }
}

// The program at a place, from the digits that are left.
fn next_program(f: &Family, place: usize, digits: &mut Digits) -> Program {
    let files = f.files.of(place);
    let first = files.first().map_or(0, |file| u16::from(*file));
    let mut p = with_standing(digits.next(f.standings), first);
    for file in files {
        p = with_file(p, *file, f.ways.sets(digits.next(f.ways.count())));
    }
    p
}

// The family's board of these digits.
fn board_of(f: &Family, digits: &mut Digits) -> Board {
    let mut b = Board::EMPTY;
    for (place, number) in f.programs.iter().enumerate() {
        b = placed(b, *number, next_program(f, place, digits));
    }
    b
}

// Every board of the family whose number is a multiple of `step`.
pub fn every(f: &Family, step: u64) -> Tally {
    let mut tally = Tally::default();
    for turn in 0..1000000u64 {
        let mut digits = Digits {
            left: step.wrapping_mul(turn),
        };
        let board = board_of(f, &mut digits);
        if digits.left != 0 {
            break;
        }
        tally = tally.counted(compare::compared(board));
    }
    tally
}

// The next number of a fixed row: a linear congruential generator.
fn next_draw(x: u64) -> u64 {
    (x % 2147483647) * 48271 % 2147483647
}

// Two numbers of the row as one.
fn wide(high: u64, low: u64) -> u64 {
    (high % 2147483648) * 2147483648 + low % 2147483648
}

// `count` boards of the family, by numbers of that row.
pub fn drawn(f: &Family, count: u64) -> Tally {
    let mut tally = Tally::default();
    let mut draw: u64 = 1;
    for _ in 0..count {
        let high = next_draw(draw);
        draw = next_draw(high);
        let mut digits = Digits {
            left: wide(high, draw),
        };
        let board = board_of(f, &mut digits);
        tally = tally.counted(compare::compared(board));
    }
    tally
}
