// Boards whose completion orders were worked out by hand.
use super::compare::{Outcome, Tally};
use super::orders::Admitted;
use super::{boards, compare, orders};
use rules::{Board, Program, Standing};

// Programs 1, 2 and 3 of a board, how many completion orders it has, and the first of them.
#[derive(Clone, Copy)]
struct Known<'a> {
    programs: [Program; 3],
    count: u64,
    first: &'a [u8],
}

// A board that has completion orders.
fn with_orders<'a>(programs: [Program; 3], count: u64, first: &'a [u8]) -> Known<'a> {
    Known {
        programs,
        count,
        first,
    }
}

// A board that has none.
fn stuck<'a>(programs: [Program; 3]) -> Known<'a> {
    Known {
        programs,
        count: 0,
        first: &[],
    }
}

// The board of programs 1, 2 and 3.
fn three(programs: &[Program; 3]) -> Board {
    let mut b = Board::EMPTY;
    for (number, p) in (1..=3).zip(programs) {
        b = boards::placed(b, number, *p);
    }
    b
}

// Whether the brute search finds what is known of a board.
fn is_found(known: &Known, b: &Board) -> bool {
    let admitted = Admitted::of(b);
    orders::all_tried(admitted.places(), known.first).is_some_and(|t| t.orders == known.count
        && (t.first || known.count == 0))
}

// `t` with some boards more. One counts as different unless the searches agree and the brute search finds what is known of it.
fn checked(t: Tally, boards: &[Known]) -> Tally {
    let mut tally = t;
    for known in boards {
        let board = three(&known.programs);
        let outcome = compare::compared(board);
        tally = tally.counted(Outcome {
            agrees: outcome.agrees && is_found(known, &board),
            ..outcome
        });
    }
    tally
}

// No program; and V {1,2,3} with W {2} against V {2,3,4}: as it stands, with 3 given to the second, with 4 given.
fn claims(t: Tally) -> Tally {
    let first = boards::program(7, 0, 2, 0, Standing::Running);
    let none = Program::ABSENT;
    let asking = boards::program(14, 0, 0, 0, Standing::Running);
    let three_given = boards::program(14, 0, 4, 0, Standing::Running);
    let four_given = boards::program(14, 0, 8, 0, Standing::Running);
    let boards = [
        with_orders([none; 3], 1, &[]),
        with_orders([first, asking, none], 1, &[1, 2]),
        stuck([first, three_given, none]),
        with_orders([first, four_given, none], 1, &[1, 2]),
    ];
    checked(t, &boards)
}

// Two readers; a reader and a waiting writer; the lower number held back by the higher; three programs with nothing open.
fn readers(t: Tally) -> Tally {
    let none = Program::ABSENT;
    let reader = boards::program(0, 1, 0, 1, Standing::Running);
    let writer = boards::program(1, 0, 0, 0, Standing::Waiting(1));
    let idle = boards::program(1, 0, 0, 0, Standing::Running);
    let boards = [
        with_orders([reader, reader, none], 2, &[1, 2]),
        with_orders([reader, writer, none], 1, &[1, 2]),
        with_orders([writer, reader, none], 1, &[2, 1]),
        with_orders([idle; 3], 6, &[1, 2, 3]),
    ];
    checked(t, &boards)
}

// Boards of the session: program 2 waits for file 2; with it given; program 3 held at entry; after 1 has left.
fn session(t: Tally) -> Tally {
    let none = Program::ABSENT;
    let stock = boards::program(7, 0, 5, 0, Standing::Running);
    let bills = boards::program(3, 0, 0, 0, Standing::Waiting(2));
    let given = boards::program(3, 0, 2, 0, Standing::Running);
    let closed = boards::program(7, 0, 1, 0, Standing::Running);
    let lists = boards::program(0, 2, 0, 0, Standing::Held);
    let run = boards::program(0, 2, 0, 0, Standing::Running);
    let boards = [
        with_orders([stock, bills, none], 1, &[1, 2]),
        stuck([stock, given, none]),
        with_orders([closed, bills, lists], 1, &[1, 2]),
        with_orders([none, given, run], 1, &[2, 3]),
    ];
    checked(t, &boards)
}

// Two who inquire into file 1; one who does, with a writer or a reader that waits; a writer or a reader, with one who waits to inquire.
fn inquirers(t: Tally) -> Tally {
    let none = Program::ABSENT;
    let idle = boards::program(0, 0, 0, 0, Standing::Running);
    let clerk = boards::inquirer(idle, 1, 1);
    let writer = boards::program(1, 0, 0, 0, Standing::Waiting(1));
    let reader = boards::program(0, 1, 0, 0, Standing::Waiting(1));
    let asking = boards::inquirer(boards::program(0, 0, 0, 0, Standing::Waiting(1)), 1, 0);
    let writing = boards::program(1, 0, 1, 0, Standing::Running);
    let reading = boards::program(0, 1, 0, 1, Standing::Running);
    let boards = [
        with_orders([clerk, clerk, none], 2, &[1, 2]),
        with_orders([clerk, writer, none], 1, &[1, 2]),
        with_orders([reader, clerk, none], 1, &[2, 1]),
        with_orders([asking, writing, none], 1, &[2, 1]),
        with_orders([asking, reading, none], 1, &[2, 1]),
    ];
    checked(t, &boards)
}

// One inquires into file 1 and may into file 2, another reads file 2: it may write file 1, and there is no order; it may inquire into it.
fn crossed(t: Tally) -> Tally {
    let none = Program::ABSENT;
    let idle = boards::program(0, 0, 0, 0, Standing::Running);
    let clerk = boards::inquirer(idle, 3, 1);
    let writer = boards::program(1, 2, 0, 2, Standing::Running);
    let lists = boards::program(0, 2, 0, 2, Standing::Running);
    let looks = boards::inquirer(lists, 1, 0);
    let boards = [
        stuck([clerk, writer, none]),
        with_orders([clerk, looks, none], 1, &[2, 1]),
    ];
    checked(t, &boards)
}

// Program 1 has record 17 of file 1 in use and 2 waits for it: no record holds back anybody. Program 3 waits to write the file.
fn records(t: Tally) -> Tally {
    let none = Program::ABSENT;
    let idle = boards::program(0, 0, 0, 0, Standing::Running);
    let user = boards::with_record(boards::inquirer(idle, 1, 1), 1, 17);
    let still = boards::program(0, 0, 0, 0, Standing::Waiting(1));
    let waiter = boards::with_record(boards::inquirer(still, 1, 1), 1, 17);
    let writer = boards::program(1, 0, 0, 0, Standing::Waiting(1));
    let boards = [
        with_orders([user, waiter, none], 2, &[1, 2]),
        with_orders([user, waiter, writer], 2, &[1, 2, 3]),
    ];
    checked(t, &boards)
}

pub fn known_answers() -> Tally {
    let a = claims(Tally::default());
    let b = readers(a);
    let c = session(b);
    let d = inquirers(c);
    let e = crossed(d);
    records(e)
}
