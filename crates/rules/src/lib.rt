#![tactic(auto)]

// The types of the lock board. The rules themselves stand in specs/; there is no function here.
use files::FileSet;

mod boards;

// A program's standing: absent, held at entry, running or waiting; waiting carries its file.
#[derive(Clone, Copy)]
pub enum Standing {
    Absent,
    Running,
    Waiting(u16),
    Held,
}

// V, Q and J, the claims for writing, reading and inquiry; W, R and I, the files open in these ways.
// item is a record's number and file its file: the record in use if the program runs, the awaited one if it waits; 0 for none.
// 0 and no Option: `item_sound`, `wants` and the theorems above them compute with these numbers.
#[derive(Clone, Copy)]
pub struct Program {
    pub writable: FileSet,
    pub readable: FileSet,
    pub inquirable: FileSet,
    pub writing: FileSet,
    pub reading: FileSet,
    pub inquiring: FileSet,
    pub standing: Standing,
    pub file: u16,
    pub item: u16,
}

// Program p stands at index p - 1. The waiting line and the entry line are oldest first, and then 0.
// favoured is the favoured program or 0, initial the number admitted when it was favoured, leaves the accepted leaves since,
// with the cancels that count as leaves.
// passed has for each waiting program the number of programs admitted since it began to wait, and 0 for all others.
// 0 and no Option: `favour_sound`, `names` and the theorems above them compute with these numbers.
#[derive(Clone, Copy)]
pub struct Board {
    pub programs: [Program; 32],
    pub waiting: [u8; 32],
    pub entry: [u8; 32],
    pub favoured: u8,
    pub initial: u8,
    pub leaves: u8,
    pub passed: [u8; 32],
}

// The eight calls.
#[derive(Clone, Copy)]
pub enum Verb {
    Enter,
    Open,
    Close,
    Drop,
    Leave,
    Cancel,
    Fetch,
    Return,
}

// How a file is opened: "in V is for writing, in Q for reading", in J for inquiry.
#[derive(Clone, Copy, PartialEq, Eq, Debug)]
pub enum Mode {
    Write,
    Read,
    Inquiry,
}

// What a program claims: V for writing, Q for reading and J for inquiry.
#[derive(Clone, Copy)]
pub struct Claims {
    pub writable: FileSet,
    pub readable: FileSet,
    pub inquirable: FileSet,
}

// What a call asks. The file counts for open, close, drop and fetch only, the record for fetch only, the claims for enter only.
#[derive(Clone, Copy)]
pub struct Asked {
    pub verb: Verb,
    pub program: u64,
    pub file: u64,
    pub item: u64,
    pub claims: Claims,
}

// Why a call is refused, in the order of their numbers: 01's 1 to 16, 18 for a cancel of a running program, and 19 to 21 for records.
#[derive(Clone, Copy)]
pub enum Refusal {
    NotSound,
    JournalFull,
    NoVerb,
    BadLength,
    BadNumber,
    BadLabel,
    NotRising,
    OutOfRange,
    NotAbsent,
    ClaimsMeet,
    IsAbsent,
    IsHeld,
    IsWaiting,
    NotClaimed,
    IsOpen,
    NotOpen,
    IsRunning,
    BadRecord,
    NoRecord,
    HasRecord,
}

// What a call answers.
#[derive(Clone, Copy)]
pub enum Answer {
    Admit,
    Held,
    Given,
    Wait,
    Unsafe,
    Done,
    Refuse(Refusal),
}

// The word of a journal line.
#[derive(Clone, Copy)]
pub enum Word {
    Admit,
    Held,
    Given,
    Wait,
    Unsafe,
    Done,
    Favour,
    Refuse,
}

// A journal line; 0 where there is no file, no refusal or no record, and no Option: `line_of`, `lines_for` and `line_bytes` compute with
// these numbers.
#[derive(Clone, Copy)]
pub struct Line {
    pub word: Word,
    pub program: u16,
    pub file: u16,
    pub refusal: u16,
    pub item: u16,
}

// What a direct call gives back: the board after it, the answer, its lines (the first `count` of 32 places)
// and the carried order (the first `placed` of 32 places). Arrays with a count: nothing here allocates.
#[derive(Clone, Copy)]
pub struct Reply {
    pub board: Board,
    pub answer: Answer,
    pub lines: [Line; 32],
    pub count: u8,
    pub order: [u8; 32],
    pub placed: u8,
}
