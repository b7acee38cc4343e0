// No claims, an absent program, and the empty board.
use crate::{Board, Claims, Program, Standing};
use files::FileSet;

impl Claims {
    // No claims.
    pub const NONE: Claims = Claims {
        writable: FileSet::EMPTY,
        readable: FileSet::EMPTY,
        inquirable: FileSet::EMPTY,
    };
}

impl Program {
    // An absent program, with empty sets.
    pub const ABSENT: Program = Program {
        writable: FileSet::EMPTY,
        readable: FileSet::EMPTY,
        inquirable: FileSet::EMPTY,
        writing: FileSet::EMPTY,
        reading: FileSet::EMPTY,
        inquiring: FileSet::EMPTY,
        standing: Standing::Absent,
        file: 0,
        item: 0,
    };
}

impl Board {
    // The empty board.
    pub const EMPTY: Board = Board {
        programs: [Program::ABSENT; 32],
        waiting: [0; 32],
        entry: [0; 32],
        favoured: 0,
        initial: 0,
        leaves: 0,
        passed: [0; 32],
    };
}
