// Replays a set as the program `board` runs it: through the line call, from the empty board.
use crate::text;
use crate::text::Compared;
use arrayvec::ArrayString;
use rules::Board;
use std::fmt;
use std::fmt::Write;

// The bytes of an ORDER line with 32 programs.
const MOST_ORDER: usize = 103;

// What a replay found: the number of lines, the first that differs, and whether the ORDER line is right.
#[derive(Clone, Copy)]
pub struct Replayed {
    pub lines: u64,
    pub bad: Option<u64>,
    pub order: bool,
}

// The ORDER line of an order: three columns for each program before the first 0.
fn order_line(order: [u8; 32]) -> Result<ArrayString<MOST_ORDER>, fmt::Error> {
    let mut line = ArrayString::new();
    line.write_str("ORDER ")?;
    for program in order.iter().take_while(|p| **p != 0) {
        write!(line, "{program:>3}")?;
    }
    line.write_char('\n')?;
    Ok(line)
}

// Replays an input and holds it to the expected output: the journal lines of each line, and last the ORDER line.
pub fn replay(input: &[u8], expected: &[u8]) -> Result<Replayed, fmt::Error> {
    let mut board = Board::EMPTY;
    let mut order = [0u8; 32];
    let mut compared = Compared::with(expected);
    for line in input.split_inclusive(text::ends_line) {
        let mut journal = [0u8; journal::JOURNAL_ROOM];
        let posted = linecall::line_call(board, text::cut(line), &mut journal, 0);
        board = posted.reply.board;
        order = posted.reply.order;
        let lines = journal.get(..posted.place as usize);
        compared = compared.gave(lines.unwrap_or(&journal));
    }
    Ok(Replayed {
        lines: compared.lines,
        bad: compared.bad,
        order: compared.rest == order_line(order)?.as_bytes(),
    })
}
