#![tactic(auto)]

// The program `asked`: what no host can ask, for the tests. It reads records from standard input and answers each on standard output.
//
// A record has 49 bytes: its kind, then six numbers of 8 bytes each, lowest first: program, file, record of the file, V, Q and J.
// E, O, C, D, L, X, F, R: the direct call enter, open, close, drop, leave, cancel, fetch or return with these numbers, on the program's
// board, which starts empty.
// i, l, p: as many bytes follow as the first number says, at most 4,096. i: an image, from which the board is read. l: a line, whose label is asked.
// p: a line for the line call that changes the program's board in place. The second number is how much of a journal of 1,024 bytes, each of them
// 170, is handed over, the third is the place in it.
// m: the matrix of the program's board, sound or not, is asked.
// k: as many bytes follow as the third number says, at most 4,096: a list, of which is asked whether it is a loop with the file given to the program.
//
// A call is answered with 2,120 bytes: the refusal's number or 0, the answer's word, the count of lines, that of programs in the order,
// 32 lines of 7 bytes (word, program, file in two bytes, refusal, record in two bytes; the low byte first), the 32 places of the order, the
// count of programs in the loop that it carries and the 32 places of that, the reply's board as its image. A word is its first letter.
// i is answered with 1 if the image is of its layout, 0 if not, and the board's image; l with the label's length and bytes; p as a call is, then
// the new place in decimal and byte 10, the journal, and the image of the board that was lent; m with 128 bytes, a row of four for each program,
// the lowest first; k with 1 or 0.
mod answers;
mod lent;
mod records;

use rules::Board;
use std::io;

// A record that is not whole ends the program.
fn main(rt: HostRuntime) -> io::Result<()> {
    let mut board = Board::EMPTY;
    for _ in 0..u64::MAX {
        let Some(record) = records::next(&rt)? else {
            break;
        };
        board = records::take(&rt, board, record)?;
    }
    Ok(())
}
