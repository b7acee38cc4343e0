// The matrix of an image's board and its loops, for a C host.
ghost use Rattle.std.specs.Prelude.{◌≡◌, true, ◌++◌, ◌≤◌, length, drop};
ghost use Rattle.rules.specs.Soundness.{sound};
ghost use Rattle.columns.specs.Rows.{flat};
ghost use Rattle.image.specs.Image.{bytes_n};
ghost use Rattle.host.specs.Digraph.{reach_answer, reach_rows, LoopPlaced, LoopReply, is_loop_answer};

use crate::{put_order, read_image, refusal_answer};
use rules::Board;

// Writes the rows' bytes from the buffer's start; the rest keeps its contents.
pub fn put_rows(out: &mut [u8], rows: [u32; 32])
    requires { 128 ≤ length out.old }
    ensures { out.new ≡ flat (bytes_n 4) rows ++ drop 128 out.old }
{
    for (i, row) in rows.iter().enumerate() {
        image::put_at(out, 4 * i, &row.to_le_bytes());
    }
}

// The matrix of the image's board, for a C host: for each program 1 to 32 four bytes, lowest first, bit i - 1 if i reaches it.
// Answers 128; the bytes after them keep their contents. Refusals 1 and 17 write nothing.
pub fn lock_board_reach(image: &[u8], rows: &mut [u8]) -> u64
    ensures value { result ≡ reach_answer image.now rows.old }
    ensures rows_after { rows.new ≡ reach_rows image.now rows.old }
{
    let Some(b) = read_image(image) else {
        return refusal_answer(1);
    };
    if rows.len() < 128 {
        return refusal_answer(17);
    }
    let mut matrix = [0u32; 32];
    digraph::fill_matrix(b, &mut matrix);
    put_rows(rows, matrix);
    128
}

// Writes a loop with the file given that p waits for from the list's start, and answers how many programs it has; 0 if p doesn't wait for a file.
fn put_loop(b: Board, p: u8, list: &mut [u8]) -> u64
    requires { ((1 ≤ p) × (p ≤ 32)) × (sound b ≡ true) × (32 ≤ length list.old) }
    ensures { LoopPlaced b p list.old result list.new }
{
    let found = digraph::loops::find_for(b, p);
    put_order(found.at, found.count, list)
}

// A loop for a program that waits, with the file given that it waits for, for a C host: its program numbers from the list's start,
// and how many they are; 0 for a program that doesn't wait, or waits for a record. The bytes after them keep their contents. Refusals 1, 8 and 17 write nothing.
pub fn lock_board_loop(image: &[u8], program: u64, list: &mut [u8]) -> u64
    ensures { LoopReply image.now program list.old result list.new }
{
    let Some(b) = read_image(image) else {
        return refusal_answer(1);
    };
    if program == 0 {
        return refusal_answer(8);
    }
    if 32 < program {
        return refusal_answer(8);
    }
    if list.len() < 32 {
        return refusal_answer(17);
    }
    put_loop(b, program as u8, list)
}

// The checker, for a C host: 1 if the list is a loop of the image's board with the file given to the program, otherwise 0.
// An image that isn't read: refusal 1.
pub fn lock_board_is_loop(image: &[u8], program: u64, file: u64, list: &[u8]) -> u64
    ensures { result ≡ is_loop_answer image.now program file list.now }
{
    let Some(b) = read_image(image) else {
        return refusal_answer(1);
    };
    if digraph::loops::is_loop_with(b, program, file, list) {
        return 1;
    }
    0
}
