// What a record asks, and how it is done.
ghost use Rattle.std.specs.Prelude.{◌≤◌, length, IfOk};

use crate::lent::Lent;
use crate::{answers, lent};
use direct::Answered;
use files::FileSet;
use rules::{Board, Claims};
use std::io;
use std::io::Read;

// The most bytes of a text that follows a record.
const LONGEST_TEXT: usize = 4096;

// A record: its kind and its six numbers.
#[derive(Clone, Copy)]
pub struct Record {
    pub kind: u8,
    pub program: u64,
    pub file: u64,
    pub item: u64,
    pub writable: u64,
    pub readable: u64,
    pub inquirable: u64,
}

// The number of some bytes, lowest first.
fn number(part: &[u8]) -> u64 {
    part.iter()
        .rev()
        .fold(0, |n, byte| (n << 8) | u64::from(*byte))
}

// The record of 49 bytes; none of fewer.
fn parse(bytes: &[u8]) -> Option<Record> {
    let (kind, rest) = bytes.split_first()?;
    let mut numbers = rest.chunks_exact(8);
    Some(Record {
        kind: *kind,
        program: number(numbers.next()?),
        file: number(numbers.next()?),
        item: number(numbers.next()?),
        writable: number(numbers.next()?),
        readable: number(numbers.next()?),
        inquirable: number(numbers.next()?),
    })
}

// The direct call enter of a record.
fn enter(b: Board, r: Record) -> Answered {
    let writable = FileSet { bits: r.writable };
    let readable = FileSet { bits: r.readable };
    let inquirable = FileSet { bits: r.inquirable };
    let claims = Claims {
        writable,
        readable,
        inquirable,
    };
    direct::enter(b, r.program, claims)
}

// The direct call of a record; any kind but the seven others is leave.
fn call(b: Board, r: Record) -> Answered {
    match r.kind {
        b'E' => enter(b, r),
        b'O' => direct::open(b, r.program, r.file),
        b'C' => direct::close(b, r.program, r.file),
        b'D' => direct::drop(b, r.program, r.file),
        b'X' => direct::cancel(b, r.program),
        b'F' => direct::fetch(b, r.program, r.file, r.item),
        b'R' => direct::return_item(b, r.program),
        _ => direct::leave(b, r.program),
    }
}

// Reads until all of a buffer is filled or the input ends, and says how many bytes there were. Into a buffer that is lent: no heap.
fn read_full(rt: &impl Input, bytes: &mut [u8]) -> io::Result<usize>
    ensures { IfOk result (λ n. n ≤ length bytes.new) }
{
    let mut input = rt.reader();
    let mut done: usize = 0;
    // No `for`: each turn reads as many bytes as are there.
    while done < bytes.len() {
        let n = input.read(&mut bytes[done..])?;
        if n == 0 {
            break;
        }
        done += n;
    }
    Ok(done)
}

// Reads the text that follows a record: as many bytes as are asked for and have room, and says how many there were.
fn read_text(rt: &impl Input, text: &mut [u8], asked: u64) -> io::Result<usize> {
    let n = at_most(asked, text.len());
    read_full(rt, &mut text[..n])
}

// The first n bytes of a text.
fn front(text: &[u8], n: usize) -> &[u8] {
    &text[..n.min(text.len())]
}

// A number, but at most so much.
fn at_most(asked: u64, most: usize) -> usize
    ensures { result ≤ most }
{
    usize::try_from(asked).unwrap_or(usize::MAX).min(most)
}

// The next record, if it is whole.
pub fn next(rt: &impl Input) -> io::Result<Option<Record>> {
    let mut bytes = [0u8; 49];
    let n = read_full(rt, &mut bytes)?;
    Ok(parse(front(&bytes, n)))
}

// The board of the image that follows.
fn load(rt: &(impl Input + Print), asked: u64) -> io::Result<Board> {
    let mut text = [0u8; LONGEST_TEXT];
    let n = read_text(rt, &mut text, asked)?;
    let loaded = image::load(front(&text, n));
    let board = image::board_or_empty(loaded);
    answers::load(rt, loaded.is_some(), board)?;
    Ok(board)
}

// The label of the line that follows.
fn label(rt: &(impl Input + Print), asked: u64) -> io::Result<()> {
    let mut text = [0u8; LONGEST_TEXT];
    let n = read_text(rt, &mut text, asked)?;
    answers::label(rt, request::label(front(&text, n)))
}

// The matrix of the board.
fn matrix(rt: &impl Print, b: Board) -> io::Result<()> {
    let mut rows = [0u32; 32];
    digraph::fill_matrix(b, &mut rows);
    answers::matrix(rt, rows)
}

// Whether the list that follows is a loop with the file given to the program.
fn check(rt: &(impl Input + Print), b: Board, r: Record) -> io::Result<()> {
    let mut text = [0u8; LONGEST_TEXT];
    let n = read_text(rt, &mut text, r.item)?;
    let is_loop = digraph::loops::is_loop_with(b, r.program, r.file, front(&text, n));
    answers::truth(rt, is_loop)
}

// The line call in place, with as much of a journal as is asked for.
fn post(b: Board, line: &[u8], journal: &mut [u8], asked: u64, place: u64) -> Lent {
    let n = at_most(asked, journal.len());
    lent::line_call(b, line, &mut journal[..n], place)
}

// The line call in place, with the line that follows and a journal whose bytes are all 170.
fn in_place(rt: &(impl Input + Print), b: Board, r: Record) -> io::Result<Board> {
    let mut text = [0u8; LONGEST_TEXT];
    let n = read_text(rt, &mut text, r.program)?;
    let mut journal = [170u8; 1024];
    let lent = post(b, front(&text, n), &mut journal, r.file, r.item);
    let board = lent.board;
    answers::post(rt, lent.posted, &journal)?;
    answers::write_image(rt, board)?;
    Ok(board)
}

// Does what a record asks, and gives the board after it.
pub fn take(rt: &(impl Input + Print), b: Board, r: Record) -> io::Result<Board> {
    match r.kind {
        b'i' => return load(rt, r.program),
        b'p' => return in_place(rt, b, r),
        b'l' => label(rt, r.program)?,
        b'm' => matrix(rt, b)?,
        b'k' => check(rt, b, r)?,
        _ => {
            let answered = call(b, r);
            answers::call(rt, answered.reply, answered.carries)?;
            return Ok(answered.reply.board);
        }
    }
    Ok(b)
}
