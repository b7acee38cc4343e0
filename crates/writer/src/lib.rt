#![tactic(auto)]

// Request lines, written: from a call's numbers, claims and label to the line in a lent buffer.
ghost use Rattle.std.specs.Prelude.{◌≡◌, [], ◌++◌, ◌+◌, ◌*◌, ◌≤◌, length};
ghost use Rattle.columns.specs.Columns.{program_width, file_width, columns_of};
ghost use Rattle.columns.specs.Rows.{put_at};
ghost use Rattle.files.specs.Bits.{is_number};
ghost use Rattle.files.specs.Sets.{member};
ghost use Rattle.rules.specs.Calls.{call_of};
ghost use Rattle.request.specs.declared.Shape.{Shape};
ghost use Rattle.request.specs.Verbs.{verb_columns, alone_length, label_width, files_at};
ghost use Rattle.request.specs.Requests.{files_of, files_columns, line_as};
ghost use Rattle.writer.specs.Writer.{unwritten_number, placing, placed_in, writing_of, buffer_after};
ghost use Rattle.writer.specs.Rows.{count_if, columns_if, entry_columns, claims_count, claims_columns, entry_writing, entry_filled};
ghost use Rattle.writer.specs.Rows.{file_writing, file_filled, record_writing, record_filled};

use files::FileSet;
use request::Shape;
use rules::{Asked, Claims, Verb};

// Why no line is written.
#[derive(Clone, Copy)]
pub enum Unwritten {
    OutOfRange,
    BadRecord,
    BadLabel,
    BufferShort,
}

impl Unwritten {
    // The number of the refusal: 01's 8 and 6, 17, and 19 for a record out of range.
    pub fn number(self) -> u8
        ensures { result ≡ unwritten_number self }
    {
        match self {
            Unwritten::OutOfRange => 8,
            Unwritten::BadRecord => 19,
            Unwritten::BadLabel => 6,
            Unwritten::BufferShort => 17,
        }
    }
}

// ---- rows of bytes

// Writes a row from the place on, and gives the place after it; all other bytes keep their contents.
fn put(line: &mut [u8], at: usize, row: &[u8]) -> usize
    requires { at + length row.now ≤ length line.old }
    ensures value { result ≡ at + length row.now }
    ensures line_after { line.new ≡ put_at at row.now line.old }
{
    let end = at + row.len();
    line[at..end].copy_from_slice(row);
    end
}

// Writes a number in so many columns.
fn put_number(line: &mut [u8], at: usize, width: usize, n: u64) -> usize
    requires { (1 ≤ width) × (at + width ≤ length line.old) }
    ensures value { result ≡ at + width }
    ensures line_after { line.new ≡ put_at at (columns_of width n) line.old }
{
    let end = at + width;
    columns::put_number(&mut line[at..end], n);
    end
}

// Writes the columns of f if it is in the set.
fn put_file(line: &mut [u8], at: usize, s: FileSet, f: u16) -> usize
    requires { at + length (columns_if (member s f) f) ≤ length line.old }
    ensures value { result ≡ at + length (columns_if (member s f) f) }
    ensures line_after { line.new ≡ put_at at (columns_if (member s f) f) line.old }
{
    if s.has(f) {
        return put_number(line, at, columns::FILE_WIDTH, f as u64);
    }
    at
}

// Writes the columns of the files of a set, rising.
fn put_files(line: &mut [u8], start: usize, s: FileSet) -> usize
    requires { start + file_width * length (files_of s) ≤ length line.old }
    ensures value { result ≡ start + file_width * length (files_of s) }
    ensures line_after { line.new ≡ put_at start (files_columns (files_of s)) line.old }
{
    let mut at = start;
    for f in 1..=64 {
        at = put_file(line, at, s, f);
    }
    at
}

// Writes the columns of the files of V, of Q and of J.
fn put_claims(line: &mut [u8], start: usize, c: Claims) -> usize
    requires { start + file_width * claims_count c ≤ length line.old }
    ensures value { result ≡ start + file_width * claims_count c }
    ensures line_after { line.new ≡ put_at start (claims_columns c) line.old }
{
    let after_v = put_files(line, start, c.writable);
    let after_q = put_files(line, after_v, c.readable);
    put_files(line, after_q, c.inquirable)
}

// One more if f is in the set.
fn counted(n: u64, s: FileSet, f: u16) -> u64
    requires { n ≤ 64 }
    ensures { result ≡ n + count_if (member s f) }
{
    if s.has(f) {
        return n + 1;
    }
    n
}

// How many files a set has.
fn count(s: FileSet) -> u64
    ensures value { result ≡ length (files_of s) }
    ensures few { result ≤ 64 }
{
    let mut n = 0;
    for f in 1..=64 {
        n = counted(n, s, f);
    }
    n
}

// ---- lines

// Writes the columns of verb and program.
fn put_head(line: &mut [u8], verb: Verb, program: u64) -> usize
    requires { alone_length ≤ length line.old }
    ensures value { result ≡ alone_length }
    ensures line_after { line.new ≡ put_at 0 (verb_columns verb ++ columns_of program_width program) line.old }
{
    let word = request::verb_bytes(verb);
    let at = put(line, 0, &word);
    put_number(line, at, columns::PROGRAM_WIDTH, program)
}

// Writes the columns of an ENTER line before its files: verb, program, label and the three counts.
fn put_entry(
    line: &mut [u8],
    verb: Verb,
    program: u64,
    label: &[u8],
    w: u64,
    r: u64,
    j: u64,
) -> usize
    requires { (files_at ≤ length line.old) × (length label.now ≡ label_width) }
    ensures value { result ≡ files_at }
    ensures line_after { line.new ≡ put_at 0 (entry_columns verb program label.now w r j) line.old }
{
    let after_program = put_head(line, verb, program);
    let after_label = put(line, after_program, label);
    let after_w = put_number(line, after_label, columns::FILE_WIDTH, w);
    let after_r = put_number(line, after_w, columns::FILE_WIDTH, r);
    put_number(line, after_r, columns::FILE_WIDTH, j)
}

// An ENTER line with a good label.
fn write_entry(a: Asked, label: &[u8], line: &mut [u8]) -> Result<usize, Unwritten>
    requires { length label.now ≡ label_width }
    ensures value { result ≡ placing (line_as Shape.Entry a label.now) line.old }
    ensures line_after { line.new ≡ placed_in (line_as Shape.Entry a label.now) line.old }
{
    let claims = a.claims;
    let w = count(claims.writable);
    let r = count(claims.readable);
    let j = count(claims.inquirable);
    let len = request::FILES_AT + columns::FILE_WIDTH * ((w + r + j) as usize);
    if line.len() < len {
        return Err(Unwritten::BufferShort);
    }
    let after_counts = put_entry(line, a.verb, a.program, label, w, r, j);
    Ok(put_claims(line, after_counts, claims))
}

// ENTER: the label, then the buffer.
fn write_enter(a: Asked, label: &[u8], line: &mut [u8]) -> Result<usize, Unwritten>
    ensures value { result ≡ entry_writing a label.now line.old }
    ensures line_after { line.new ≡ entry_filled a label.now line.old }
{
    if label.len() != request::LABEL_LEN {
        return Err(Unwritten::BadLabel);
    }
    if !request::is_label(label) {
        return Err(Unwritten::BadLabel);
    }
    write_entry(a, label, line)
}

// OPEN, CLOSE and DROP: the file, then the buffer.
fn write_file(a: Asked, line: &mut [u8]) -> Result<usize, Unwritten>
    ensures value { result ≡ file_writing a line.old }
    ensures line_after { line.new ≡ file_filled a line.old }
{
    if !is_number(a.file, 64) {
        return Err(Unwritten::OutOfRange);
    }
    if line.len() < request::FILE_LEN {
        return Err(Unwritten::BufferShort);
    }
    let at = put_head(line, a.verb, a.program);
    Ok(put_number(line, at, columns::FILE_WIDTH, a.file))
}

// FETCH: the file, the record, then the buffer.
fn write_record(a: Asked, line: &mut [u8]) -> Result<usize, Unwritten>
    ensures value { result ≡ record_writing a line.old }
    ensures line_after { line.new ≡ record_filled a line.old }
{
    if !is_number(a.file, 64) {
        return Err(Unwritten::OutOfRange);
    }
    if !is_number(a.item, 65535) {
        return Err(Unwritten::BadRecord);
    }
    if line.len() < request::RECORD_LEN {
        return Err(Unwritten::BufferShort);
    }
    let after_program = put_head(line, a.verb, a.program);
    let after_file = put_number(line, after_program, columns::FILE_WIDTH, a.file);
    Ok(put_number(line, after_file, columns::RECORD_WIDTH, a.item))
}

// LEAVE, CANCEL and RETURN: the buffer.
fn write_alone(a: Asked, line: &mut [u8]) -> Result<usize, Unwritten>
    ensures value { result ≡ placing (line_as Shape.Alone a []) line.old }
    ensures line_after { line.new ≡ placed_in (line_as Shape.Alone a []) line.old }
{
    if line.len() < request::ALONE_LEN {
        return Err(Unwritten::BufferShort);
    }
    Ok(put_head(line, a.verb, a.program))
}

// Whether n, any number of a caller's, is one of the numbers 1 to high; `files::numbers::is_number` has a narrower type.
fn is_number(n: u64, high: u64) -> bool
    ensures { result ≡ is_number high n }
{
    1 <= n && n <= high
}

// Writes the line that asks for the call from the buffer's start, without byte 10, and gives its length.
// Refused are a program or file out of range, then FETCH's record out of range, then a bad label of ENTER, then a buffer shorter than the line;
// a refusal writes nothing.
// What the verb does not use is not looked at.
pub fn write(a: Asked, label: &[u8], line: &mut [u8]) -> Result<usize, Unwritten>
    ensures value { result ≡ writing_of (call_of a) label.now line.old }
    ensures line_after { line.new ≡ buffer_after (call_of a) label.now line.old }
{
    if !is_number(a.program, 32) {
        return Err(Unwritten::OutOfRange);
    }
    match request::shape_of(a.verb) {
        Shape::Entry => write_enter(a, label, line),
        Shape::File => write_file(a, line),
        Shape::Record => write_record(a, line),
        Shape::Alone => write_alone(a, line),
    }
}
