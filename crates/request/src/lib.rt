#![tactic(auto)]

// Request lines: what a line says, and its label.
ghost use Rattle.std.specs.Prelude.{◌≡◌, ◌+◌, ◌*◌, ◌≤◌, ◌<◌, length, get_or, drop, IfSome};
ghost use Rattle.laws.specs.Lists.{all};
ghost use Rattle.rules.specs.declared.Verb.{Verb};
ghost use Rattle.columns.specs.Columns.{file_width};
ghost use Rattle.request.specs.Verbs.{row_of, verb_numbered, verb_columns, shape_of, alone_length, files_at, entry_length};
ghost use Rattle.request.specs.Groups.{no_group, joined, group_from};
ghost use Rattle.request.specs.Requests.{asking, begins, program_field, file_in, count_in, record_in, label_byte, entry_files, entry_counts, entry_line, file_line};
ghost use Rattle.request.specs.Requests.{record_line};
ghost use Rattle.request.specs.Requests.{alone_line, read_as, verb_of, begun, request_of, has_label, label_of};

use files::FileSet;
use rules::{Asked, Claims, Refusal, Verb};

// How many columns stand before each field, as `Verbs` has them.
const PROGRAM_AT: usize = columns::WORD_WIDTH;

pub const ALONE_LEN: usize = PROGRAM_AT + columns::PROGRAM_WIDTH;

pub const FILE_LEN: usize = ALONE_LEN + columns::FILE_WIDTH;

pub const RECORD_LEN: usize = FILE_LEN + columns::RECORD_WIDTH;

pub const LABEL_LEN: usize = 8;

const W_AT: usize = ALONE_LEN + LABEL_LEN;

const R_AT: usize = W_AT + columns::FILE_WIDTH;

const J_AT: usize = R_AT + columns::FILE_WIDTH;

pub const FILES_AT: usize = J_AT + columns::FILE_WIDTH;

// The longest line in form, and what a longer one is cut to.
pub const LONGEST_LINE: usize = FILES_AT + columns::FILE_WIDTH * 192;

pub const CUT_LINE: usize = LONGEST_LINE + 1;

// How a line goes on after its verb: as ENTER, with program and file, with program, file and record, or with the program alone.
#[derive(Clone, Copy)]
pub enum Shape {
    Entry,
    File,
    Record,
    Alone,
}

// A row of the table of verbs: the columns of the verb, and how a line with it goes on.
#[derive(Clone, Copy)]
pub struct Row {
    pub word: [u8; 6],
    pub shape: Shape,
}

// The files of a group as far as they are read: whether they rise, the last one, 0 before the first, and the set. A flag beside the set,
// since a later field that is no file's number is refused before a fall (`group_from`); 0 and no Option, since every file is above it.
#[derive(Clone, Copy)]
pub struct Group {
    pub rising: bool,
    pub last: u16,
    pub files: FileSet,
}

// ---- verbs

// The table of verbs.
fn row_of(v: Verb) -> Row
    ensures { result ≡ row_of v }
{
    match v {
        Verb::Enter => Row {
            word: *b"ENTER ",
            shape: Shape::Entry,
        },
        Verb::Open => Row {
            word: *b"OPEN  ",
            shape: Shape::File,
        },
        Verb::Close => Row {
            word: *b"CLOSE ",
            shape: Shape::File,
        },
        Verb::Drop => Row {
            word: *b"DROP  ",
            shape: Shape::File,
        },
        Verb::Leave => Row {
            word: *b"LEAVE ",
            shape: Shape::Alone,
        },
        Verb::Cancel => Row {
            word: *b"CANCEL",
            shape: Shape::Alone,
        },
        Verb::Fetch => Row {
            word: *b"FETCH ",
            shape: Shape::Record,
        },
        Verb::Return => Row {
            word: *b"RETURN",
            shape: Shape::Alone,
        },
    }
}

// The columns of a verb.
pub fn verb_bytes(v: Verb) -> [u8; 6]
    ensures { result ≡ verb_columns v }
{
    row_of(v).word
}

// How a line with the verb goes on.
pub fn shape_of(v: Verb) -> Shape
    ensures { result ≡ shape_of v }
{
    row_of(v).shape
}

// The verbs in the order of the papers.
const VERBS: [Verb; 8] = [
    Verb::Enter,
    Verb::Open,
    Verb::Close,
    Verb::Drop,
    Verb::Leave,
    Verb::Cancel,
    Verb::Fetch,
    Verb::Return,
];

// The verb with a number: 1 for the first, 8 for the last.
pub fn verb_numbered(n: u64) -> Option<Verb>
    ensures { result ≡ verb_numbered n }
{
    VERBS.get(n.checked_sub(1)? as usize).copied()
}

// Whether columns 1 to 6 are those of the verb.
fn is_verb(line: &[u8], v: Verb) -> bool
    ensures { result ≡ begins v line.now }
{
    line.starts_with(&verb_bytes(v))
}

// The verb that a line begins with, if any.
fn verb_of(line: &[u8]) -> Option<Verb>
    ensures { result ≡ begun (verb_of line.now) }
{
    VERBS.iter().find(|v| is_verb(line, **v)).copied()
}

// ---- fields

// The program's number, from the part that begins at its column.
#[tactic(auto, unfolding(crate::specs::Requests::program_field))]
fn read_program(line: &[u8]) -> Option<u64>
    requires { alone_length ≤ length line.now }
    ensures { result ≡ program_field line.now }
{
    columns::read_number(&line[PROGRAM_AT..ALONE_LEN], columns::PROGRAM_WIDTH, 1, 32)
}

// A file's number, from its part of the line.
fn read_file_number(part: &[u8]) -> Option<u64>
    ensures value { result ≡ file_in part.now }
    ensures within { IfSome result (λ n. n ≤ 64) }
{
    columns::read_number(part, columns::FILE_WIDTH, 1, 64)
}

// A record's number, from its part of the line.
fn read_item(part: &[u8]) -> Option<u64>
    ensures { result ≡ record_in part.now }
{
    columns::read_number(part, columns::RECORD_WIDTH, 1, 65535)
}

// A count of files, from its part of the line.
fn read_count(part: &[u8]) -> Option<usize>
    ensures value { result ≡ count_in part.now }
    ensures within { IfSome result (λ n. n ≤ 64) }
{
    let n = columns::read_number(part, columns::FILE_WIDTH, 0, 64)?;
    Some(n as usize)
}

// Whether every byte of a part is a label byte.
pub fn is_label(part: &[u8]) -> bool
    ensures { result ≡ all label_byte part.now }
{
    part.iter().all(|b| matches!(b, b' '..=b'~'))
}

// The group with the file of one field more, if that is the number of a file.
fn join(g: Group, part: &[u8]) -> Option<Group>
    ensures { result ≡ joined g (file_in part.now) }
{
    let f = read_file_number(part)? as u16;
    Some(Group {
        rising: g.last < f && g.rising,
        last: f,
        files: g.files.with(f),
    })
}

// The group of the count fields that begin after the first start columns, if all are numbers of files.
fn read_group(line: &[u8], start: usize, count: usize) -> Option<Group>
    requires { start + file_width * count ≤ length line.now }
    ensures { result ≡ group_from count (drop start line.now) no_group }
{
    let mut g = Group {
        rising: true,
        last: 0,
        files: FileSet::EMPTY,
    };
    // Each field is read as the part of the line that begins at its column.
    for i in 0..count {
        let a = start + columns::FILE_WIDTH * i;
        g = join(g, &line[a..a + columns::FILE_WIDTH])?;
    }
    Some(g)
}

// ---- lines, by the shape of the verb

// The call with these numbers and claims; what does not apply is 0 or empty.
fn asking(verb: Verb, program: u64, file: u64, item: u64, claims: Claims) -> Asked
    ensures { result ≡ asking verb program file item claims }
{
    Asked {
        verb,
        program,
        file,
        item,
        claims,
    }
}

// ENTER, after columns 7 to 26 and the length.
#[tactic(auto, using(crate::proofs::Laws::enter_by_lem))]
fn read_files(
    line: &[u8],
    verb: Verb,
    program: u64,
    w: usize,
    r: usize,
    j: usize,
) -> Result<Asked, Refusal>
    requires { length line.now ≡ entry_length (w + r + j) }
    ensures { result ≡ entry_files verb line.now program w r j }
{
    let v = read_group(line, FILES_AT, w).ok_or(Refusal::BadNumber)?;
    let qs_at = FILES_AT + columns::FILE_WIDTH * w;
    let q = read_group(line, qs_at, r).ok_or(Refusal::BadNumber)?;
    let js_at = FILES_AT + columns::FILE_WIDTH * (w + r);
    let i = read_group(line, js_at, j).ok_or(Refusal::BadNumber)?;
    if !(v.rising && q.rising && i.rising) {
        return Err(Refusal::NotRising);
    }
    let claims = Claims {
        writable: v.files,
        readable: q.files,
        inquirable: i.files,
    };
    Ok(asking(verb, program, 0, 0, claims))
}

// ENTER, after the label: the counts, then the length.
#[tactic(auto, unfolding(crate::specs::Requests::entry_counts, crate::specs::Requests::w_field, crate::specs::Requests::r_field, crate::specs::Requests::j_field))]
fn read_counts(line: &[u8], verb: Verb, program: u64) -> Result<Asked, Refusal>
    requires { files_at ≤ length line.now }
    ensures { result ≡ entry_counts verb line.now program }
{
    let w = read_count(&line[W_AT..R_AT]).ok_or(Refusal::BadNumber)?;
    let r = read_count(&line[R_AT..J_AT]).ok_or(Refusal::BadNumber)?;
    let j = read_count(&line[J_AT..FILES_AT]).ok_or(Refusal::BadNumber)?;
    if line.len() != FILES_AT + columns::FILE_WIDTH * (w + r + j) {
        return Err(Refusal::BadLength);
    }
    read_files(line, verb, program, w, r, j)
}

// ENTER, from left to right.
#[tactic(auto, unfolding(crate::specs::Requests::entry_line, crate::specs::Requests::label_part))]
fn read_entry(line: &[u8], verb: Verb) -> Result<Asked, Refusal>
    ensures { result ≡ entry_line verb line.now }
{
    if line.len() < FILES_AT {
        return Err(Refusal::BadLength);
    }
    let p = read_program(line).ok_or(Refusal::BadNumber)?;
    if !is_label(&line[ALONE_LEN..W_AT]) {
        return Err(Refusal::BadLabel);
    }
    read_counts(line, verb, p)
}

// OPEN, CLOSE and DROP: program and file.
#[tactic(auto, unfolding(crate::specs::Requests::file_line, crate::specs::Requests::file_field))]
fn read_file(line: &[u8], verb: Verb) -> Result<Asked, Refusal>
    ensures { result ≡ file_line verb line.now }
{
    if line.len() != FILE_LEN {
        return Err(Refusal::BadLength);
    }
    let p = read_program(line).ok_or(Refusal::BadNumber)?;
    let f = read_file_number(&line[ALONE_LEN..FILE_LEN]).ok_or(Refusal::BadNumber)?;
    Ok(asking(verb, p, f, 0, Claims::NONE))
}

// FETCH: program, file and record.
#[tactic(auto, unfolding(crate::specs::Requests::record_line, crate::specs::Requests::file_field, crate::specs::Requests::record_field))]
fn read_record(line: &[u8], verb: Verb) -> Result<Asked, Refusal>
    ensures { result ≡ record_line verb line.now }
{
    if line.len() != RECORD_LEN {
        return Err(Refusal::BadLength);
    }
    let p = read_program(line).ok_or(Refusal::BadNumber)?;
    let f = read_file_number(&line[ALONE_LEN..FILE_LEN]).ok_or(Refusal::BadNumber)?;
    let n = read_item(&line[FILE_LEN..RECORD_LEN]).ok_or(Refusal::BadNumber)?;
    Ok(asking(verb, p, f, n, Claims::NONE))
}

// LEAVE, CANCEL and RETURN: the program alone.
#[tactic(auto, unfolding(crate::specs::Requests::alone_line))]
fn read_alone(line: &[u8], verb: Verb) -> Result<Asked, Refusal>
    ensures { result ≡ alone_line verb line.now }
{
    if line.len() != ALONE_LEN {
        return Err(Refusal::BadLength);
    }
    let p = read_program(line).ok_or(Refusal::BadNumber)?;
    Ok(asking(verb, p, 0, 0, Claims::NONE))
}

// What a line says that begins with the verb.
fn read_as(line: &[u8], verb: Verb) -> Result<Asked, Refusal>
    ensures { result ≡ read_as (shape_of verb) verb line.now }
{
    match shape_of(verb) {
        Shape::Entry => read_entry(line, verb),
        Shape::File => read_file(line, verb),
        Shape::Record => read_record(line, verb),
        Shape::Alone => read_alone(line, verb),
    }
}

// The call that a line asks for, or the first of refusals 3 to 7 that applies.
#[tactic(auto, unfolding(crate::specs::Requests::request_of))]
pub fn read(line: &[u8]) -> Result<Asked, Refusal>
    ensures { result ≡ request_of line.now }
{
    let verb = verb_of(line).ok_or(Refusal::NoVerb)?;
    read_as(line, verb)
}

// ---- the label

// Whether a line of this shape has a label.
fn has_label(shape: Shape) -> bool
    ensures { result ≡ has_label shape }
{
    matches!(shape, Shape::Entry)
}

// The label of a taken ENTER line, a part of the caller's line; empty for any other line.
#[tactic(auto, using(crate::proofs::Laws::entry_long), unfolding(crate::specs::Requests::label_of, crate::specs::Requests::label_part))]
pub fn label(line: &[u8]) -> &[u8]
    ensures { result.now ≡ label_of line.now }
{
    match read(line) {
        Ok(a) if has_label(shape_of(a.verb)) => &line[ALONE_LEN..W_AT],
        _ => &line[0..0],
    }
}
