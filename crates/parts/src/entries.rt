// A journal line as five numbers, as it stands in the lent array of a call's lines.
ghost use Rattle.std.specs.Prelude.{◌≡◌, length};
ghost use Rattle.parts.specs.Entries.{word_number, word_numbered, entry_of, line_in, IsEntries};

use rules::{Line, Word};

// The numbers of a line: that of its word, program, file, refusal, record.
pub const NUMBERS: usize = 5;

// The lines of a call: at most 32.
pub const LINES: usize = 32;

// Numbers and no Line: the mistakes against `entry_of`, `line_in` and the numbers of words (must-fail/code.edit) hold this form.
pub type Entry = [u16; NUMBERS];

pub type Entries = [Entry; LINES];

// The places, and the numbers in each, are as many as the type says.
pub fn sized(e: &Entries)
    ensures { IsEntries e.now }
{
    for k in 0..LINES {
        let _n = numbers_in(&e[k]);
    }
}

// How many numbers an entry has.
fn numbers_in(entry: &[u16]) -> usize
    ensures { result ≡ length entry.now }
{
    entry.len()
}

// The number of a word.
fn word_number(w: Word) -> u16
    ensures { result ≡ word_number w }
{
    match w {
        Word::Admit => 0,
        Word::Held => 1,
        Word::Given => 2,
        Word::Wait => 3,
        Word::Unsafe => 4,
        Word::Done => 5,
        Word::Favour => 6,
        Word::Refuse => 7,
    }
}

// The word with a number: REFUSE from 7 on.
fn word_numbered(n: u16) -> Word
    ensures { result ≡ word_numbered n }
{
    match n {
        0 => Word::Admit,
        1 => Word::Held,
        2 => Word::Given,
        3 => Word::Wait,
        4 => Word::Unsafe,
        5 => Word::Done,
        6 => Word::Favour,
        _ => Word::Refuse,
    }
}

// The numbers of a line.
pub fn entry_of(l: Line) -> Entry
    ensures { result ≡ entry_of l }
{
    let word = l.word;
    let n = word_number(word);
    [n, l.program, l.file, l.refusal, l.item]
}

// The line in five numbers.
pub fn line_in(e: Entry) -> Line
    ensures { result ≡ line_in e }
{
    let word = word_numbered(e[0]);
    Line {
        word,
        program: e[1],
        file: e[2],
        refusal: e[3],
        item: e[4],
    }
}
