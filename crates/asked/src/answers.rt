// Writes the answers.
use digraph::Loop;
use linecall::Posted;
use rules::{Answer, Board, Line, Reply, Word};
use std::io;

// The first letter of a line's word.
fn word_letter(w: Word) -> u8 {
    match w {
        Word::Admit => b'A',
        Word::Held => b'H',
        Word::Given => b'G',
        Word::Wait => b'W',
        Word::Unsafe => b'U',
        Word::Done => b'D',
        Word::Favour => b'F',
        Word::Refuse => b'R',
    }
}

// The first letter of an answer's word.
fn answer_letter(a: Answer) -> u8 {
    match a {
        Answer::Admit => b'A',
        Answer::Held => b'H',
        Answer::Given => b'G',
        Answer::Wait => b'W',
        Answer::Unsafe => b'U',
        Answer::Done => b'D',
        Answer::Refuse(_) => b'R',
    }
}

// The seven bytes of a line.
fn line_bytes(l: Line) -> [u8; 7] {
    let [program, _] = l.program.to_le_bytes();
    let [file_low, file_high] = l.file.to_le_bytes();
    let [refusal, _] = l.refusal.to_le_bytes();
    let [item_low, item_high] = l.item.to_le_bytes();
    [
        word_letter(l.word),
        program,
        file_low,
        file_high,
        refusal,
        item_low,
        item_high,
    ]
}

// The bytes of all lines, which are written at once: what is written is not gathered before it goes out.
fn lines_bytes(lines: [Line; 32]) -> [u8; 224] {
    let mut bytes = [0u8; 224];
    for (i, line) in lines.iter().enumerate() {
        bytes[7 * i..7 * i + 7].copy_from_slice(&line_bytes(*line));
    }
    bytes
}

// The image of a board.
pub fn write_image(rt: &impl Print, b: Board) -> io::Result<()> {
    let mut bytes = [0u8; image::IMAGE_LEN];
    image::put_image(&mut bytes, b);
    rt.write_all(&bytes)
}

// A number of bytes, told by 255 if it is more than that.
fn short(n: usize) -> u8 {
    u8::try_from(n).unwrap_or(255)
}

// The places of a loop; 0 after its programs.
fn places(l: Loop) -> [u8; 32] {
    let mut bytes = l.at;
    for byte in bytes.iter_mut().skip(l.count) {
        *byte = 0;
    }
    bytes
}

// The answer to a direct call, with the loop that it carries.
pub fn call(rt: &impl Print, r: Reply, l: Loop) -> io::Result<()> {
    rt.write_all(&[
        parts::refusals::of_answer(r.answer),
        answer_letter(r.answer),
        r.count,
        r.placed,
    ])?;
    rt.write_all(&lines_bytes(r.lines))?;
    rt.write_all(&r.order)?;
    rt.write_all(&[short(l.count)])?;
    rt.write_all(&places(l))?;
    write_image(rt, r.board)
}

// The answer to a line call: that of a direct call, the new place in decimal and byte 10, the journal.
pub fn post(rt: &impl Print, p: Posted, journal: &[u8]) -> io::Result<()> {
    call(rt, p.reply, p.carries)?;
    rt.println(p.place)?;
    rt.write_all(journal)
}

// 1 or 0.
pub fn truth(rt: &impl Print, yes: bool) -> io::Result<()> {
    rt.write_all(&[u8::from(yes)])
}

// The answer to an image.
pub fn load(rt: &impl Print, ok: bool, b: Board) -> io::Result<()> {
    truth(rt, ok)?;
    write_image(rt, b)
}

// The rows of a matrix, four bytes each.
pub fn matrix(rt: &impl Print, rows: [u32; 32]) -> io::Result<()> {
    let mut bytes = [0u8; 128];
    host::digraphs::put_rows(&mut bytes, rows);
    rt.write_all(&bytes)
}

// The answer to a line whose label is asked.
pub fn label(rt: &impl Print, part: &[u8]) -> io::Result<()> {
    rt.write_all(&[short(part.len())])?;
    rt.write_all(part)
}
