// A request line on a board that is known to be sound: check 2, the line, the direct call that it asks for,
// and its lines in the journal.
ghost use Rattle.std.specs.Prelude.{◌≡◌, true, ◌+◌, ◌*◌, ◌≤◌, length};
ghost use Rattle.rules.specs.Soundness.{sound};
ghost use Rattle.journal.specs.Journal.{journal_line, journal_room, written};
ghost use Rattle.parts.specs.Entries.{no_entries};
ghost use Rattle.store.specs.Store.{board_of};
ghost use Rattle.settling.specs.Writing.{written_in};
ghost use Rattle.apply.specs.Replies.{replied, ComesTo, InForm};
ghost use Rattle.linecall.specs.LineCall.{journal_full, FitsLine, refuse_line, lines_for, reply_to, line_call};

use apply::Changed;
use parts::entries::Entries;
use rules::{Asked, Line, Refusal, Word};
use store::sets::Sets;
use store::{Rest, sets};

// What the call comes to, and the new place in the journal.
#[derive(Clone, Copy)]
pub struct Served {
    pub changed: Changed,
    pub place: u64,
}

// The highest place in a journal.
pub const HIGHEST_PLACE: u64 = 1000000000;

// Whether the journal has no room for a call's lines from the place on.
fn is_full(room: usize, place: u64) -> bool
    ensures { result ≡ journal_full room place }
{
    HIGHEST_PLACE < place || room < place as usize + journal::JOURNAL_ROOM
}

// The REFUSE line of a request: with the program, the file and the record of its call, or 0 of a refused line.
fn refuse_line(q: Result<Asked, Refusal>, n: u8) -> Line
    requires { FitsLine q }
    ensures { result ≡ refuse_line q n }
{
    let none = Line {
        word: Word::Refuse,
        program: 0,
        file: 0,
        refusal: u16::from(n),
        item: 0,
    };
    match q {
        Ok(a) => Line {
            program: a.program as u16,
            file: a.file as u16,
            item: a.item as u16,
            ..none
        },
        Err(_) => none,
    }
}

// Writes a call's lines into the journal from the place on, and gives the new place.
fn write_lines(
    sets: &Sets,
    lines: &Entries,
    journal: &mut [u8],
    place: usize,
    q: Result<Asked, Refusal>,
    c: Changed,
) -> usize
    requires { (place + journal_room ≤ length journal.old) × (c.progress.count ≤ 32) × FitsLine q }
    ensures value { result ≡ place
        + journal_line * length (lines_for q (replied (written_in sets.now lines.now c.progress) c.answer)) }
    ensures journal_after { journal.new
        ≡ written journal.old place (lines_for q (replied (written_in sets.now lines.now c.progress) c.answer)) }
{
    let n = parts::refusals::of_answer(c.answer);
    if n == 0 {
        return journal::put_lines(journal, place, lines, c.progress.count as usize);
    }
    let l = refuse_line(q, n);
    journal::put_line(&mut journal[place..], l);
    place + journal::JOURNAL_LINE
}

// What a line comes to: its direct call, or a refusal.
fn reply_to(sets: &mut Sets, rest: Rest, lines: &mut Entries, q: Result<Asked, Refusal>) -> Changed
    requires { (sound (board_of sets.old rest) ≡ true) × (lines.old ≡ no_entries) }
    ensures comes_to { ComesTo sets.new lines.new result (reply_to (board_of sets.old rest) q) }
    ensures in_form { InForm sets.new lines.new result }
{
    match q {
        Ok(asked) => apply::call(sets, rest, lines, asked),
        Err(refusal) => {
            sets::sized(sets);
            apply::replies::refused(sets, rest, lines, refusal)
        }
    }
}

// The line call on a sound board, but for the order of its reply.
pub fn line(
    sets: &mut Sets,
    rest: Rest,
    lines: &mut Entries,
    line: &[u8],
    journal: &mut [u8],
    place: u64,
) -> Served
    requires { (sound (board_of sets.old rest) ≡ true) × (lines.old ≡ no_entries) }
    ensures comes_to { ComesTo sets.new lines.new result.changed
        (line_call (board_of sets.old rest) line.now journal.old place).reply }
    ensures place_value { result.place ≡ (line_call (board_of sets.old rest) line.now journal.old place).place }
    ensures journal_after { journal.new ≡ (line_call (board_of sets.old rest) line.now journal.old place).journal }
    ensures in_form { InForm sets.new lines.new result.changed }
{
    if is_full(journal.len(), place) {
        sets::sized(sets);
        let changed = apply::replies::refused(sets, rest, lines, Refusal::JournalFull);
        return Served { changed, place };
    }
    let q = request::read(line);
    let changed = reply_to(sets, rest, lines, q);
    let at = write_lines(sets, lines, journal, place as usize, q, changed);
    Served {
        changed,
        place: at as u64,
    }
}
