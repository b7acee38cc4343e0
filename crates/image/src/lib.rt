#![tactic(auto)]

// The image of a board, section by section, written and read.
// The sets of a board are lent and its rest goes by value; the board of the rules, whole, is read and written at the edges, by `load` and `put_image`.
ghost use Rattle.std.specs.Prelude.{◌≡◌, ◌++◌, map, true, ◌+◌, ◌-◌, ◌*◌, ◌≤◌, ◌<◌, length, get_or, set, drop, IfNone};
ghost use Rattle.rules.specs.Modes.{by_mode};
ghost use Rattle.files.specs.Words.{word_count, set_of, words_for};
ghost use Rattle.store.specs.Sets.{place_count, IsStore, set_in, SetsOf, PutAt, PutsFrom};
ghost use Rattle.store.specs.Store.{no_seat, seat_of, program_with, programs_from, board_of, SeatsTo, empty_sets};
ghost use Rattle.image.specs.Image.{kind_of, file_byte, used_by, wanted_by, standing_of, file_of, item_of, both_or_none, seat_fits};
ghost use Rattle.image.specs.Image.{set_section, row_of, row_section, rows_section, inquiry_of, inquiry_section, inquiries_section, joined, rows_agree};
ghost use Rattle.image.specs.Sections.{row_at};
ghost use Rattle.image.specs.Image.{inquiries_in, image_section, image_length, image_of, loaded_of, board_or_empty, image_fits, image_in};
ghost use Rattle.image.specs.Stored.{loaded_in};
ghost use Rattle.columns.specs.Rows.{put_at};

use files::{FileSet, WORDS, words};
use rules::{Board, Mode, Standing};
use store::sets::{PLACES, Sets};
use store::{Rest, Seat, sets};

// How many bytes a set has.
pub const SET_LEN: usize = 8;

// Where the sets after the first begin in a program's row, where its standing does, and how many bytes a row has.
const READABLE_AT: usize = SET_LEN;

const WRITING_AT: usize = READABLE_AT + SET_LEN;

const READING_AT: usize = WRITING_AT + SET_LEN;

const STANDING_AT: usize = READING_AT + SET_LEN;

const AWAITED_AT: usize = STANDING_AT + 1;

const ROW_LEN: usize = AWAITED_AT + 1;

// Where what follows J begins in a program's second row, and how many bytes that has.
const INQUIRING_AT: usize = SET_LEN;

const USED_AT: usize = INQUIRING_AT + SET_LEN;

const WANTED_AT: usize = USED_AT + 2;

const INQUIRY_LEN: usize = WANTED_AT + 2;

// Where the sections after the programs begin, and how many bytes an image has.
const WAITING_AT: usize = ROW_LEN * 32;

const ENTRY_AT: usize = WAITING_AT + 32;

const NUMBERS_AT: usize = ENTRY_AT + 32;

const COUNTS_AT: usize = NUMBERS_AT + 3;

const INQUIRIES_AT: usize = COUNTS_AT + 32;

pub const IMAGE_LEN: usize = INQUIRIES_AT + INQUIRY_LEN * 32;

// The byte of a standing.
fn kind(s: Standing) -> u8
    ensures { result ≡ kind_of s }
{
    match s {
        Standing::Absent => 0,
        Standing::Running => 1,
        Standing::Waiting(_) => 2,
        Standing::Held => 3,
    }
}

// The number in the awaited-file byte, by the file of the program's record.
fn file_byte(s: Standing, file: u16) -> u16
    ensures { result ≡ file_byte s file }
{
    match s {
        Standing::Running => file,
        Standing::Waiting(f) => f,
        _ => 0,
    }
}

// The record in use, of a program with this record.
fn used(s: Standing, item: u16) -> u16
    ensures { result ≡ used_by s item }
{
    match s {
        Standing::Running => item,
        _ => 0,
    }
}

// The awaited record, of a program with this record.
fn wanted(s: Standing, item: u16) -> u16
    ensures { result ≡ wanted_by s item }
{
    match s {
        Standing::Waiting(_) => item,
        _ => 0,
    }
}

// Writes all of src into out from a place on; the rest keeps its contents.
pub fn put_at(out: &mut [u8], at: usize, src: &[u8])
    requires { at + length src.now ≤ length out.old }
    ensures { out.new ≡ put_at at src.now out.old }
{
    out[at..at + src.len()].copy_from_slice(src);
}

// Writes the set in place k from a byte on.
fn put_set(out: &mut [u8], at: usize, sets: &Sets, k: usize)
    requires size_in_bounds { at + set_section.size ≤ length out.old }
    requires k_lt_place_count { k < place_count }
    ensures { out.new ≡ put_at at (set_section.write (set_in sets.now k)) out.old }
{
    let s = whole::set_at(sets, k);
    put_at(out, at, &s.bits.to_le_bytes());
}

// Writes the row of program p, with a seat, at the front of a part; the rest keeps its contents.
fn put_row(out: &mut [u8], sets: &Sets, p: u8, seat: Seat)
    requires size_in_bounds { row_section.size ≤ length out.old }
    requires le_p { (1 ≤ p) × (p ≤ 32) }
    ensures { out.new
        ≡ row_section.write (row_of (program_with sets.now (p - 1) seat)) ++ drop row_section.size out.old }
{
    put_set(out, 0, sets, sets::claim_at(Mode::Write, p));
    put_set(out, READABLE_AT, sets, sets::claim_at(Mode::Read, p));
    put_set(out, WRITING_AT, sets, sets::open_at(Mode::Write, p));
    put_set(out, READING_AT, sets, sets::open_at(Mode::Read, p));
    let file = file_byte(seat.standing, seat.file);
    put_at(out, STANDING_AT, &[kind(seat.standing), (file % 256) as u8]);
}

// Writes the second row of program p, likewise: J, I, the record in use and the awaited one.
fn put_inquiry(out: &mut [u8], sets: &Sets, p: u8, seat: Seat)
    requires size_in_bounds { inquiry_section.size ≤ length out.old }
    requires le_p { (1 ≤ p) × (p ≤ 32) }
    ensures { out.new
        ≡ inquiry_section.write (inquiry_of (program_with sets.now (p - 1) seat)) ++ drop inquiry_section.size out.old }
{
    put_set(out, 0, sets, sets::claim_at(Mode::Inquiry, p));
    put_set(out, INQUIRING_AT, sets, sets::open_at(Mode::Inquiry, p));
    let used = used(seat.standing, seat.item);
    put_at(out, USED_AT, &used.to_le_bytes());
    let wanted = wanted(seat.standing, seat.item);
    put_at(out, WANTED_AT, &wanted.to_le_bytes());
}

// Writes the programs' rows at the front of a part, and their second rows at the front of another; the rest keeps its contents.
fn put_programs(rows: &mut [u8], inquiries: &mut [u8], sets: &Sets, seats: [Seat; 32])
    requires rows_len { rows_section.size ≤ length rows.old }
    requires inquiries_len { inquiries_section.size ≤ length inquiries.old }
    ensures rows_after { rows.new
        ≡ rows_section.write (map row_of (programs_from sets.now (λ i. get_or seats i no_seat) 32 0))
        ++ drop rows_section.size rows.old }
    ensures inquiries_after { inquiries.new
        ≡ inquiries_section.write (map inquiry_of (programs_from sets.now (λ i. get_or seats i no_seat) 32 0))
        ++ drop inquiries_section.size inquiries.old }
{
    for (i, seat) in seats.iter().enumerate() {
        let p = i as u8 + 1;
        put_row(&mut rows[ROW_LEN * i..], sets, p, *seat);
        put_inquiry(&mut inquiries[INQUIRY_LEN * i..], sets, p, *seat);
    }
}

// Writes the image of a board into a buffer of its length, section by section.
fn fill_image(out: &mut [u8], sets: &Sets, rest: Rest)
    requires out_len { length out.old ≡ image_length }
    ensures { out.new ≡ image_of (board_of sets.now rest) }
{
    let (front, inquiries) = out.split_at_mut(INQUIRIES_AT);
    put_programs(front, inquiries, sets, rest.seats);
    put_at(front, WAITING_AT, &rest.waiting);
    put_at(front, ENTRY_AT, &rest.entry);
    put_at(
        front,
        NUMBERS_AT,
        &[rest.favoured, rest.initial, rest.leaves],
    );
    put_at(front, COUNTS_AT, &rest.passed);
}

// Writes the image of a board, sound or not, by its sets and the rest, and says whether it could: a buffer of another length stays as it was.
pub fn put_image_of(out: &mut [u8], sets: &Sets, rest: Rest) -> bool
    ensures value { result ≡ image_fits out.old }
    ensures out_after { out.new ≡ image_in out.old (board_of sets.now rest) }
{
    if out.len() != IMAGE_LEN {
        return false;
    }
    fill_image(out, sets, rest);
    true
}

// Writes the image of a board, whole.
pub fn put_image(out: &mut [u8], b: Board) -> bool
    ensures value { result ≡ image_fits out.old }
    ensures out_after { out.new ≡ image_in out.old b }
{
    let mut sets = [[0u64; WORDS]; PLACES];
    let rest = store::sets::take(b, &mut sets);
    put_image_of(out, &sets, rest)
}

// The set of its bytes.
pub fn read_set(s: &[u8]) -> FileSet
    requires { length s.now ≡ set_section.size }
    ensures { result ≡ set_section.read s.now }
{
    let mut bytes = [0u8; SET_LEN];
    bytes.copy_from_slice(s);
    FileSet {
        bits: u64::from_le_bytes(bytes),
    }
}

// The record of two bytes, lowest first.
fn read_item(a: u8, b: u8) -> u16
    ensures { result ≡ a + 256 * b }
{
    u16::from_le_bytes([a, b])
}

// The standing of its byte and the awaited-file byte.
#[tactic(auto, unfolding(crate::specs::Image::standing_of))]
fn standing_of(k: u8, f: u8) -> Standing
    ensures { result ≡ standing_of k f }
{
    match k {
        0 => Standing::Absent,
        1 => Standing::Running,
        2 => Standing::Waiting(f as u16),
        _ => Standing::Held,
    }
}

// The file of the record; a is the awaited record.
#[tactic(auto, unfolding(crate::specs::Image::file_of))]
fn file_of(k: u8, f: u8, a: u16) -> u16
    ensures { result ≡ file_of k f a }
{
    match k {
        1 => f as u16,
        2 if a != 0 => f as u16,
        _ => 0,
    }
}

// The record, by the record in use and the awaited one.
#[tactic(auto, unfolding(crate::specs::Image::item_of))]
fn item_of(k: u8, u: u16, a: u16) -> u16
    ensures { result ≡ item_of k u a }
{
    match k {
        1 => u,
        2 => a,
        _ => 0,
    }
}

// Whether a running program's awaited-file byte and record in use are both there or both 0.
#[tactic(auto, unfolding(crate::specs::Image::both_or_none))]
fn both_or_none(f: u8, u: u16) -> bool
    ensures { result ≡ both_or_none f u }
{
    (f == 0) == (u == 0)
}

// Whether four numbers are those of a seat.
#[tactic(auto, unfolding(crate::specs::Image::seat_fits))]
fn seat_fits(k: u8, f: u8, u: u16, a: u16) -> bool
    ensures { result ≡ seat_fits k f u a }
{
    match k {
        1 => both_or_none(f, u) && a == 0,
        2 => u == 0,
        0 | 3 => u == 0 && f == 0 && a == 0,
        _ => false,
    }
}

// Reads a set into place k.
fn take_set(s: &[u8], sets: &mut Sets, k: usize)
    requires s_len { length s.now ≡ set_section.size }
    requires k_lt_place_count { k < place_count }
    ensures sets_after { sets.new ≡ set sets.old k (words_for word_count (set_section.read s.now)) }
    ensures s_value { set_of (words_for word_count (set_section.read s.now)) ≡ set_section.read s.now }
{
    let t = read_set(s);
    words::put(&mut sets[k], t);
}

// Reads three sets, by mode: the first into place k, the others 32 and 64 places further.
fn take_three(a: &[u8], b: &[u8], c: &[u8], sets: &mut Sets, k: usize)
    requires a_len { (length a.now ≡ set_section.size) × (length b.now ≡ set_section.size) × (length c.now ≡ set_section.size) }
    requires k_bound { k < 128 }
    ensures { PutsFrom k (by_mode (set_section.read a.now) (set_section.read b.now) (set_section.read c.now))
        sets.old sets.new }
{
    sets::sized(sets);
    take_set(a, sets, k);
    take_set(b, sets, 32 + k);
    take_set(c, sets, 64 + k);
}

// Reads the two rows of program p: its sets go into their places.
fn read_sets(s: &[u8], x: &[u8], sets: &mut Sets, p: u8)
    requires s_len { (length s.now ≡ row_section.size) × (length x.now ≡ inquiry_section.size) }
    requires le_p { (1 ≤ p) × (p ≤ 32) }
    ensures { PutAt (joined (row_section.read s.now) (inquiry_section.read x.now)) (p - 1)
        sets.old sets.new }
{
    take_three(
        &s[0..READABLE_AT],
        &s[READABLE_AT..WRITING_AT],
        &x[0..INQUIRING_AT],
        sets,
        sets::claim_at(Mode::Write, p),
    );
    take_three(
        &s[WRITING_AT..READING_AT],
        &s[READING_AT..STANDING_AT],
        &x[INQUIRING_AT..USED_AT],
        sets,
        sets::open_at(Mode::Write, p),
    );
}

// Reads the two rows of a program: its seat.
fn read_seat(s: &[u8], x: &[u8]) -> Seat
    requires { (length s.now ≡ row_section.size) × (length x.now ≡ inquiry_section.size) }
    ensures { result ≡ seat_of (joined (row_section.read s.now) (inquiry_section.read x.now)) }
{
    let k = s[STANDING_AT];
    let f = s[AWAITED_AT];
    let u = read_item(x[USED_AT], x[USED_AT + 1]);
    let a = read_item(x[WANTED_AT], x[WANTED_AT + 1]);
    Seat {
        standing: standing_of(k, f),
        file: file_of(k, f, a),
        item: item_of(k, u, a),
    }
}

// The row of program i + 1 in an image.
fn row(s: &[u8], i: usize) -> &[u8]
    requires { (length s.now ≡ image_length) × (i < 32) }
    ensures value { result.now ≡ row_at row_section s.now i }
    ensures len { length result.now ≡ row_section.size }
{
    let at = ROW_LEN * i;
    &s[at..at + ROW_LEN]
}

// Its second row.
fn inquiry(s: &[u8], i: usize) -> &[u8]
    requires { (length s.now ≡ image_length) × (i < 32) }
    ensures value { result.now ≡ row_at inquiry_section (inquiries_in s.now) i }
    ensures len { length result.now ≡ inquiry_section.size }
{
    let at = INQUIRIES_AT + INQUIRY_LEN * i;
    &s[at..at + INQUIRY_LEN]
}

// Whether the two rows of program i + 1 are of their layout.
fn row_fits(s: &[u8], i: usize) -> bool
    requires { (length s.now ≡ image_length) × (i < 32) }
    ensures { result
        ≡ rows_agree (row_section.read (row_at row_section s.now i))
        (inquiry_section.read (row_at inquiry_section (inquiries_in s.now) i)) }
{
    let row = row(s, i);
    let inquiry = inquiry(s, i);
    let u = read_item(inquiry[USED_AT], inquiry[USED_AT + 1]);
    let a = read_item(inquiry[WANTED_AT], inquiry[WANTED_AT + 1]);
    seat_fits(row[STANDING_AT], row[AWAITED_AT], u, a)
}

// Whether every program's rows are of their layout.
fn rows_fit(s: &[u8]) -> bool
    requires { length s.now ≡ image_length }
    ensures { result ≡ image_section.fits s.now }
{
    // A loop: of `(0..32).all(..)` the check does not show that each row passes where the answer is true.
    for i in 0..32 {
        if !row_fits(s, i) {
            return false;
        }
    }
    true
}

// Reads the rows of an image: the sets go into their places, and the seats come back.
fn read_rows(s: &[u8], sets: &mut Sets) -> [Seat; 32]
    requires s_len { length s.now ≡ image_length }
    ensures seats_to { SeatsTo (image_section.read s.now) 32 result }
    ensures sets_of { SetsOf (image_section.read s.now) sets.new }
{
    let mut seats = [Seat::NONE; 32];
    for (i, seat) in seats.iter_mut().enumerate() {
        let (row, inquiry) = (row(s, i), inquiry(s, i));
        read_sets(row, inquiry, sets, i as u8 + 1);
        *seat = read_seat(row, inquiry);
    }
    sets::sized(sets);
    seats
}

// 32 bytes as an array: a line, or the counts.
fn read_places(s: &[u8]) -> [u8; 32]
    requires { length s.now ≡ 32 }
    ensures { result ≡ s.now }
{
    let mut a = [0u8; 32];
    a.copy_from_slice(s);
    a
}

// The board of an image, by its sets and the rest; of a refused image there is none, and the sets stay empty.
pub fn load_in(image: &[u8], sets: &mut Sets) -> Option<Rest>
    requires { sets.old ≡ empty_sets }
    ensures result_after { loaded_in sets.new result ≡ loaded_of image.now }
    ensures untouched { IfNone result (sets.new ≡ empty_sets) }
    ensures store { IsStore sets.new }
{
    sets::sized(sets);
    if image.len() != IMAGE_LEN {
        return None;
    }
    if !rows_fit(image) {
        return None;
    }
    let seats = read_rows(image, sets);
    let rest = Rest {
        seats,
        waiting: read_places(&image[WAITING_AT..ENTRY_AT]),
        entry: read_places(&image[ENTRY_AT..NUMBERS_AT]),
        favoured: image[NUMBERS_AT],
        initial: image[NUMBERS_AT + 1],
        leaves: image[NUMBERS_AT + 2],
        passed: read_places(&image[COUNTS_AT..INQUIRIES_AT]),
    };
    Some(rest)
}

// The board of an image, whole.
pub fn load(image: &[u8]) -> Option<Board>
    ensures { result ≡ loaded_of image.now }
{
    let mut sets = [[0u64; WORDS]; PLACES];
    let rest = load_in(image, &mut sets)?;
    Some(whole::board(&sets, rest))
}

// The board that was read; "Reading a refused image gives the empty board."
pub fn board_or_empty(loaded: Option<Board>) -> Board
    ensures { result ≡ board_or_empty loaded }
{
    loaded.unwrap_or(Board::EMPTY)
}
