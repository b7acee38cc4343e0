#![tactic(auto)]

// The calls of a C host.
ghost use Rattle.std.specs.Prelude.{◌≡◌, ◌≤◌, take};
ghost use Rattle.store.specs.Store.{empty_sets};
ghost use Rattle.host.specs.Host.{read_image, read_board, taken_in, refusal_answer, host_answer, host_call, empty_answer, empty_image};
ghost use Rattle.host.specs.Host.{placed_answer, placed_in, order_answer, order_buffer};

use files::WORDS;
use parts::entries::{LINES, NUMBERS};
use rules::Board;
use search::Search;
use store::Rest;
use store::sets::{PLACES, Sets};

pub mod digraphs;
pub mod writing;

// The board of an image, into the sets and the rest; an image that is not of its layout, or whose board is not sound, is refused.
#[tactic(auto, using(crate::proofs::Laws::image_layout, crate::proofs::Laws::image_unsound, crate::proofs::Laws::image_sound))]
fn take_image(image: &[u8], sets: &mut Sets) -> Option<Rest>
    requires { sets.old ≡ empty_sets }
    ensures { taken_in sets.new result ≡ read_image image.now }
{
    let rest = image::load_in(image, sets)?;
    if !sound::is_sound(sets, rest) {
        return None;
    }
    Some(rest)
}

// The board of an image; an image that is not of its layout, or whose board is not sound, is refused.
pub fn read_image(image: &[u8]) -> Option<Board>
    ensures { result ≡ read_image image.now }
{
    let mut sets = [[0u64; WORDS]; PLACES];
    let rest = take_image(image, &mut sets)?;
    Some(whole::board(&sets, rest))
}

// The board of an image; "Reading a refused image gives the empty board."
#[tactic(auto, unfolding(crate::specs::Host::read_board))]
pub fn read_board(image: &[u8]) -> Board
    ensures { result ≡ read_board image.now }
{
    image::board_or_empty(read_image(image))
}

// Refusal n as a C host gets it: 2^64 less its number.
fn refusal_answer(n: u64) -> u64
    requires { 1 ≤ n }
    ensures { result ≡ refusal_answer n }
{
    u64::MAX - (n - 1)
}

// What a C host gets: the largest 64-bit number for refusal 1, one less for 2, otherwise the new place.
fn answer_for(n: u8, place: u64) -> u64
    ensures { result ≡ host_answer n place }
{
    match n {
        1 => refusal_answer(1),
        2 => refusal_answer(2),
        _ => place,
    }
}

// The call of a C host: the image holds the board.
pub fn lock_board_line(image: &mut [u8], line: &[u8], journal: &mut [u8], place: u64) -> u64
    ensures value { result ≡ (host_call image.old line.now journal.old place).answer }
    ensures image_after { image.new ≡ (host_call image.old line.now journal.old place).image }
    ensures journal_after { journal.new ≡ (host_call image.old line.now journal.old place).journal }
{
    let mut sets = [[0u64; WORDS]; PLACES];
    let Some(rest) = take_image(image, &mut sets) else {
        return answer_for(1, place);
    };
    let mut lines = [[0u16; NUMBERS]; LINES];
    let served = linecall::known::line(&mut sets, rest, &mut lines, line, journal, place);
    let n = parts::refusals::of_answer(served.changed.answer);
    if n == 0 {
        image::put_image_of(image, &sets, served.changed.progress.rest);
        return served.place;
    }
    answer_for(n, served.place)
}

// Fills a C host's image with the empty board, so that the host need not know the layout; the answer is 0.
// An image that hasn't 1,827 bytes stays as it was; the answer is then the largest number.
pub fn lock_board_empty(image: &mut [u8]) -> u64
    ensures value { result ≡ empty_answer image.old }
    ensures image_after { image.new ≡ empty_image image.old }
{
    let sets = [[0u64; WORDS]; PLACES];
    if image::put_image_of(image, &sets, Rest::EMPTY) {
        return 0;
    }
    refusal_answer(1)
}

// Writes the first n numbers of an order or a loop from the buffer's start and answers n; a buffer shorter than that gets refusal 17.
fn put_order(at: [u8; 32], n: usize, buffer: &mut [u8]) -> u64
    requires { n ≤ 32 }
    ensures value { result ≡ placed_answer (take n at) buffer.old }
    ensures buffer_after { buffer.new ≡ placed_in (take n at) buffer.old }
{
    if buffer.len() < n {
        return refusal_answer(17);
    }
    buffer[..n].copy_from_slice(&at[..n]);
    n as u64
}

// The carried order of the image's board, for a C host: its program numbers from the buffer's start, and how many they are.
// The bytes after them keep their contents. Refusals 1 and 17 write nothing.
pub fn lock_board_order(image: &[u8], order: &mut [u8]) -> u64
    ensures value { result ≡ order_answer image.now order.old }
    ensures order_after { order.new ≡ order_buffer image.now order.old }
{
    let mut sets = [[0u64; WORDS]; PLACES];
    let Some(rest) = image::load_in(image, &mut sets) else {
        return refusal_answer(1);
    };
    let j = sound::judge(&sets, rest);
    if !j.sound {
        return refusal_answer(1);
    }
    let kind = j.order.kind;
    let Search::Found(n) = kind else {
        return refusal_answer(1);
    };
    put_order(j.order.at, n, order)
}
