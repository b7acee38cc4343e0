// Replays a set as a C host runs it: through the host's call, with an image.
ghost use Rattle.std.specs.Prelude.{◌<◌};

use crate::text;
use crate::text::Compared;
use arrayvec::ArrayString;
use std::fmt;
use std::fmt::Write;

// The most bytes that are said of a call: a number of 20 digits and two of 10, each with a byte after it.
const MOST_SAID: usize = 43;

// The Adler-32 of some bytes.
fn adler(s: &[u8]) -> u64
    ensures { result < 4294967296 }
{
    let mut a: u64 = 1;
    let mut b: u64 = 0;
    for byte in s {
        a = (a + u64::from(*byte)) % 65521;
        b = (b + a) % 65521;
    }
    b * 65536 + a
}

// One call, and what is said of it: its answer and the sums of the image and the journal after it.
fn said(
    image: &mut [u8; image::IMAGE_LEN],
    line: &[u8],
) -> Result<ArrayString<MOST_SAID>, fmt::Error> {
    let mut journal = [170u8; journal::JOURNAL_ROOM];
    let answer = host::lock_board_line(image, line, &mut journal, 0);
    let image_sum = adler(image);
    let journal_sum = adler(&journal);
    let mut said = ArrayString::new();
    write!(said, "{answer} {image_sum} {journal_sum}\n")?;
    Ok(said)
}

// All lines of the input, from the empty board's image on: the first that is said to do something else than expected.
pub fn replay(input: &[u8], expected: &[u8]) -> Result<Option<u64>, fmt::Error> {
    let mut image = [0u8; image::IMAGE_LEN];
    let mut compared = Compared::with(expected);
    for line in input.split_inclusive(text::ends_line) {
        let said = said(&mut image, text::cut(line))?;
        compared = compared.gave(said.as_bytes());
    }
    Ok(compared.bad_to_end())
}
