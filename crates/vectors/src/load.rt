// Reads a file of a set.
ghost use Rattle.std.specs.Prelude.{◌≤◌, length, IfOk};

use arrayvec::ArrayString;
use std::fmt::Write;
use std::fs::{File, Files};
use std::io;
use std::io::Read;

// The longest path, and how many bytes of a file are read; a set's file has fewer.
const LONGEST_PATH: usize = 64;

pub const MOST_BYTES: usize = 32768;

// Reads until the buffer is full or the file ends, and says how many bytes there were.
fn read_full(file: &mut impl Read, buf: &mut [u8]) -> io::Result<usize>
    ensures { IfOk result (λ n. n ≤ length buf.new) }
{
    let mut done: usize = 0;
    // No `for`: each turn reads as many bytes as are there.
    while done < buf.len() {
        let n = file.read(&mut buf[done..])?;
        if n == 0 {
            break;
        }
        done += n;
    }
    Ok(done)
}

// The first bytes of the file of a name and its ending, if it can be read.
pub fn front<'a>(
    rt: &impl Files,
    name: &[u8],
    ending: &str,
    bytes: &'a mut [u8; MOST_BYTES],
) -> Option<&'a [u8]> {
    let name = str::from_utf8(name).ok()?;
    let mut path = ArrayString::<LONGEST_PATH>::new();
    write!(path, "{name}{ending}").ok()?;
    let mut file = File::open(rt, path.as_str()).ok()?;
    let len = read_full(&mut file, bytes).ok()?;
    bytes.get(..len)
}

// The bytes of the file of a name and its ending, if it can be read whole.
pub fn load<'a>(
    rt: &impl Files,
    name: &[u8],
    ending: &str,
    bytes: &'a mut [u8; MOST_BYTES],
) -> Option<&'a [u8]> {
    let bytes = front(rt, name, ending, bytes)?;
    if bytes.len() == MOST_BYTES {
        return None;
    }
    Some(bytes)
}
