// Lines, and an expected text that is held to what the lines give.
ghost use Rattle.std.specs.Prelude.{◌≤◌, length};

// Whether a byte ends a line.
pub fn ends_line(byte: &u8) -> bool {
    *byte == b'\n'
}

// A line without the byte that ends it; the last line may lack that.
pub fn without_end(line: &[u8]) -> &[u8]
    ensures { length result.now ≤ length line.now }
{
    line.strip_suffix(b"\n").unwrap_or(line)
}

// The line that is asked: "The longest line has 602 bytes; a longer one is cut to 603."
pub fn cut(line: &[u8]) -> &[u8]
    ensures { length result.now ≤ length line.now }
{
    let line = without_end(line);
    line.get(..request::CUT_LINE).unwrap_or(line)
}

// The input lines so far, the first of them whose bytes differ from the expected ones, and what is expected of those that follow.
#[derive(Clone, Copy)]
pub struct Compared<'a> {
    pub lines: u64,
    pub bad: Option<u64>,
    pub rest: &'a [u8],
}

impl<'a> Compared<'a> {
    // No line so far.
    pub fn with(expected: &'a [u8]) -> Compared<'a> {
        Compared {
            lines: 0,
            bad: None,
            rest: expected,
        }
    }

    // One line more, which gave some bytes.
    pub fn gave(self, bytes: &[u8]) -> Compared<'a> {
        let lines = self.lines.saturating_add(1);
        match self.rest.strip_prefix(bytes) {
            Some(rest) => Compared {
                lines,
                bad: self.bad,
                rest,
            },
            None => Compared {
                lines,
                bad: self.bad.or(Some(lines)),
                rest: self.rest.get(bytes.len()..).unwrap_or(b""),
            },
        }
    }

    // The first line that differs, where expected bytes that are left over are a difference too.
    pub fn bad_to_end(self) -> Option<u64> {
        if self.rest.is_empty() {
            return self.bad;
        }
        self.bad.or(Some(self.lines.saturating_add(1)))
    }
}
