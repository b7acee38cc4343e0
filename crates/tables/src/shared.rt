// The files that some of several programs have, and those that two of them have: what the others have than one of them; and what all
// programs have open.
ghost use Rattle.std.specs.Prelude.{◌≡◌};
ghost use Rattle.tables.specs.Shared.{sharing, shared_to, open_row, others_of, opened_in};

use files::{WORDS, words};
use rules::Mode;
use store::sets;
use store::sets::Sets;

#[derive(Clone, Copy)]
pub struct Shared {
    pub once: [u64; WORDS],
    pub twice: [u64; WORDS],
}

// What all programs have open, for writing, for reading and for inquiry.
#[derive(Clone, Copy)]
pub struct OpenFiles {
    pub writing: [u64; WORDS],
    pub reading: [u64; WORDS],
    pub inquiring: [u64; WORDS],
}

impl Shared {
    // Of no program.
    pub const NONE: Shared = Shared {
        once: [0; WORDS],
        twice: [0; WORDS],
    };

    // With one more program, which has these files.
    pub fn with(self, files: [u64; WORDS]) -> Shared
        ensures { result ≡ sharing self files }
    {
        let mut once = self.once;
        let mut twice = self.twice;
        let mut both = once;
        words::cut(&mut both, &files);
        words::join(&mut twice, &both);
        words::join(&mut once, &files);
        Shared { once, twice }
    }

    // What the others have than one of the programs, which has these.
    pub fn by_others(self, own: [u64; WORDS]) -> [u64; WORDS]
        ensures { result ≡ others_of self own }
    {
        let mut rest = self.once;
        words::less(&mut rest, &own);
        let mut theirs = self.twice;
        words::join(&mut theirs, &rest);
        theirs
    }
}

// What all programs have open in a mode.
fn of_all(sets: &Sets, mode: Mode) -> [u64; WORDS]
    ensures { result ≡ (shared_to (open_row sets.now mode) 32).once }
{
    let mut files = [0u64; WORDS];
    for p in 1..=32 {
        words::join(&mut files, &sets[sets::open_at(mode, p)]);
    }
    files
}

// What all programs have open.
pub fn opened(sets: &Sets) -> OpenFiles
    ensures { result ≡ opened_in sets.now }
{
    OpenFiles {
        writing: of_all(sets, Mode::Write),
        reading: of_all(sets, Mode::Read),
        inquiring: of_all(sets, Mode::Inquiry),
    }
}
