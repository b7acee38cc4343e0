#![tactic(auto)]

// Sets of files: by value here, as rows of words in `words`.
ghost use Rattle.std.specs.Prelude.{◌≡◌};
ghost use Rattle.files.specs.Sets.{member, adding, removing, meets, within, is_empty};

pub mod numbers;
pub mod words;

// How many words a set of files has where it is lent.
pub const WORDS: usize = 1;

// A set of the files 1 to 64: bit f - 1 says whether file f is in it. No other number is a file.
#[derive(Clone, Copy)]
pub struct FileSet {
    pub bits: u64,
}

// The files are 1 to this.
const FILES: u16 = 64;

impl FileSet {
    // No file.
    pub const EMPTY: FileSet = FileSet { bits: 0 };

    // Whether f is a file of the set.
    pub fn has(self, f: u16) -> bool
        ensures { result ≡ member self f }
    {
        numbers::has(FILES, self.bits, f)
    }

    // The set and f; the set itself if f is no file.
    pub fn with(self, f: u16) -> FileSet
        ensures { result ≡ adding self f }
    {
        FileSet {
            bits: numbers::with(FILES, self.bits, f),
        }
    }

    // The set but f.
    pub fn without(self, f: u16) -> FileSet
        ensures { result ≡ removing self f }
    {
        FileSet {
            bits: numbers::without(FILES, self.bits, f),
        }
    }

    // Whether the sets have a file in common.
    pub fn meets(self, other: FileSet) -> bool
        ensures { result ≡ meets self other }
    {
        self.bits & other.bits != 0
    }

    // Whether every file of the set is in the other.
    pub fn within(self, other: FileSet) -> bool
        ensures { result ≡ within self other }
    {
        self.bits & other.bits == self.bits
    }

    // Whether no file is in the set.
    pub fn is_empty(self) -> bool
        ensures { result ≡ is_empty self }
    {
        self.bits == 0
    }
}
