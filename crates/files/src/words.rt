// Sets of files as rows of words that are lent and not copied: file f is bit (f - 1) % 64 of word (f - 1) / 64.
ghost use Rattle.std.specs.Prelude.{ℕ, ◌≡◌, ◌≤◌, length};
ghost use Rattle.std.specs.Int.Bits.{bit_and, bit_or};
ghost use Rattle.files.specs.Bits.{less_bits};
ghost use Rattle.files.specs.Sets.{member, meets, within, is_empty};
ghost use Rattle.files.specs.Words.{set_of, with_file, without_file, words_for, wordwise};

use crate::{FILES, FileSet, numbers};

// Whether f is a file of the set.
pub fn has(s: &[u64], f: u16) -> bool
    requires { 1 ≤ length s.now }
    ensures { result ≡ member (set_of s.now) f }
{
    if !numbers::is_number(FILES, f) {
        return false;
    }
    let i = usize::from(f - 1);
    numbers::has_bit(s[i / 64], i % 64)
}

// The set gets f, if f is a file.
pub fn add(s: &mut [u64], f: u16)
    requires { 1 ≤ length s.old }
    ensures { s.new ≡ with_file s.old f }
{
    if numbers::is_number(FILES, f) {
        let i = usize::from(f - 1);
        s[i / 64] = numbers::with_bit(s[i / 64], i % 64);
    }
}

// The set loses f.
pub fn remove(s: &mut [u64], f: u16)
    requires { 1 ≤ length s.old }
    ensures { s.new ≡ without_file s.old f }
{
    if numbers::is_number(FILES, f) {
        let i = usize::from(f - 1);
        s[i / 64] = numbers::without_bit(s[i / 64], i % 64);
    }
}

// The row becomes the set t.
pub fn put(s: &mut [u64], t: FileSet)
    requires { 1 ≤ length s.old }
    ensures s_after { s.new ≡ words_for (length s.old) t }
    ensures s_after_2 { set_of s.new ≡ t }
{
    s.fill(0);
    s[0] = t.bits;
}

// Whether the sets have a file in common.
pub fn meets(s: &[u64], t: &[u64]) -> bool
    requires { length s.now ≡ length t.now }
    ensures { result ≡ meets (set_of s.now) (set_of t.now) }
{
    s.iter().zip(t).any(|(v, w)| *v & *w != 0)
}

// Whether every file of s is in t: no word of s has a bit but those of t.
pub fn within(s: &[u64], t: &[u64]) -> bool
    requires { length s.now ≡ length t.now }
    ensures { result ≡ within (set_of s.now) (set_of t.now) }
{
    s.iter().zip(t).all(|(v, w)| *v ^ (*v & *w) == 0)
}

// Whether no file is in the set.
pub fn is_empty(s: &[u64]) -> bool
    ensures { result ≡ is_empty (set_of s.now) }
{
    s.iter().all(|w| *w == 0)
}

// Each word of s becomes what `op` makes of it and of the word of t in its place.
#[tactic(auto, using(crate::proofs::Rows::join_none, crate::proofs::Rows::join_all))]
fn change<F: Fn(u64, u64) -> u64>(s: &mut [u64], t: &[u64], op: F)
    requires { (length s.old ≡ length t.now) × F.IsAlwaysCallable op }
    ensures { (g : ℕ → ℕ → ℕ) → ((v : ℕ) (w : ℕ) (r : ℕ) → F.post op v w r → r ≡ g v w) → s.new ≡ wordwise g s.old t.now }
{
    for (k, w) in t.iter().enumerate() {
        s[k] = op(s[k], *w);
    }
}

// The set s gets every file of t.
pub fn join(s: &mut [u64], t: &[u64])
    requires { length s.old ≡ length t.now }
    ensures { s.new ≡ wordwise bit_or s.old t.now }
{
    change(s, t, |v, w| v | w);
}

// The set s keeps the files that are in t too.
pub fn cut(s: &mut [u64], t: &[u64])
    requires { length s.old ≡ length t.now }
    ensures { s.new ≡ wordwise bit_and s.old t.now }
{
    change(s, t, |v, w| v & w);
}

// The set s loses every file of t.
pub fn less(s: &mut [u64], t: &[u64])
    requires { length s.old ≡ length t.now }
    ensures { s.new ≡ wordwise less_bits s.old t.now }
{
    change(s, t, |v, w| v ^ (v & w));
}
