// Sets of the numbers 1 to `top` as the bits of one word: number n is bit n - 1. Any other number is in no set, joins none and leaves none.
ghost use Rattle.std.specs.Prelude.{◌≡◌, ◌≤◌, ◌<◌, ◌^◌};
ghost use Rattle.files.specs.Bits.{has_bit, with_bit, without_bit, is_number, has_number, with_number, without_number};

// Whether bit i is 1.
pub fn has_bit(bits: u64, i: usize) -> bool
    requires { i < 64 }
    ensures { result ≡ has_bit bits i }
{
    (bits >> i) % 2 == 1
}

// The bits with bit i.
pub fn with_bit(bits: u64, i: usize) -> u64
    requires { i < 64 }
    ensures { result ≡ with_bit bits i }
{
    bits | (1u64 << i)
}

// The bits without bit i.
pub fn without_bit(bits: u64, i: usize) -> u64
    requires { i < 64 }
    ensures { result ≡ without_bit bits i }
{
    let bit = 1u64 << i;
    (bits | bit) - bit
}

// Whether n is one of 1 to top.
pub fn is_number(top: u16, n: u16) -> bool
    ensures { result ≡ is_number top n }
{
    (1..=top).contains(&n)
}

// Whether n is in the set.
pub fn has(top: u16, bits: u64, n: u16) -> bool
    requires { top ≤ 64 }
    ensures { result ≡ has_number top bits n }
{
    is_number(top, n) && has_bit(bits, usize::from(n - 1))
}

// The set and n.
pub fn with(top: u16, bits: u64, n: u16) -> u64
    requires { top ≤ 64 }
    ensures member { result ≡ with_number top bits n }
    ensures fits { bits < 2 ^ top → result < 2 ^ top }
{
    if is_number(top, n) {
        with_bit(bits, usize::from(n - 1))
    } else {
        bits
    }
}

// The set but n.
#[tactic(auto, using(crate::proofs::Bits::without_number_fits))]
pub fn without(top: u16, bits: u64, n: u16) -> u64
    requires { top ≤ 64 }
    ensures member { result ≡ without_number top bits n }
    ensures fits { bits < 2 ^ top → result < 2 ^ top }
{
    if is_number(top, n) {
        without_bit(bits, usize::from(n - 1))
    } else {
        bits
    }
}
