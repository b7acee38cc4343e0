#![tactic(auto)]

// Rows of bytes copied into longer ones.
ghost use Rattle.std.specs.Prelude.{◌≡◌, ◌≤◌, ◌++◌, length, take, drop};

// Copies src to the beginning of dst; what is behind stays.
pub fn copy(src: &[u8], dst: &mut [u8])
    requires { length src.now ≤ length dst.old }
    ensures { (length dst.new ≡ length dst.old) × (dst.new ≡ take (length src.now) src.now ++ drop (length src.now) dst.old) }
{
    dst[..src.len()].copy_from_slice(src);
}
