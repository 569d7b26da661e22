// Bytes copied into a lent buffer.

ghost use Rattle.std.specs.Prelude.{◌≡◌, ◌+◌, ◌≤◌, length};
ghost use Rattle.rules.specs.Buffers.{Wrote};

use std::simd::Simd;

// Copies K to 2 K bytes: the first K and the last K, which may overlap. By `Simd` each is one load and one store; `copy_from_slice` would
// first test whether the two slices overlap.
#[inline(always)]
fn copy_ends<const K: usize>(bytes: &[u8], to: &mut [u8])
    requires size { length to.old ≡ length bytes.now }
    requires covers { (K ≤ length bytes.now) × (length bytes.now ≤ K + K) }
    ensures { to.new ≡ bytes.now }
{
    let last = bytes.len() - K;
    Simd::<u8, K>::from_slice(bytes).copy_to_slice(to);
    Simd::<u8, K>::from_slice(&bytes[last..]).copy_to_slice(&mut to[last..]);
}

// Copies as many bytes as the slices have, by a loop, of which the compiler makes wide steps or a call of `memcpy`. `copy_from_slice` would
// ask the C library for `memmove`, which nothing else in the archive needs.
fn copy_each(bytes: &[u8], to: &mut [u8])
    requires { length to.old ≡ length bytes.now }
    ensures { to.new ≡ bytes.now }
{
    for i in 0..bytes.len() {
        to[i] = bytes[i];
    }
}

// Writes the bytes into out from `at` on, and answers the place after them. Most texts are short: those take two copies of a fixed
// size, which need neither a loop nor a call of the C library.
// Buffer and place go as two: a struct of both could not say that the text still fits, which each function asks of its own text.
pub fn copy(bytes: &[u8], out: &mut [u8], at: usize) -> usize
    requires { at + length bytes.now ≤ length out.old }
    ensures { Wrote out.old at bytes.now out.new result }
{
    let end = at + bytes.len();
    let to = &mut out[at..end];
    match bytes.len() {
        0 => (),
        1 => copy_ends::<1>(bytes, to),
        2..=3 => copy_ends::<2>(bytes, to),
        4..=7 => copy_ends::<4>(bytes, to),
        8..=16 => copy_ends::<8>(bytes, to),
        _ => copy_each(bytes, to),
    }
    end
}
