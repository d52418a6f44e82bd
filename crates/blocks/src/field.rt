// Numbers as bytes, the lowest first: unsigned, signed of four bytes, and an f64 by its bits.
ghost use Rattle.std.specs.Prelude.{◌≡◌, ◌+◌, ◌≤◌, length, take, drop};
ghost use Rattle.circuit.specs.File.{number_at, signed_at, float_at, float_bytes};
ghost use Rattle.blocks.specs.Placing.{Bytes, placed};

use std::num::{f64_from_bits_with_nan, f64_to_bits_with_nan};

// The bytes from `at` on, as many as the array has.
// Bytes and a place come as two: a struct of both would be made anew for each field, and say no more.
fn array<const N: usize>(s: &[u8], at: usize) -> [u8; N]
    requires { at + N ≤ length s.now }
    ensures { result ≡ take N (drop at s.now) }
{
    let mut a = [0; N];
    a.copy_from_slice(&s[at..at + N]);
    a
}

// No trait of the library has `from_le_bytes`: one of our own would hold these two lines for `pair` and `word`, and a law beside them.
pub(crate) fn pair(s: &[u8], at: usize) -> u16
    requires { at + 2 ≤ length s.now }
    ensures { result ≡ number_at 2 at s.now }
{
    u16::from_le_bytes(array(s, at))
}

pub(crate) fn word(s: &[u8], at: usize) -> u32
    requires { at + 4 ≤ length s.now }
    ensures { result ≡ number_at 4 at s.now }
{
    u32::from_le_bytes(array(s, at))
}

pub(crate) fn signed(s: &[u8], at: usize) -> i32
    requires { at + 4 ≤ length s.now }
    ensures { result ≡ signed_at at s.now }
{
    word(s, at).cast_signed()
}

// The bits of any NaN are read as the NaN.
pub(crate) fn float(s: &[u8], at: usize) -> f64
    requires { at + 8 ≤ length s.now }
    ensures { result ≡ float_at at s.now }
{
    f64_from_bits_with_nan(u64::from_le_bytes(array(s, at)))
}

// Of the NaN, the bits with the sign clear and the highest digit alone set.
pub(crate) fn float_bytes(x: f64) -> [u8; 8]
    ensures { result ≡ float_bytes x }
{
    f64_to_bits_with_nan(x).to_le_bytes()
}

// All of `v`, placed from `at` on. A caller whose numbers lie behind a reference learns here that they are bytes.
pub(crate) fn put(s: &mut [u8], at: usize, v: &[u8])
    requires { at + length v.now ≤ length s.old }
    ensures after { s.new ≡ placed s.old at v.now }
    ensures held { Bytes v.now }
{
    s[at..at + v.len()].copy_from_slice(v);
}
