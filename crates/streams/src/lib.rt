// What the programs share of their input: bytes and arguments.
#![tactic(auto)]

ghost use Rattle.std.specs.Prelude.{◌≡◌, ◌<◌, ◌≤◌, length, take, IfOk, IfSome};
ghost use Rattle.std.specs.Io.KnownBytes.{Consumes, IsAtEnd};

use std::env::{Env, FillError};
use std::io;
use std::io::Read;

// Reads until the buffer is full or the input ends, and hands back how many bytes stand at its start.
pub fn read_full<R: Read>(from: &mut R, bytes: &mut [u8]) -> io::Result<usize>
    ensures inside { IfOk result (λ n. n ≤ length bytes.new) }
    ensures taken { IfOk result (λ n. Consumes (R.remaining from.old) (R.remaining from.new) (take n bytes.new)) }
    ensures short { IfOk result (λ n. n < length bytes.new → IsAtEnd (R.remaining from.new)) }
    ensures size { length bytes.new ≡ length bytes.old }
{
    let mut count = 0;
    // No range bounds the turns: each counts as many bytes as have come.
    while count < bytes.len() {
        let more = from.read(&mut bytes[count..])?;
        if more == 0 {
            return Ok(count);
        }
        count += more;
    }
    Ok(count)
}

// The program's argument i, of which the first is the program's own name, at the start of the buffer: how many bytes it has, or `None` where
// there is no such argument. One that is longer than the buffer counts as empty. The text itself is not handed back: a proof does not see
// a buffer again that a result has borrowed, so that `size` would be lost.
pub fn argument<E: Env>(from: &E, i: usize, bytes: &mut [u8]) -> Option<usize>
    ensures inside { IfSome result (λ n. n ≤ length bytes.new) }
    ensures size { length bytes.new ≡ length bytes.old }
{
    match from.arg(i, bytes) {
        Ok(count) => Some(count),
        Err(FillError::TooLong) => Some(0),
        Err(FillError::NotPresent) => None,
    }
}
