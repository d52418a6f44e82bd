// What a take carries on where every sample of a call is done: the bytes of a sample that is not whole yet.
ghost use Rattle.std.specs.Prelude.{◌≤◌, ◌≡◌, ◌++◌, length, get_or, take};
ghost use Rattle.circuit.specs.Take.{left_limit, left_over};
ghost use Rattle.circuit.specs.File.{zeros};

use circuit::{Carried, SAMPLE_LENGTH, State};

// The byte at a place of those left over before and the new ones, and 0 past them.
fn byte_at(left: &[u8], more: &[u8], at: usize) -> u8
    ensures { result ≡ get_or (left.now ++ more.now) at 0 }
{
    match left.get(at) {
        Some(byte) => *byte,
        None => more.get(at - left.len()).copied().unwrap_or(0),
    }
}

// The bytes after the last whole sample come first, with zeros after them.
pub(crate) fn carried_on(state: State, left: &[u8], more: &[u8], done: u64) -> Carried
    requires { length left.now ≤ left_limit }
    ensures state { result.state ≡ state }
    ensures left { result.left ≡ take left_limit (left_over (left.now ++ more.now) ++ zeros left_limit) }
    ensures count { result.count ≡ length (left_over (left.now ++ more.now)) }
    ensures done { result.done ≡ done }
    ensures held { result.held ≡ 0 }
{
    let available = left.len() + more.len();
    let at = SAMPLE_LENGTH * (available / SAMPLE_LENGTH);
    Carried {
        state,
        left: [byte_at(left, more, at), byte_at(left, more, at + 1)],
        count: (available - at) as u8,
        done,
        held: 0,
    }
}
