// The program's argument: how many samples a piece of the take is to have.
ghost use Rattle.std.specs.Prelude.{◌≤◌, IfSome};

use crate::PIECE;
use streams::argument;

// The digits of PIECE, and a number that no argument may ask for.
const DIGITS: usize = 5;

const TOO_MANY: u32 = PIECE as u32 + 1;

// What the first argument asks for, where it is a number from 1 to PIECE. One that is longer than DIGITS counts as empty.
fn samples_of_first(rt: &HostRuntime) -> Option<usize>
    ensures { IfSome result (λ n. n ≤ 10000) }
{
    let mut digits = [0u8; DIGITS];
    let length = argument(rt, 1, &mut digits)?;
    let number = numeral::read(&digits[..length], TOO_MANY)?;
    (1..TOO_MANY).contains(&number).then_some(number as usize)
}

// PIECE where there is no argument, and none where it cannot be told how many are asked for.
pub(crate) fn samples(rt: &HostRuntime) -> Option<usize>
    ensures { IfSome result (λ n. n ≤ 10000) }
{
    if argument(rt, 1, &mut []).is_none() {
        return Some(PIECE);
    }
    if argument(rt, 2, &mut []).is_some() {
        return None;
    }
    samples_of_first(rt)
}
