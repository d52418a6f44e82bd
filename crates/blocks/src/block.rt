// A block of a file: its check, and the place for it in the last four bytes.
ghost use Rattle.std.specs.Prelude.{◌≡◌, ◌+◌, ◌*◌, ◌≤◌, length};
ghost use Rattle.circuit.specs.File.{block_length, check_of, wrong_check};
ghost use Rattle.blocks.specs.Placing.{placed, sealed};

use crate::field;
use circuit::{BLOCK_LENGTH, CHECK_PLACE};

// The words that are summed stand before the check.
const WORDS: usize = 127;

// The check of block `k`.
fn check_of(s: &[u8], k: u8) -> u32
    requires { length s.now ≡ block_length }
    ensures { result ≡ check_of k s.now }
{
    let mut sum: u64 = 0;
    // As a chain with `sum` this needs two more laws and four answers.
    for i in 0..WORDS {
        sum += u64::from(field::word(s, 4 * i));
    }
    ((sum + k as u64 + 1) % 4294967296) as u32
}

// Whether the check of block `k` of a file is wrong.
pub(crate) fn is_wrong(s: &[u8], k: u8) -> bool
    requires { block_length * k + block_length ≤ length s.now }
    ensures { result ≡ wrong_check s.now k }
{
    let a = BLOCK_LENGTH * k as usize;
    let e = a + BLOCK_LENGTH;
    let b = &s[a..e];
    field::word(b, CHECK_PLACE) != check_of(b, k)
}

// Block `k` of a file, with its check.
pub(crate) fn write(out: &mut [u8], k: u8, mut b: [u8; BLOCK_LENGTH])
    requires { block_length * k + block_length ≤ length out.old }
    ensures { out.new ≡ placed out.old (block_length * k) (sealed k b) }
{
    let check = check_of(&b, k);
    field::put(&mut b, CHECK_PLACE, &check.to_le_bytes());
    field::put(out, BLOCK_LENGTH * k as usize, &b);
}
