// What is asked of a file's bytes, before its record is looked at: checks, version, and that what nothing uses is zero.
ghost use Rattle.std.specs.Prelude.{◌≡◌, ◌+◌, ◌-◌, ◌*◌, ◌≤◌, ◌<◌, length};
ghost use Rattle.circuit.specs.Counting.{every};
ghost use Rattle.circuit.specs.Numbers.{judge, handed};
ghost use Rattle.laws.specs.Numbered.{numbered};
ghost use Rattle.circuit.specs.File.{file_length, block_length, check_place, rows_per_block, row_length, number_at, clear, clear_row, row_place, check_rule, clear_file, file_rules};

use crate::items::Item;
use crate::{block, field, heading};
use circuit::{
    BLOCK_LENGTH, CHECK_PLACE, COLUMNS, Column, FILE_LENGTH, ROWS_PER_BLOCK, Refusal, Row,
    is_version,
};

// Whether the `n` bytes from `at` on are zero. Every byte is asked, whatever the ones before it are: a compiler then asks many at once, where `all`
// would ask them one by one.
fn is_clear(s: &[u8], at: usize, n: usize) -> bool
    requires { at + n ≤ length s.now }
    ensures { result ≡ clear n at s.now }
{
    s[at..at + n]
        .iter()
        .fold(true, |clear, b| clear & (*b == 0))
}

// Whether the bytes between the last of `n` items and the check of their block are zero.
fn is_clear_rest<T: Item>(s: &[u8; FILE_LENGTH], n: usize) -> bool
    requires whole { T.START + block_length ≤ file_length }
    requires room { T.LENGTH * n < check_place }
    ensures { result ≡ clear (check_place - T.LENGTH * n) (T.START + T.LENGTH * n) s.now }
{
    let end = T::LENGTH * n;
    is_clear(s, T::START + end, CHECK_PLACE - end)
}

// Whether a row's kind is in the list, its mark is 0 or 1, and what the kind does not use is zero. All the tests are made: with a branch after
// each, a proof would go through every way past them, and with `matches!(kind, 6 | 7)` too the search gives up.
#[tactic(auto, using(crate::proofs::Digits::byte_at))]
fn is_clear_row(s: &[u8], at: usize) -> bool
    requires { at + row_length ≤ length s.now }
    ensures { result ≡ clear_row (number_at 1 at s.now) at s.now }
{
    let kind = s[at];
    let children = ((6 <= kind) & (kind <= 7)) | is_clear(s, at + 1, 2);
    let mark = s[at + 3] <= 1;
    let microvolts = (kind == 5) | is_clear(s, at + 4, 4);
    let value = ((1 <= kind) & (kind <= 5)) | is_clear(s, at + 8, 8);
    (kind <= 7) & children & mark & microvolts & value
}

fn are_clear_rows(s: &[u8; FILE_LENGTH]) -> bool
    ensures { result ≡ every (λ j. clear_row (number_at 1 (row_place j) s.now) (row_place j) s.now) rows_per_block }
{
    (0..ROWS_PER_BLOCK).all(|j| is_clear_row(s, Row::START + Row::LENGTH * j))
}

// Whether every byte that nothing uses is zero, and the curve's kind is in its list.
#[tactic(auto, unfolding(circuit::specs::File::clear_file), using(crate::proofs::Digits::byte_at))]
fn is_clear_file(s: &[u8; FILE_LENGTH]) -> bool
    ensures { result ≡ clear_file s.now }
{
    s[4] <= 2
        && is_clear(s, 6, 2)
        && is_clear(s, 12, 4)
        && is_clear(s, heading::END, heading::LEFT)
        && are_clear_rows(s)
        && is_clear_rest::<Row>(s, ROWS_PER_BLOCK)
        && is_clear_rest::<Column>(s, COLUMNS)
}

// The lowest block whose check is wrong. A block's number is a byte.
fn wrong_check(s: &[u8; FILE_LENGTH]) -> Result<(), Refusal>
    ensures { handed result ≡ numbered 2 (check_rule s.now) }
{
    let blocks = (FILE_LENGTH / BLOCK_LENGTH) as u8;
    // `find` is the one search; what a fault is and what it is called is all that is left.
    match (0..blocks).find(|k| block::is_wrong(s, *k)) {
        Some(k) => Err(Refusal::Check(k)),
        None => Ok(()),
    }
}

// Numbers 2 to 4, as far as the bytes say them.
pub(crate) fn judged(s: &[u8; FILE_LENGTH]) -> Result<(), Refusal>
    ensures { handed result ≡ judge file_rules s.now }
{
    wrong_check(s)?;
    if !is_version(field::pair(s, 0)) {
        return Err(Refusal::Version);
    }
    if !is_clear_file(s) {
        return Err(Refusal::Form);
    }
    Ok(())
}
