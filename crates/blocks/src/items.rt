// Items of one length: read out of a file, and written one after another into a block of their own.
ghost use Rattle.std.specs.Prelude.{◌≡◌, ℕ, List, map, ◌+◌, ◌*◌, ◌≤◌, length};
ghost use Rattle.circuit.specs.Counting.{table};
ghost use Rattle.circuit.specs.File.{file_length, check_place, concat};
ghost use Rattle.blocks.specs.Placing.{placed, begun};

use circuit::{BLOCK_LENGTH, FILE_LENGTH};
use std::array;

pub(crate) trait Item: Copy {
    // How many bytes an item has.
    const LENGTH: usize;

    ghost LENGTH: { ℕ };

    // Where item 0 begins in a file, which is where a block does.
    const START: usize;

    ghost START: { ℕ };

    ghost read_at: { ℕ → List ℕ → Self };

    ghost bytes_of: { Self → List ℕ };

    fn read(s: &[u8], at: usize) -> Self
        requires { at + LENGTH ≤ length s.now }
        ensures { result ≡ read_at at s.now };

    fn put(self, b: &mut [u8], at: usize)
        requires { at + LENGTH ≤ length b.old }
        ensures { b.new ≡ placed b.old at (bytes_of self) };

    ghost long: { (x : Self) → length (bytes_of x) ≡ LENGTH };
}

pub(crate) fn items<T: Item, const N: usize>(s: &[u8; FILE_LENGTH]) -> [T; N]
    requires { T.START + T.LENGTH * N ≤ file_length }
    ensures { result ≡ table (λ i. T.read_at (T.START + T.LENGTH * i) s.now) N }
{
    // The clause is for the proof, which else would not know that item i lies in the file.
    array::from_fn(
        |i: usize| -> T
            requires { T.START + T.LENGTH * i + T.LENGTH ≤ length s.now }
        { T::read(s, T::START + T::LENGTH * i) },
    )
}

pub(crate) fn block<T: Item, const N: usize>(items: &[T; N]) -> [u8; BLOCK_LENGTH]
    requires { T.LENGTH * N ≤ check_place }
    ensures fields { result ≡ begun (concat (map T.bytes_of items.now)) }
    ensures room { length (concat (map T.bytes_of items.now)) ≤ check_place }
{
    let mut b = [0u8; BLOCK_LENGTH];
    for (i, item) in items.iter().enumerate() {
        item.put(&mut b, T::LENGTH * i);
    }
    b
}
