// The block of columns, eight bytes each: x, then y.
ghost use Rattle.circuit.specs.File.{column_length, column_from, column_place, column_fields};
ghost use Rattle.blocks.specs.Lengths.{column_size};

use crate::field;
use crate::items::Item;
use circuit::{BLOCK_LENGTH, Column};

impl Item for Column {
    const LENGTH: usize = 8;

    ghost LENGTH = { column_length };

    const START: usize = BLOCK_LENGTH * 2;

    ghost START = { column_place 0 };

    ghost read_at = { column_from };

    ghost bytes_of = { column_fields };

    fn read(s: &[u8], at: usize) -> Column {
        Column {
            x: field::signed(s, at),
            y: field::signed(s, at + 4),
        }
    }

    fn put(self, b: &mut [u8], at: usize) {
        field::put(b, at, &self.x.to_le_bytes());
        field::put(b, at + 4, &self.y.to_le_bytes());
    }

    ghost long = { column_size };
}
