// The heading, which is block 0, and the record that a whole file holds.
ghost use Rattle.std.specs.Prelude.{◌≡◌};
ghost use Rattle.circuit.specs.File.{kind_number, kind_of, heading, record_of};
ghost use Rattle.blocks.specs.Placing.{begun};

use crate::{field, items};
use circuit::{BLOCK_LENGTH, CHECK_PLACE, CurveKind, FILE_LENGTH, Record};

// Where the fields end, and how many bytes are left between them and the check.
pub(crate) const END: usize = 24;

pub(crate) const LEFT: usize = CHECK_PLACE - END;

// A number past the list of kinds is read as unset, and refused elsewhere. A `From` could stand only in the crate of the kinds, which knows no
// file.
fn kind_of(n: u8) -> CurveKind
    ensures { result ≡ kind_of n }
{
    match n {
        1 => CurveKind::Single,
        2 => CurveKind::Pair,
        _ => CurveKind::Unset,
    }
}

fn kind_number(kind: CurveKind) -> u8
    ensures { result ≡ kind_number kind }
{
    match kind {
        CurveKind::Unset => 0,
        CurveKind::Single => 1,
        CurveKind::Pair => 2,
    }
}

pub(crate) fn heading_block(r: &Record) -> [u8; BLOCK_LENGTH]
    ensures { result ≡ begun (heading r.now) }
{
    let mut b = [0u8; BLOCK_LENGTH];
    field::put(&mut b, 0, &r.version.to_le_bytes());
    field::put(&mut b, 2, &[r.count, r.tap, kind_number(r.kind), r.width]);
    field::put(&mut b, 8, &r.rate.to_le_bytes());
    field::put(&mut b, 16, &field::float_bytes(r.resistance));
    b
}

#[tactic(auto, unfolding(circuit::specs::File::record_of), using(crate::proofs::Digits::byte_at))]
pub(crate) fn record_of(s: &[u8; FILE_LENGTH]) -> Record
    ensures { result ≡ record_of s.now }
{
    Record {
        version: field::pair(s, 0),
        rate: field::word(s, 8),
        count: s[2],
        tap: s[3],
        rows: items::items(s),
        kind: kind_of(s[4]),
        width: s[5],
        columns: items::items(s),
        resistance: field::float(s, 16),
    }
}
