// The bytes of a circuit file, in three blocks: what is asked of them before set-up looks at their record, the record that they hold, and the
// bytes of a record. Numbers as bytes are in `field`, a block and its check in `block`, the blocks' contents in `heading`, `row` and `column`,
// and what is asked of them in `rules`.
#![tactic(auto)]

mod block;
mod column;
mod field;
mod heading;
mod items;
mod row;
mod rules;

ghost use Rattle.std.specs.Prelude.{◌≡◌, cond, eqb, length};
ghost use Rattle.circuit.specs.File.{file_length, file_of, no_record};
ghost use Rattle.blocks.specs.Promises.{ReadsBlocks};

use circuit::{COLUMNS, Column, CurveKind, FILE_LENGTH, Part, ROWS, Record, Refusal, Row};

// The record of zeros. Who wants it where a file is refused has it as `read(s).unwrap_or(no_record())`.
pub fn no_record() -> Record
    ensures { result ≡ no_record }
{
    let blank = Row {
        part: Part::Blank,
        reversed: false,
    };
    Record {
        version: 0,
        rate: 0,
        count: 0,
        tap: 0,
        rows: [blank; ROWS],
        kind: CurveKind::Unset,
        width: 0,
        columns: [Column { x: 0, y: 0 }; COLUMNS],
        resistance: 0.0,
    }
}

// Numbers 1 to 4, as far as the bytes say them, and the record of bytes that pass.
pub fn read(s: &[u8]) -> Result<Record, Refusal>
    ensures { ReadsBlocks s.now result }
{
    let Ok(s) = <&[u8; FILE_LENGTH]>::try_from(s) else {
        return Err(Refusal::Length);
    };
    rules::judged(s)?;
    Ok(heading::record_of(s))
}

// Writes the file of any record at all. A buffer that has not a file's length is left as it is.
pub fn write(r: &Record, out: &mut [u8])
    ensures { out.new ≡ cond (eqb (length out.old) file_length) (file_of r.now) out.old }
{
    if out.len() == FILE_LENGTH {
        write_blocks(r, out);
    }
}

fn write_blocks(r: &Record, out: &mut [u8])
    requires { length out.old ≡ file_length }
    ensures { out.new ≡ file_of r.now }
{
    block::write(out, 0, heading::heading_block(r));
    block::write(out, 1, items::block(&r.rows));
    block::write(out, 2, items::block(&r.columns));
}
