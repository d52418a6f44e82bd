// Curves built in the unit: a pair's curve from a knee and a thermal voltage in microvolts, and a circuit file with its curve built anew.
#![tactic(auto)]

mod column;

ghost use Rattle.std.specs.Prelude.{◌≡◌};
ghost use Rattle.circuit.specs.Counting.{table};
ghost use Rattle.circuit.specs.Record.{column_limit};
ghost use Rattle.circuit.specs.Knee.{knee_column, with_curve, turning};
ghost use Rattle.circuit.specs.Promises.{Builds, Turns};

use circuit::{Built, COLUMNS, Column, CurveKind, FILE_LENGTH, Knob, Record, Refusal};
use column::Sound;

// As many columns as a record has room for.
const WIDTH: u8 = COLUMNS as u8;

fn columns(s: Sound) -> [Column; COLUMNS]
    ensures { result ≡ table (knee_column s.knob) column_limit }
{
    std::array::from_fn(move |j| column::column(s, j))
}

// The curve of a pair with the knob's knee and thermal voltage, as a record has it. It is refused with 18 where one of them is below 1, the
// thermal voltage is no multiple of 32, or the last column would be past its limit.
pub fn build(knob: Knob) -> Result<Built, Refusal>
    ensures { Builds knob result }
{
    let Some(sound) = Sound::new(knob) else {
        return Err(Refusal::Voltage);
    };
    Ok(Built {
        kind: CurveKind::Pair,
        width: WIDTH,
        columns: columns(sound),
    })
}

// The record with the curve in place of its own. The resistance that a curve is for stays the record's.
pub fn put(r: &Record, b: &Built) -> Record
    ensures { result ≡ with_curve r.now b.now.kind b.now.width b.now.columns }
{
    Record {
        kind: b.kind,
        width: b.width,
        columns: b.columns,
        ..*r
    }
}

// Writes the circuit file `s` to `out`, with a built curve in place of its own. What is accepted in `s` stays so, and nothing else of it is
// changed. It is refused with 1 to 11 as reading is, with 1 where `out` is not as long as a file, and after these with 18; `out` is then left as
// it is.
pub fn turn(s: &[u8], knob: Knob, out: &mut [u8]) -> Result<(), Refusal>
    ensures { Turns (turning s.now knob out.old) result out.new }
{
    if out.len() != FILE_LENGTH {
        return Err(Refusal::Length);
    }
    let circuit = file::read(s)?;
    let built = build(knob)?;
    let turned = put(&circuit, &built);
    file::write(&turned, out)
}
