// Set-up: rules 3 to 11 of a record, of which `wiring` has 4 to 7, and its prepared rows. The lowest number that applies is handed back, with
// its place.
#![tactic(auto)]

ghost use Rattle.std.specs.Prelude.{◌≡◌};
ghost use Rattle.circuit.specs.Run.{fresh_waves};
ghost use Rattle.circuit.specs.Promises.{SetsUp};

mod columns;
mod port;

use circuit::{Prepared, ROWS, Record, Refusal, State, is_version};
use port::Ports;

// The rules in order, over any record at all: the lowest number that applies, with its place, or the prepared rows.
pub fn set_up(r: &Record) -> Result<[Prepared; ROWS], Refusal>
    ensures { SetsUp r.now result }
{
    if !is_version(r.version) {
        return Err(Refusal::Version);
    }
    wiring::judge_record(r)?;
    let rows = port::filled_rows(r);
    Ports { r, rows: &rows }.judge()?;
    Ok(rows)
}

// Every stored wave is 0.
#[tactic(auto, unfolding(circuit::specs::Run::fresh_waves))]
pub fn fresh() -> State
    ensures { result.waves ≡ fresh_waves }
{
    State { waves: [0; ROWS] }
}
