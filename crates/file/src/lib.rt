// The circuit file: reading it, and writing it. Its bytes are taken apart and put together in `blocks`, and its record is judged in `setup`.
#![tactic(auto)]

ghost use Rattle.circuit.specs.Promises.{Opens, Reads, Writes};

use circuit::{FILE_LENGTH, Opened, Record, Refusal};

// Reads the file that `s` is, and keeps the rows that set-up prepared of its record.
pub fn open(s: &[u8]) -> Result<Opened, Refusal>
    ensures { Opens s.now result }
{
    let circuit = blocks::read(s)?;
    let rows = setup::set_up(&circuit)?;
    Ok(Opened { circuit, rows })
}

// Reads the file that `s` is, for a caller that needs no rows.
pub fn read(s: &[u8]) -> Result<Record, Refusal>
    ensures { Reads s.now result }
{
    open(s).map(|opened| opened.circuit)
}

// Writes the file of the record to `out`. On refusal `out` is left as it is.
pub fn write(r: &Record, out: &mut [u8]) -> Result<(), Refusal>
    ensures { Writes (record { circuit = r.now; buffer = out.old }) result out.new }
{
    if out.len() != FILE_LENGTH {
        return Err(Refusal::Length);
    }
    setup::set_up(r)?;
    blocks::write(r, out);
    Ok(())
}
