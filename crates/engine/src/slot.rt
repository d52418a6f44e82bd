// What stands in slots: waves.
ghost use Rattle.std.specs.Prelude.{◌≡◌, ◌<◌, set};
ghost use Rattle.circuit.specs.Record.{row_limit};
ghost use Rattle.circuit.specs.Sample.{stored_at};

use circuit::{ROWS, Wave};

// The wave in a slot.
pub(crate) fn wave_at(waves: &[i64; ROWS], slot: usize) -> Wave
    requires { slot < row_limit }
    ensures { result.0 ≡ stored_at waves.now slot }
{
    Wave(waves[slot])
}

pub(crate) fn put_wave(waves: &mut [i64; ROWS], slot: usize, wave: Wave)
    requires { slot < row_limit }
    ensures { waves.new ≡ set waves.old slot wave.0 }
{
    waves[slot] = wave.0;
}
