// The columns of a knob, and rule 18, in whole microvolts. No product reaches 2^63, whatever the knob is; where it is not refused, x and y
// keep 2^26.
ghost use Rattle.std.specs.Prelude.{true, false, IfSome, IfNone, ◌≡◌, suc, ◌≤◌, ◌<◌, pos, ◌*ℤ◌};
ghost use Rattle.std.specs.Int.Signed.{shr_z};
ghost use Rattle.circuit.specs.Record.{column_limit};
ghost use Rattle.circuit.specs.Omega.{omega_parts};
ghost use Rattle.circuit.specs.Knee.{x_at, knee_column, sound_knob};

use circuit::{COLUMNS, Column, Knob, WAVE_LIMIT};

// The last column, counted as those after column 0 are.
const LAST: usize = COLUMNS - 2;

// x of column k + 1.
fn x_at(knob: Knob, k: usize) -> i64
    requires { k ≤ 60 }
    ensures { result ≡ x_at knob k }
{
    let threes = (k * 3) as i64;
    let wide = knob.thermal as i64;
    (knob.knee as i64) + ((threes * wide) >> 5)
}

// Rule 18.
fn is_sound(knob: Knob) -> bool
    ensures { result ≡ sound_knob knob }
{
    let last = x_at(knob, LAST);
    let whole = knob.thermal % 32 == 0;
    (1 <= knob.knee) & (1 <= knob.thermal) & whole & (last <= WAVE_LIMIT as i64)
}

// A knob that rule 18 passes.
#[derive(Clone, Copy)]
pub(crate) struct Sound {
    knob: Knob,
    ghost passed: { sound_knob knob ≡ true },
}

impl Sound {
    pub(crate) fn new(knob: Knob) -> Option<Self>
        ensures passed { IfSome result (λ s. s.knob ≡ knob) }
        ensures refused { IfNone result (sound_knob knob ≡ false) }
    {
        if is_sound(knob) {
            Some(Sound { knob })
        } else {
            None
        }
    }
}

// Half of what y lies behind x, by Omega's entry.
fn lag(v: i32, w: u32) -> i64
    ensures { result ≡ shr_z (v *ℤ pos w) omega_parts }
{
    ((v as i64) * (w as i64)) >> 24
}

// Column k + 1: from one of these to the next there are 24 entries of Omega's table.
fn column_after(s: Sound, k: usize) -> Column
    requires { k ≤ 60 }
    ensures { result ≡ knee_column s.knob (suc k) }
{
    let x = x_at(s.knob, k);
    let w = omega::entry(24 * k);
    let y = x - 2 * lag(s.knob.thermal, w);
    Column {
        x: x as i32,
        y: y as i32,
    }
}

// Column j.
pub(crate) fn column(s: Sound, j: usize) -> Column
    requires { j < column_limit }
    ensures { result ≡ knee_column s.knob j }
{
    if j == 0 {
        return Column { x: 0, y: 0 };
    }
    column_after(s, j - 1)
}
