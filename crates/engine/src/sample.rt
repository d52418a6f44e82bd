// One sample: up the adaptors, off the diode, down the adaptors; then the limits, what the tap reads and what the leaves keep.
ghost use Rattle.std.specs.Prelude.{◌≡◌, false, ℕ, suc, ◌<◌, ◌≤◌, ◌+ℤ◌};
ghost use Rattle.std.specs.List.{list_any, range_with_len};
ghost use Rattle.whole.specs.Order.{Abs};
ghost use Rattle.circuit.specs.Counting.{some};
ghost use Rattle.circuit.specs.Curve.{wave_limit};
ghost use Rattle.circuit.specs.Sample.{stored_at};
ghost use Rattle.laws.specs.Accepted.{adaptor_limit};
ghost use Rattle.engine.specs.Wave.{down_limit};
ghost use Rattle.engine.specs.Plan.{floor};
ghost use Rattle.engine.specs.Sweep.{Modest};
ghost use Rattle.engine.specs.Sample.{over_at, leaf_over, Calm, Turn, turned_by, turn_limit, Restored, Restores, Settles, Settled, LaidOut, Samples, refusal_at};

use crate::plan::{FLOOR, Plan};
use crate::slot::wave_at;
use crate::sweep::{swept_down, swept_up};
use circuit::{Doubled, ROWS, Refusal, WAVE_LIMIT, Wave, in_source_limit};

// What is gathered so far, and one wave more, with its limit of 2^26 added. Of a wave over the limit that sum is negative or past 2^27, and leaves a
// bit from 2^27 on.
fn gathered(all: i64, wave: i64) -> i64
    requires { Abs wave (down_limit adaptor_limit) }
    ensures { Calm result → Calm all × Abs wave wave_limit }
{
    all | (wave + WAVE_LIMIT as i64)
}

// Whether what is gathered first, or some wave that arrives at the first `n` slots, may be over its limit: where this says no, none is. A wave just at
// its limit is enough for a yes.
fn may_be_over(first: i64, n: usize, down: &[i64; ROWS]) -> bool
    requires { (n ≤ suc floor) × Modest down.now }
    ensures { result ≡ false → Calm first × ((s : ℕ) → s < n → Abs (stored_at down.now s) wave_limit) }
{
    // by slots, since what is known of a wave is known by its slot
    let mut all = first;
    for s in 0..n {
        all = gathered(all, down[s]);
    }
    (all < 0) | (2 * (WAVE_LIMIT as i64) <= all)
}

// Rule 15, of the waves that arrive at the first `n` slots.
fn any_over(n: usize, down: &[i64; ROWS]) -> bool
    requires { n ≤ floor }
    ensures { result ≡ list_any (over_at down.now) (range_with_len 0 n) }
{
    (0..n).any(|s| !Wave(down[s]).in_limit())
}

// So few leaves beside the input that their slots are looked at one by one.
const FEW: usize = 2;

// Rule 15, of the waves that arrive at the leaves: `n` of them are no input. All are looked at together first, and so are slots that no leaf has: of
// a few, or of all, since a loop of known length is quicker.
fn leaf_over(n: usize, down: &[i64; ROWS]) -> bool
    requires { (n ≤ floor) × Modest down.now }
    ensures { result ≡ leaf_over n down.now }
{
    if FEW < n {
        if !may_be_over(0, FLOOR + 1, down) {
            return false;
        }
    } else {
        if !may_be_over(gathered(0, down[FLOOR]), FEW, down) {
            return false;
        }
    }
    any_over(n, down) | !Wave(down[FLOOR]).in_limit()
}

// A wave as it is, with 0, or its opposite: with -1 all bits are turned, and one is added.
pub(crate) fn turned(turn: i64, a: i64) -> i64
    requires { Turn turn × Abs a turn_limit }
    ensures { result ≡ turned_by turn a }
{
    (a ^ turn) - turn
}

// The first `q` slots, the reactive leaves', keep their waves to send them with the next sample: a capacitor the wave that came down, an inductor its
// opposite.
fn store(turns: &[i64; ROWS], q: usize, down: &[i64; ROWS], up: &mut [i64; ROWS])
    requires { Restores turns.now q up.old down.now }
    ensures { Restored turns.now down.now q up.old up.new }
{
    for s in 0..q {
        up[s] = turned(turns[s], down[s]);
    }
}

// Twice the voltage at a port is the sum of its two waves. Those of a reversed leaf change sign between its slot and the leaf, and so does the sum.
fn tapped(meter: i64, up: Wave, down: Wave) -> Doubled
    requires { Turn meter × Abs up.0 wave_limit × Abs down.0 wave_limit }
    ensures { result.0 ≡ turned_by meter (up.0 +ℤ down.0) }
{
    Doubled(turned(meter, up.0 + down.0) as i32)
}

// What a finished sample comes to: its output, and the segment that the diode used.
#[derive(Clone, Copy)]
pub(crate) struct Finished {
    pub output: Doubled,
    pub segment: u8,
}

// Why a sample is refused: it is past its own limit, with 14, or a wave is, with 15.
#[derive(Clone, Copy)]
pub(crate) enum Fault {
    Loud,
    Over,
}

impl Fault {
    // What is handed back where it is sample i.
    pub fn at(self, i: usize) -> Refusal
        ensures { result ≡ refusal_at self i }
    {
        match self {
            Fault::Loud => Refusal::Sample(i),
            Fault::Over => Refusal::Overload(i),
        }
    }
}

// The end of a sample. Rule 15 at the leaves comes before anything is stored, and the tap reads what its row has sent, not what it sends next.
fn settle(
    plan: &Plan,
    segment: u8,
    up: &mut [i64; ROWS],
    down: &[i64; ROWS],
) -> Result<Finished, Fault>
    requires { Settles plan.now up.old down.now }
    ensures { Settled plan.now segment up.old down.now result up.new }
{
    if leaf_over(plan.adaptors, down) {
        return Err(Fault::Over);
    }
    let output = tapped(plan.meter, wave_at(up, plan.tap), wave_at(down, plan.tap));
    store(&plan.turns, plan.reactive, down, up);
    Ok(Finished { output, segment })
}

// Between samples `up` holds what every leaf but the input sends next; a refused sample keeps that. `down` is room for the sweep down.
pub(crate) fn sample(
    plan: &Plan,
    up: &mut [i64; ROWS],
    down: &mut [i64; ROWS],
    x: i32,
) -> Result<Finished, Fault>
    requires { LaidOut plan.now up.old down.old }
    ensures { Samples plan.now up.old x result up.new down.new }
{
    if !in_source_limit(x) {
        return Err(Fault::Loud);
    }
    let n = plan.adaptors;
    up[FLOOR] = turned(plan.turns[FLOOR], x as i64);
    swept_up(plan, up);
    let risen = Wave(up[FLOOR + n]);
    if !risen.in_limit() {
        return Err(Fault::Over);
    }
    let answer = plan.curve.reflect(risen);
    down[FLOOR + n] = answer.wave.0;
    swept_down(plan, up, down);
    settle(plan, answer.segment, up, down)
}
