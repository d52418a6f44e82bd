// The sweeps: waves up from the lowest adaptor to the top, and down again. Adaptor k has its wave at slot FLOOR + 1 + k.
ghost use Rattle.std.specs.Prelude.{◌≡◌, ◌<◌, suc, ◌+◌};
ghost use Rattle.laws.specs.Accepted.{adaptor_limit};
ghost use Rattle.engine.specs.Wave.{way};
ghost use Rattle.engine.specs.Plan.{floor, joint_in};
ghost use Rattle.engine.specs.Sweep.{Climbs, Risen, Drops, Reached};

use crate::plan::{FLOOR, Joint, Plan};
use crate::slot::{put_wave, wave_at};
use crate::wave::{Down, Rounds, TowardZero, sends_down, sends_up};
use circuit::ROWS;

// Adaptor k.
fn joint_at(plan: &Plan, k: usize) -> Joint
    requires { k < adaptor_limit }
    ensures { result ≡ joint_in plan.now.joints k }
{
    plan.joints[k]
}

// The way to round is a type here and a flag of the plan, and whoever sweeps has chosen the type by the flag.
fn sweep_up<R: Rounds>(plan: &Plan, up: &mut [i64; ROWS])
    requires { Climbs plan.now up.old × (R.rounding ≡ way plan.now.inward) }
    ensures { (c : Climbs plan.now up.old) → Risen c.swept.circuit c.swept.wave (suc floor + plan.now.adaptors) up.new }
{
    for k in 0..plan.adaptors {
        let joint = joint_at(plan, k);
        let first = joint.first as usize;
        let second = joint.second as usize;
        let sent = sends_up::<R>(
            joint.join,
            joint.ratio,
            wave_at(up, first),
            wave_at(up, second),
        );
        put_wave(up, FLOOR + 1 + k, sent);
    }
}

// `down` holds the wave that reaches the top, in the top's slot.
fn sweep_down<R: Rounds>(plan: &Plan, up: &[i64; ROWS], down: &mut [i64; ROWS])
    requires { Drops plan.now up.now down.old × (R.rounding ≡ way plan.now.inward) }
    ensures { (c : Drops plan.now up.now down.old) → Reached c.swept.circuit c.swept.wave down.old down.new }
{
    for k in (0..plan.adaptors).rev() {
        let joint = joint_at(plan, k);
        let first = joint.first as usize;
        let second = joint.second as usize;
        let slot = FLOOR + 1 + k;
        let b = sends_down::<R>(
            joint.join,
            joint.ratio,
            wave_at(up, first),
            wave_at(up, second),
            wave_at(up, slot),
            wave_at(down, slot),
        );
        put_wave(down, first, b.first);
        put_wave(down, second, b.second);
    }
}

// Up, whichever way the plan rounds. The way is chosen once for each sweep: with a loop of samples for each way, all else that a sample does would
// be there twice, and rule 15 at the leaves a call in each.
pub(crate) fn swept_up(plan: &Plan, up: &mut [i64; ROWS])
    requires { Climbs plan.now up.old }
    ensures { (c : Climbs plan.now up.old) → Risen c.swept.circuit c.swept.wave (suc floor + plan.now.adaptors) up.new }
{
    if plan.inward {
        sweep_up::<TowardZero>(plan, up);
    } else {
        sweep_up::<Down>(plan, up);
    }
}

// Down, likewise.
pub(crate) fn swept_down(plan: &Plan, up: &[i64; ROWS], down: &mut [i64; ROWS])
    requires { Drops plan.now up.now down.old }
    ensures { (c : Drops plan.now up.now down.old) → Reached c.swept.circuit c.swept.wave down.old down.new }
{
    if plan.inward {
        sweep_down::<TowardZero>(plan, up, down);
    } else {
        sweep_down::<Down>(plan, up, down);
    }
}
