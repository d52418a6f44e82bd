// A take's own rules: 12 of what is carried beside the waves, 15 of an earlier call, 16 of a call, and 17 of the ending.
ghost use Rattle.std.specs.Prelude.{◌≡◌, eqb, length};
ghost use Rattle.circuit.specs.Numbers.{judge, unless, handed};
ghost use Rattle.circuit.specs.Take.{carried_rule, held_rule, end_rule};
ghost use Rattle.laws.specs.Numbered.{numbered};
ghost use Rattle.takes.specs.Own.{own_rules, room_for};

use circuit::{Carried, LEFT_LIMIT, NO_ROW, OUTPUT_LENGTH, Refusal, SAMPLE_LENGTH, TAKE_LIMIT};

#[tactic(auto, unfolding(circuit::specs::Take::carried_rule, circuit::specs::Numbers::told))]
fn carried_rule(c: &Carried) -> Result<(), Refusal>
    ensures { handed result ≡ numbered 12 (carried_rule c.now) }
{
    let few = c.count as usize <= LEFT_LIMIT;
    let held = (c.held == 0) | (c.held == 15);
    if few & held & (c.done <= TAKE_LIMIT) {
        Ok(())
    } else {
        Err(Refusal::Waves(NO_ROW))
    }
}

#[tactic(auto, unfolding(circuit::specs::Numbers::told, circuit::specs::Take::held_rule))]
fn held_rule(c: &Carried) -> Result<(), Refusal>
    ensures { handed result ≡ numbered 15 (held_rule c.now) }
{
    if c.held == 0 {
        Ok(())
    } else {
        Err(Refusal::Overload(c.done as usize))
    }
}

// 12 and 15.
pub(crate) fn own_rules(c: &Carried) -> Result<(), Refusal>
    ensures { handed result ≡ judge own_rules c.now }
{
    carried_rule(c)?;
    held_rule(c)
}

// A slice has fewer than 2^63 bytes, so that nothing wraps.
#[tactic(auto, unfolding(circuit::specs::Numbers::told))]
pub(crate) fn room_rule(c: &Carried, bytes: &[u8], room: usize) -> Result<(), Refusal>
    ensures { handed result ≡ numbered 16 (unless (eqb room (room_for (length bytes.now) c.now)) 0) }
{
    let whole = (c.count as usize + bytes.len()) / SAMPLE_LENGTH;
    if room == OUTPUT_LENGTH * whole {
        Ok(())
    } else {
        Err(Refusal::Room)
    }
}

#[tactic(auto, unfolding(circuit::specs::Take::end_rule, circuit::specs::Numbers::told))]
pub(crate) fn end_rule(c: &Carried) -> Result<(), Refusal>
    ensures { handed result ≡ numbered 17 (end_rule c.now) }
{
    if c.count == 0 {
        Ok(())
    } else {
        Err(Refusal::LeftOver(c.done as usize))
    }
}
