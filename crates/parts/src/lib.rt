// What one part of a circuit is to a run: a row's role among the slots, what it sends from its stored wave and what it keeps, which of its waves
// change sign, the row that a tap reads, and the wave from which on a curve answers by its drawn line.
#![tactic(auto)]

ghost use Rattle.std.specs.Prelude.{◌≡◌, cond, eqb, pos};
ghost use Rattle.circuit.specs.Record.{top};
ghost use Rattle.circuit.specs.Sample.{Rounding, whole_waves, part_sends};
ghost use Rattle.parts.specs.Parts.{role_of, facing_of, turn_of, part_taken, mirror_of};
ghost use Rattle.parts.specs.Roles.{index_of};

use circuit::{CurveKind, Element, Part, TOP, WAVE_LIMIT, Wave};

// What a row is to a run, in the order in which a run lays rows out: a reactive leaf, another leaf, the input, an adaptor, a blank row.
#[derive(Clone, Copy)]
pub enum Role {
    Reactive,
    Other,
    Input,
    Adaptor,
    Blank,
}

impl Role {
    // From 0 on: the definitions count the roles by numbers.
    #[tactic(auto, unfolding(crate::specs::Roles::index_of))]
    pub fn index(self) -> usize
        ensures { result ≡ index_of self }
    {
        match self {
            Role::Reactive => 0,
            Role::Other => 1,
            Role::Input => 2,
            Role::Adaptor => 3,
            Role::Blank => 4,
        }
    }
}

#[tactic(auto, unfolding(crate::specs::Parts::role_of, crate::specs::Roles::index_of))]
pub fn role_of(p: Part) -> Role
    ensures { index_of result ≡ role_of p }
{
    match p {
        Part::Blank => Role::Blank,
        Part::Leaf(Element::Capacitor(_) | Element::Inductor(_)) => Role::Reactive,
        Part::Leaf(Element::Resistor(_) | Element::Steady(_, _)) => Role::Other,
        Part::Leaf(Element::Input(_)) => Role::Input,
        Part::Adaptor(_) => Role::Adaptor,
    }
}

// What a row that is no adaptor sends from its stored wave, in microvolts, however adaptors round; the input waits for a sample.
#[tactic(auto, unfolding(circuit::specs::Sample::sends))]
pub fn part_sends(part: Part, stored: i32) -> i32
    ensures { (ρ : Rounding) → result ≡ part_sends (whole_waves ρ) (pos 0) stored part }
{
    match part {
        Part::Leaf(Element::Capacitor(_) | Element::Inductor(_)) => stored,
        Part::Leaf(Element::Steady(_, v)) => v,
        _ => 0,
    }
}

// The stored wave of a row, out of the wave that it is to send next. Only a reactive row has one to take out.
pub fn part_taken(part: Part, next: Wave) -> Wave
    ensures { result.0 ≡ part_taken part next.0 }
{
    let Part::Leaf(Element::Capacitor(_) | Element::Inductor(_)) = part else {
        return Wave(0);
    };
    next
}

// -1 of a reversed leaf, whose waves change sign between it and the tree; else 0. It is a number, as are a turn and a mirror, and no enum: a run
// turns a wave by it without a jump.
pub fn facing(reversed: bool) -> i64
    ensures { result ≡ facing_of reversed }
{
    if reversed { -1 } else { 0 }
}

// -1 of an inductor, which sends the opposite of the wave that came down, and of a reversed input, which sends the opposite of its sample; else 0.
// A reversed leaf's wave that comes down and goes up again has changed sign twice.
pub fn turn(p: Part, reversed: bool) -> i64
    ensures { result ≡ turn_of p reversed }
{
    match p {
        Part::Leaf(Element::Inductor(_)) => -1,
        Part::Leaf(Element::Input(_)) => facing(reversed),
        _ => 0,
    }
}

// The row that a tap reads: at the top the two waves are the top's and the diode's.
pub fn tap_row(tap: u8, last: usize) -> usize
    ensures { result ≡ cond (eqb tap top) last tap }
{
    if tap == TOP { last } else { tap as usize }
}

// Waves below this one are answered by the opposite of the answer to their opposite: of a pair all that are negative, of a single none.
#[tactic(auto, unfolding(crate::specs::Parts::mirror_of))]
pub fn mirror(kind: CurveKind) -> i64
    ensures { result ≡ mirror_of kind }
{
    match kind {
        CurveKind::Single => -(WAVE_LIMIT as i64),
        CurveKind::Unset | CurveKind::Pair => 0,
    }
}
