// What a run lays out of a record before its first sample. Waves stand in slots: the reactive leaves from slot 0 on, then the other leaves, the
// input at FLOOR, and above it the adaptors in the order of their rows, which is that of the sweep. What a sweep reads of adaptor k stands at k,
// and its wave at FLOOR + 1 + k. The last adaptor is the top; where there is none the input is.
ghost use Rattle.std.specs.Prelude.{◌≡◌, ℕ, ◌≤◌, ◌<◌, get_or, nat_eq, count_by};
ghost use Rattle.std.specs.List.{range_with_len};
ghost use Rattle.circuit.specs.Record.{row_limit, part_at, reversed_at};
ghost use Rattle.circuit.specs.Sample.{stored_at};
ghost use Rattle.parts.specs.Parts.{role_of, turn_of};
ghost use Rattle.engine.specs.Plan.{slot_of, reactives, Staged, meter_in, Seated, Layable};
ghost use Rattle.engine.specs.Sample.{Ready, Fixed};

use crate::curve::{Curve, LINES, Line};
use circuit::{Join, Part, Prepared, ROUNDED_DOWN, ROWS, Record, TOP};
use parts::{Role, facing, role_of, tap_row, turn};

// Room for the adaptors of a circuit, and for its leaves but the input.
pub(crate) const JOINTS: usize = ROWS / 2;

// The input's slot.
pub(crate) const FLOOR: usize = JOINTS;

// An adaptor as the sweeps read it.
#[derive(Clone, Copy)]
pub(crate) struct Joint {
    pub join: Join,
    // the slots of its children
    pub first: u8,
    pub second: u8,
    // in parts of 2^24, in the width of a wave
    pub ratio: i64,
}

// All that the samples of a run read.
#[derive(Clone, Copy)]
pub(crate) struct Plan<'a> {
    // whether adaptors round toward zero, and not down
    pub inward: bool,
    // how many adaptors and reactive leaves there are: what is laid out has fixed room, since nothing is allocated
    pub adaptors: usize,
    pub reactive: usize,
    // the slot that the tap reads
    pub tap: usize,
    // -1 where the tap reads a reversed leaf, whose own waves are the opposites of those in its slot; else 0
    pub meter: i64,
    // by places in the sweep
    pub joints: [Joint; JOINTS],
    // by slots: what a reactive leaf and the input turn their waves by
    pub turns: [i64; ROWS],
    // by rows
    pub slots: [u8; ROWS],
    pub curve: Curve<'a>,
}

#[tactic(auto, unfolding(parts::specs::Roles::index_of))]
fn is_reactive(p: Part) -> bool
    ensures { result ≡ nat_eq (role_of p) 0 }
{
    matches!(role_of(p), Role::Reactive)
}

// How many reactive leaves there are.
fn reactive_leaves(r: &Record) -> usize
    ensures { result ≡ count_by (λ j. nat_eq (role_of (part_at r.now j)) 0) (range_with_len 0 r.now.count) }
{
    (0..r.count)
        .filter(|j| is_reactive(r.row(*j as usize).part))
        .count()
}

// The rows' slots; `reactive` is the number of reactive leaves. `next` holds the next slot of each role: of reactive leaves, of other leaves, of the
// input, of adaptors, of blank rows. Here and below by the rows' numbers: each turn writes at a place that the row itself gives.
fn slots_of(r: &Record, reactive: usize) -> [u8; ROWS]
    requires { (r.now.count ≤ row_limit) × (reactive ≡ reactives r.now) }
    ensures { (j : ℕ) → j < r.now.count → get_or result j 0 ≡ slot_of r.now j }
{
    let mut slots = [0u8; ROWS];
    let mut next = [
        0,
        reactive as u8,
        FLOOR as u8,
        FLOOR as u8 + 1,
        FLOOR as u8 + 1,
    ];
    for i in 0..r.count as usize {
        let role = role_of(r.row(i).part).index();
        slots[i] = next[role];
        next[role] += 1;
    }
    slots
}

// The slot of row i.
pub(crate) fn slot_at(slots: &[u8; ROWS], i: usize) -> usize
    requires { i < row_limit }
    ensures { result ≡ get_or slots.now i 0 }
{
    slots[i] as usize
}

// Each adaptor's kind, its children's slots and its ratio, at its place; `prepared` are the rows after set-up. Slots go beside the record, here and
// where waves are loaded: a struct of both would be made anew of a plan and its record in each place.
fn joints_of(r: &Record, prepared: &[Prepared; ROWS], slots: &[u8; ROWS]) -> [Joint; JOINTS]
    requires { Layable r.now prepared.now slots.now }
    ensures { Staged r.now result }
{
    let blank = Joint {
        join: Join::Parallel,
        first: 0,
        second: 0,
        ratio: 0,
    };
    let mut joints = [blank; JOINTS];
    for i in 0..r.count as usize {
        if let Part::Adaptor(a) = r.row(i).part {
            let k = slot_at(slots, i) - FLOOR - 1;
            joints[k] = Joint {
                join: a.join,
                first: slots[a.first as usize],
                second: slots[a.second as usize],
                ratio: prepared[i].ratio as i64,
            };
        }
    }
    joints
}

// The parts' turns, each in its slot.
fn turns_of(r: &Record, slots: &[u8; ROWS]) -> [i64; ROWS]
    requires { Seated r.now slots.now }
    ensures { (j : ℕ) → j < r.now.count → stored_at result (slot_of r.now j) ≡ turn_of (part_at r.now j) (reversed_at r.now j) }
{
    let mut turns = [0i64; ROWS];
    for i in 0..r.count as usize {
        let row = r.row(i);
        turns[slot_at(slots, i)] = turn(row.part, row.reversed);
    }
    turns
}

// What the tap's two waves are turned by. At the top it reads those that reach the diode and come back, whatever is reversed.
fn meter_of(r: &Record) -> i64
    ensures { result ≡ meter_in r.now.rows r.now.tap }
{
    if r.tap == TOP {
        0
    } else {
        facing(r.row(r.tap as usize).reversed)
    }
}

// Lays out all that the samples of a run read; `prepared` are the rows after set-up.
pub(crate) fn lay_out<'a>(
    r: &Record,
    prepared: &[Prepared; ROWS],
    lines: &'a mut [Line; LINES],
) -> Plan<'a>
    requires { Ready r.now prepared.now }
    ensures { Fixed result r.now }
{
    let count = r.count as usize;
    let reactive = reactive_leaves(r);
    let slots = slots_of(r, reactive);
    let read = tap_row(r.tap, count - 1);
    Plan {
        inward: r.version != ROUNDED_DOWN,
        adaptors: count / 2,
        reactive,
        tap: slot_at(&slots, read),
        meter: meter_of(r),
        joints: joints_of(r, prepared, &slots),
        turns: turns_of(r, &slots),
        slots,
        curve: Curve::of(r, lines),
    }
}
