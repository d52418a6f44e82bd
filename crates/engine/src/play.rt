// The samples of a run, in order: the plan is laid out once, and each sample starts from the waves that the one before it stored.
ghost use Rattle.std.specs.Prelude.{◌≡◌, ◌*◌, ◌≤◌, List, ℤ, length};
ghost use Rattle.circuit.specs.Numbers.{passes};
ghost use Rattle.circuit.specs.Run.{fresh_waves, stored_waves_rule, play};
ghost use Rattle.engine.specs.Plan.{Seated};
ghost use Rattle.engine.specs.Sample.{Loaded, LaidOut};
ghost use Rattle.engine.specs.Play.{Plays, Playable, Comes};

use crate::curve::{LINES, NO_LINE};
use crate::plan::{Plan, lay_out, slot_at};
use crate::sample::{sample, turned};
use crate::tape::{Samples, Written};
use circuit::{Prepared, Progress, ROWS, Record, Refusal, State, Wave};
use parts::{facing, part_sends, part_taken};

// What goes up from each row with its stored wave, in its slot; the input's slot waits for a sample. By the rows' numbers, here and below: a row gives
// the slot.
pub(crate) fn load(r: &Record, slots: &[u8; ROWS], state: &State) -> [i64; ROWS]
    requires { Seated r.now slots.now }
    ensures { stored_waves_rule r.now state.now.waves ≡ passes → Loaded r.now state.now.waves result }
{
    let mut up = [0i64; ROWS];
    for i in 0..r.count as usize {
        let row = r.row(i);
        let sent = part_sends(row.part, state.waves[i]);
        up[slot_at(slots, i)] = turned(facing(row.reversed), sent as i64);
    }
    up
}

// The stored waves, out of what goes up from the rows next.
pub(crate) fn unload(r: &Record, slots: &[u8; ROWS], up: &[i64; ROWS]) -> State
    requires { Seated r.now slots.now × ((ws : List ℤ) × Loaded r.now ws up.now) }
    ensures { (ws : List ℤ) → Loaded r.now ws up.now → result.waves ≡ ws }
{
    let mut state = State {
        waves: [0i32; ROWS],
    };
    for i in 0..r.count as usize {
        let row = r.row(i);
        let taken = part_taken(row.part, Wave(up[slot_at(slots, i)]));
        state.waves[i] = turned(facing(row.reversed), taken.0) as i32;
    }
    state
}

// How many samples are done, the segment of the last of them, and why no more are done.
#[derive(Clone, Copy)]
pub(crate) struct Stop {
    pub answer: Result<(), Refusal>,
    pub done: usize,
    pub segment: Option<u8>,
}

fn samples<S: Samples, W: Written>(
    plan: &Plan,
    up: &mut [i64; ROWS],
    input: &S,
    out: &mut [W],
) -> Stop
    requires { LaidOut plan.now up.old fresh_waves × (W.width * length (S.samples input.now) ≤ length out.old) }
    ensures { Plays W.shown plan.now up.old (S.samples input.now) out.old result up.new out.new }
{
    let count = input.count();
    let mut down = [0i64; ROWS];
    let mut segment = None;
    for i in 0..count {
        match sample(plan, up, &mut down, input.sample(i)) {
            Ok(finished) => {
                W::put(out, i, finished.output);
                segment = Some(finished.segment);
            }
            Err(fault) => {
                return Stop {
                    answer: Err(fault.at(i)),
                    done: i,
                    segment,
                };
            }
        }
    }
    Stop {
        answer: Ok(()),
        done: count,
        segment,
    }
}

// A call whose record, waves and lengths are not refused; `prepared` are the rows after set-up. That there is room for every output is asked at
// each step down to the samples: slices carry no such fact.
pub(crate) fn play<S: Samples, W: Written>(
    r: &Record,
    prepared: &[Prepared; ROWS],
    state: &State,
    input: &S,
    out: &mut [W],
) -> Progress
    requires { Playable r.now prepared.now state.now.waves × (W.width * length (S.samples input.now) ≤ length out.old) }
    ensures { Comes W.shown (play r.now state.now.waves (S.samples input.now)) out.old result out.new }
{
    let mut lines = [NO_LINE; LINES];
    let plan = lay_out(r, prepared, &mut lines);
    let mut up = load(r, &plan.slots, state);
    let stop = samples(&plan, &mut up, input, out);
    Progress {
        answer: stop.answer,
        done: stop.done,
        segment: stop.segment,
        state: unload(r, &plan.slots, &up),
    }
}
