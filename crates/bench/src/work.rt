// What the cases share: a run, and the states that it begins and ends with.
use crate::tally::Answer;
use circuit::{Record, Refusal, State};

// What stands in an output before a run.
pub const BEFORE: i32 = 77;

// The row of the only leaf that can store a wave in the bench's circuits.
pub const STORING: usize = 1;

// What a run hands back, with its outputs.
#[derive(Clone, Copy, PartialEq, Eq)]
pub struct Ran<const N: usize> {
    pub answer: Answer,
    pub done: usize,
    pub outputs: [i32; N],
    pub state: State,
}

// These samples from this stored wave.
pub fn run<const N: usize>(r: &Record, wave: i32, input: [i32; N]) -> Ran<N> {
    let mut outputs = [BEFORE; N];
    let run = engine::run(r, stored(wave), &input, &mut outputs);
    Ran {
        answer: run.answer,
        done: run.done,
        outputs,
        state: run.state,
    }
}

// What a sample should hand back: its output and the stored wave after it, or its refusal, which leaves both as they are.
pub fn of_sample(wave: i32, expected: Result<(i32, i32), Refusal>) -> Ran<1> {
    let (output, after) = expected.unwrap_or((BEFORE, wave));
    Ran {
        answer: expected.and(Ok(())),
        done: expected.is_ok() as usize,
        outputs: [output],
        state: stored(after),
    }
}

// A fresh state, but for this stored wave.
pub fn stored(wave: i32) -> State {
    let mut state = setup::fresh();
    state.waves[STORING] = wave;
    state
}
