// Runs from stored waves: case 8, a capacitor, both reversed, what a refusal leaves, and both sides of each limit of a run.
use crate::make::{capacitor, case_1, case_8, large_inductor, reversed, sources};
use crate::show::{Microvolts, Output, Told};
use crate::tally::Bench;
use crate::work::{BEFORE, Ran, STORING, of_sample, run, stored};
use circuit::{Record, Refusal};
use std::io;

pub fn cases(bench: &mut Bench) -> io::Result<()> {
    let r = case_8();
    sample(bench, "case 8", &r, 0, 4000, Ok((2000, -2000)))?;
    sample(bench, "case 8", &r, -2000, 0, Ok((-1000, -1000)))?;
    two_samples(
        bench,
        "case 8, samples 4000 and 0 in one run",
        &r,
        [4000, 0],
        done([2000, -1000], -1000),
    )?;
    let r = capacitor();
    sample(bench, "a capacitor", &r, 0, 4000, Ok((2000, 2000)))?;
    sample(bench, "a capacitor", &r, 2000, -4000, Ok((-2000, -4000)))?;
    two_samples(
        bench,
        "a capacitor, samples 4000 and -4000 in one run",
        &r,
        [4000, -4000],
        done([2000, -2000], -4000),
    )?;
    turned(bench)?;
    refused(bench)?;
    limits(bench)?;
    lengths(bench)
}

// Case 8 and the capacitor the other way round.
fn turned(bench: &mut Bench) -> io::Result<()> {
    two_samples(
        bench,
        "case 8, its inductor reversed, samples 4000 and 0 in one run",
        &reversed(case_8(), 1),
        [4000, 0],
        done([-2000, 1000], 1000),
    )?;
    let r = reversed(capacitor(), 1);
    sample(
        bench,
        "a reversed capacitor",
        &r,
        -2000,
        -4000,
        Ok((2000, 4000)),
    )?;
    two_samples(
        bench,
        "a reversed capacitor, samples 4000 and -4000 in one run",
        &r,
        [4000, -4000],
        done([-2000, 2000], 4000),
    )
}

// Where a later sample is refused, the first one's output and wave stay, and the second output is as it was.
fn refused(bench: &mut Bench) -> io::Result<()> {
    two_samples(
        bench,
        "case 8, samples 4000 and 16777217",
        &case_8(),
        [4000, 16777217],
        Ran {
            answer: Err(Refusal::Sample(1)),
            done: 1,
            outputs: [2000, BEFORE],
            state: stored(-2000),
        },
    )?;
    two_samples(
        bench,
        "67108864 and then 67108865 microvolts at the diode",
        &sources(-1),
        [16777215, 16777216],
        Ran {
            answer: Err(Refusal::Overload(1)),
            done: 1,
            outputs: [2000, BEFORE],
            state: stored(0),
        },
    )
}

// At the large inductor's leaf, where the top's wave is far within its limit; and of a stored wave.
fn limits(bench: &mut Bench) -> io::Result<()> {
    let r = large_inductor();
    sample(
        bench,
        "67108864 microvolts at a leaf",
        &r,
        -67106864,
        16777216,
        Ok((2000, -67108864)),
    )?;
    sample(
        bench,
        "67108865 microvolts at a leaf",
        &r,
        -67106865,
        16777216,
        Err(Refusal::Overload(0)),
    )?;
    let r = case_8();
    sample(bench, "an inductor", &r, 67108864, 0, Ok((2000, 67106864)))?;
    sample(
        bench,
        "an inductor",
        &r,
        67108865,
        0,
        Err(Refusal::Waves(1)),
    )?;
    let r = case_1();
    sample(bench, "a resistor", &r, 1, 0, Err(Refusal::Waves(1)))?;
    sample(
        bench,
        "a resistor in version 3",
        &Record { version: 3, ..r },
        1,
        0,
        Err(Refusal::Version),
    )
}

fn lengths(bench: &mut Bench) -> io::Result<()> {
    let r = case_1();
    length(
        bench,
        "two samples and room for one",
        &r,
        &[0; 2],
        Refusal::Lengths,
    )?;
    length(
        bench,
        "no sample and room for one",
        &r,
        &[],
        Refusal::Lengths,
    )?;
    length(
        bench,
        "two samples and room for one, rate 7999",
        &Record { rate: 7999, ..r },
        &[0; 2],
        Refusal::Rate,
    )
}

// One sample, with this wave stored before it; its output and the stored wave after it. A refusal leaves both as they are.
fn sample(
    bench: &mut Bench,
    label: &str,
    r: &Record,
    wave: i32,
    x: i32,
    expected: Result<(i32, i32), Refusal>,
) -> io::Result<()> {
    let ran = run(r, wave, [x]);
    let [output] = ran.outputs;
    bench.case(
        label,
        format_args!(
            ", stored {}, sample {}{}{}, stored {}",
            Microvolts(wave),
            Microvolts(x),
            Told(ran.answer),
            Output(output),
            Microvolts(ran.state.waves[STORING]),
        ),
        ran == of_sample(wave, expected),
    )
}

// Two samples done, with these outputs and the stored wave after them.
fn done(outputs: [i32; 2], wave: i32) -> Ran<2> {
    Ran {
        answer: Ok(()),
        done: 2,
        outputs,
        state: stored(wave),
    }
}

// Two samples from a fresh state.
fn two_samples(
    bench: &mut Bench,
    label: &str,
    r: &Record,
    input: [i32; 2],
    expected: Ran<2>,
) -> io::Result<()> {
    let ran = run(r, 0, input);
    let [first, second] = ran.outputs;
    bench.case(
        label,
        format_args!(
            "{}, samples done {}{}{}, stored {}",
            Told(ran.answer),
            ran.done,
            Output(first),
            Output(second),
            Microvolts(ran.state.waves[STORING]),
        ),
        ran == expected,
    )
}

// These samples and room for one output.
fn length(
    bench: &mut Bench,
    label: &str,
    r: &Record,
    input: &[i32],
    refusal: Refusal,
) -> io::Result<()> {
    let run = engine::run(r, setup::fresh(), input, &mut [BEFORE]);
    bench.answered(label, run.answer, Err(refusal))
}
