// Segments: at the own x of a column and just before it, of the last of two samples, where no sample is finished, and of calls of a take.
use crate::make::{case_1, large_inductor, single};
use crate::show::{Segment, Told};
use crate::tally::{Answer, Bench};
use crate::work::{BEFORE, stored};
use circuit::{Progress, Record};
use std::io;

pub fn cases(bench: &mut Bench) -> io::Result<()> {
    columns(bench)?;
    last(bench)?;
    nothing(bench)?;
    calls(bench)
}

fn columns(bench: &mut Bench) -> io::Result<()> {
    const SINGLE: [(&str, i32, u8); 4] = [
        ("a single from -4 on, at -5", -5, 0),
        ("a single from -4 on, at -4", -4, 1),
        ("a single from -4 on, at -1", -1, 1),
        ("a single from -4 on, at 0", 0, 2),
    ];
    const PAIR: [(&str, i32, u8); 6] = [
        ("a sample of 1333, 999 microvolts at the diode", 1333, 1),
        ("a sample of 1334, 1000 microvolts at the diode", 1334, 2),
        ("a sample of 2666, 1999 microvolts at the diode", 2666, 2),
        ("a sample of 2667, 2000 microvolts at the diode", 2667, 3),
        ("a sample of -1332, -999 microvolts at the diode", -1332, 1),
        ("a sample of -1333, -1000 microvolts at the diode", -1333, 2),
    ];
    // Three quarters of the sample reach the diode, rounded down; its columns are at 0, 1000 and 2000.
    let r = case_1();
    for (label, x, segment) in PAIR {
        run_shown(bench, label, run(&r, 0, [x]), Some(segment))?;
    }
    // The sample itself reaches this diode, whose columns are at -4 and 0.
    let r = single((-4, -4), (0, 0));
    for (label, x, segment) in SINGLE {
        run_shown(bench, label, run(&r, 0, [x]), Some(segment))?;
    }
    Ok(())
}

fn last(bench: &mut Bench) -> io::Result<()> {
    const INPUTS: [(&str, [i32; 2], Option<u8>); 4] = [
        ("a sample of 4000 and then one of 100", [4000, 100], Some(1)),
        ("a sample of 100 and then one of 4000", [100, 4000], Some(3)),
        (
            "a sample of 4000 and then one past its limit",
            [4000, 16777217],
            Some(3),
        ),
        (
            "a sample past its limit and then one of 4000",
            [16777217, 4000],
            None,
        ),
    ];
    let r = case_1();
    for (label, input, segment) in INPUTS {
        run_shown(bench, label, run(&r, 0, input), segment)?;
    }
    Ok(())
}

// At the large inductor's leaf a wave is past its limit, after the diode has answered.
fn nothing(bench: &mut Bench) -> io::Result<()> {
    let r = case_1();
    run_shown(bench, "no sample", run(&r, 0, []), None)?;
    let roomy = engine::run(&r, stored(0), &[], &mut [BEFORE]);
    run_shown(bench, "no sample, and room for one output", roomy, None)?;
    run_shown(
        bench,
        "a sample of 4000, and a wave stored at a resistor",
        run(&r, 1, [4000]),
        None,
    )?;
    let slow = Record { rate: 7999, ..r };
    run_shown(
        bench,
        "a sample of 4000 at rate 7999",
        run(&slow, 0, [4000]),
        None,
    )?;
    run_shown(
        bench,
        "a wave past its limit at the large inductor",
        run(&large_inductor(), -67106865, [16777216]),
        None,
    )
}

// These samples, with this wave stored before them.
fn run<const N: usize>(r: &Record, wave: i32, input: [i32; N]) -> Progress {
    engine::run(r, stored(wave), &input, &mut [BEFORE; N])
}

fn run_shown(
    bench: &mut Bench,
    label: &str,
    run: Progress,
    expected: Option<u8>,
) -> io::Result<()> {
    shown(bench, label, run.answer, run.segment, expected)
}

fn shown(
    bench: &mut Bench,
    label: &str,
    answer: Answer,
    segment: Option<u8>,
    expected: Option<u8>,
) -> io::Result<()> {
    bench.case(
        label,
        format_args!("{}{}", Told(answer), Segment(segment)),
        segment == expected,
    )
}

// A sample of 4000 in three bytes, two of them, and the three with no room.
fn calls(bench: &mut Bench) -> io::Result<()> {
    call(
        bench,
        "a take's call with a sample of 4000",
        &[160, 15, 0],
        &mut [0; 4],
        Some(3),
    )?;
    call(
        bench,
        "a take's call with two bytes",
        &[160, 15],
        &mut [],
        None,
    )?;
    call(
        bench,
        "a take's call with a sample and no room",
        &[160, 15, 0],
        &mut [],
        None,
    )
}

fn call(
    bench: &mut Bench,
    label: &str,
    bytes: &[u8],
    room: &mut [u8],
    expected: Option<u8>,
) -> io::Result<()> {
    let feed = takes::feed(&case_1(), takes::start(), bytes, room);
    shown(bench, label, feed.answer, feed.segment, expected)
}
