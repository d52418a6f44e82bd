// One sample from a fresh state: cases 2 to 7, 9 and 12, each tap, each piece of a curve, both versions, reversed leaves, and both sides of each
// limit of a sample.
use crate::make;
use crate::make::{alone, case_1, case_6, single, with_curve};
use crate::show::{Microvolts, Output, Told};
use crate::tally::Bench;
use crate::work::{of_sample, run};
use circuit::{Element, Record, Refusal, TOP};
use std::io;

pub fn cases(bench: &mut Bench) -> io::Result<()> {
    const CASES: [(&str, i32, i32); 4] = [
        ("case 2", 4000, 2000),
        ("case 3", -4000, -2000),
        ("case 4", 1, 0),
        ("case 5", -1, -2),
    ];
    let parallel = case_1();
    for (label, x, output) in CASES {
        sample(bench, label, &parallel, x, Ok(output))?;
    }
    let series = case_6();
    sample(bench, "case 6", &series, 4000, Ok(-4500))?;
    tapped(bench, "case 7", &series, TOP, -2000)?;
    taps(bench)?;
    pieces(bench)?;
    past_last(bench)?;
    left_of_first(bench)?;
    longest(bench)?;
    versions(bench)?;
    reversals(bench)?;
    limits(bench)
}

// Case 2 and case 6 are tapped at the second child.
fn taps(bench: &mut Bench) -> io::Result<()> {
    let r = case_1();
    tapped(bench, "parallel, tapped at the first child", &r, 0, 2000)?;
    tapped(bench, "parallel, tapped at the top", &r, TOP, 2000)?;
    let r = case_6();
    tapped(bench, "series, tapped at the first child", &r, 0, 6500)?;
    let r = make::nested();
    tapped(bench, "parallel in series, tap 0", &r, 0, 3000)?;
    tapped(bench, "parallel in series, tap 1", &r, 1, 3000)?;
    tapped(bench, "parallel in series, tap 3", &r, 3, -1000)?;
    tapped(bench, "parallel in series, tap 255", &r, TOP, -2000)
}

// A sample, and its output or its refusal, which leaves the output; no circuit here stores a wave.
fn sample(
    bench: &mut Bench,
    label: &str,
    r: &Record,
    x: i32,
    expected: Result<i32, Refusal>,
) -> io::Result<()> {
    let ran = run(r, 0, [x]);
    let wanted = of_sample(0, expected.map(|output| (output, 0)));
    let [output] = ran.outputs;
    bench.case(
        label,
        format_args!(
            ": sample {}{}{}",
            Microvolts(x),
            Told(ran.answer),
            Output(output)
        ),
        ran == wanted,
    )
}

// Sample 4000, with the tap at this row.
fn tapped(bench: &mut Bench, label: &str, r: &Record, tap: u8, output: i32) -> io::Result<()> {
    sample(bench, label, &Record { tap, ..*r }, 4000, Ok(output))
}

// The curve's pieces, where the input is alone against the diode and an output is the wave plus the diode's answer.
fn pieces(bench: &mut Bench) -> io::Result<()> {
    const SINGLE: [(&str, i32, i32); 3] = [
        ("a single, left of its first column", -2000, -3000),
        ("a single, between its columns", -500, -750),
        ("a single, past its last column", 1000, 1500),
    ];
    const PAIR: [(&str, i32, i32); 3] = [
        ("case 9, the diode answers 0", 1, 1),
        ("case 9, the diode answers 1", 2, 3),
        ("case 9, the diode answers -1", -2, -3),
    ];
    let r = with_curve(alone(), &[(0, 0), (3, 2)]);
    for (label, x, output) in PAIR {
        sample(bench, label, &r, x, Ok(output))?;
    }
    sample(
        bench,
        "columns (0,0) (1,1) (4,-1), the diode answers 0",
        &with_curve(alone(), &[(0, 0), (1, 1), (4, -1)]),
        2,
        Ok(2),
    )?;
    let r = single((-1000, -500), (0, 0));
    for (label, x, output) in SINGLE {
        sample(bench, label, &r, x, Ok(output))?;
    }
    Ok(())
}

// Past the last column of a pair, on both sides.
fn past_last(bench: &mut Bench) -> io::Result<()> {
    const LAST: [(&str, (i32, i32), i32, i32); 6] = [
        ("past the last column, the last slope 0", (9, 4), 12, 16),
        ("past the last column, the last slope 0", (9, 4), -12, -16),
        ("past the last column, the last slope 1/5", (9, 5), 20, 27),
        ("past the last column, the last slope 1/5", (9, 5), -20, -27),
        ("past the last column, the last slope -2/3", (7, 2), 9, 9),
        ("past the last column, the last slope -2/3", (7, 2), 12, 11),
    ];
    for (label, last, x, output) in LAST {
        let r = with_curve(alone(), &[(0, 0), (4, 4), last]);
        sample(bench, label, &r, x, Ok(output))?;
    }
    Ok(())
}

// Left of the first column of a single.
fn left_of_first(bench: &mut Bench) -> io::Result<()> {
    const FIRST: [(&str, i32, i32); 3] = [
        ("left of the first column, the first slope 0", 0, -11),
        ("left of the first column, the first slope 1", -4, -22),
        ("left of the first column, the first slope -1", 4, 0),
    ];
    for (label, y, output) in FIRST {
        sample(bench, label, &single((-4, y), (0, 0)), -11, Ok(output))?;
    }
    Ok(())
}

// 67108864 microvolts at the diode, one past the last column.
fn longest(bench: &mut Bench) -> io::Result<()> {
    const SLOPES: [(&str, i32, i32); 2] = [
        (
            "past a column at 67108863 microvolts, the last slope 1",
            67108863,
            134217728,
        ),
        (
            "past a column at 67108863 microvolts, the last slope -1",
            -67108863,
            0,
        ),
    ];
    let r = make::sources(0);
    for (label, y, output) in SLOPES {
        let steep = with_curve(r, &[(0, 0), (67108863, y)]);
        sample(bench, label, &steep, 16777216, Ok(output))?;
    }
    Ok(())
}

// What version 2 rounds. With a source of 600 microvolts u is 599 1/4 in parallel, and h alone toward zero would make it 600; in series b1 is
// 450 1/2, and b2 would be 448 without its rounding.
fn versions(bench: &mut Bench) -> io::Result<()> {
    const TAPS: [(&str, u16, u8, i32); 4] = [
        (
            "version 1, b1 is 450 1/2, tapped at the first child",
            1,
            0,
            952,
        ),
        (
            "version 1, b1 is 450 1/2, tapped at the second child",
            1,
            1,
            1048,
        ),
        (
            "version 2, b1 is 450 1/2, tapped at the first child",
            2,
            0,
            951,
        ),
        (
            "version 2, b1 is 450 1/2, tapped at the second child",
            2,
            1,
            1049,
        ),
    ];
    let source = Element::Steady(3000.0, 600);
    let r = Record {
        version: 2,
        ..case_1()
    };
    sample(bench, "version 2, u is 3/4", &r, 1, Ok(0))?;
    sample(bench, "version 2, u is -3/4", &r, -1, Ok(0))?;
    let r = Record {
        version: 2,
        ..make::case_1_with(source)
    };
    sample(bench, "version 2, u is 599 1/4", &r, 599, Ok(1198))?;
    let r = make::case_6_with(source);
    for (label, version, tap, output) in TAPS {
        let r = Record { version, tap, ..r };
        sample(bench, label, &r, 501, Ok(output))?;
    }
    Ok(())
}

// Case 6 with the meter's sign; an input alone, where the leaf has 4000 and -2000 and the diode -4000 and 2000; and a steady source against the input.
fn reversals(bench: &mut Bench) -> io::Result<()> {
    let r = make::reversed(case_6(), 1);
    tapped(bench, "case 6, its resistor reversed", &r, 1, 4500)?;
    tapped(bench, "an input alone, tap 0", &alone(), 0, 2000)?;
    let r = make::reversed(alone(), 0);
    tapped(bench, "an input alone and reversed, tap 0", &r, 0, 2000)?;
    tapped(
        bench,
        "an input alone and reversed, tap 255",
        &r,
        TOP,
        -2000,
    )?;
    let r = make::reversed(make::case_6_with(Element::Steady(3000.0, 600)), 1);
    tapped(bench, "a reversed source in series, tap 0", &r, 0, 6800)?;
    tapped(bench, "a reversed source in series, tap 1", &r, 1, 4800)?;
    tapped(
        bench,
        "a reversed source in series, tap 255",
        &r,
        TOP,
        -2000,
    )
}

// Of a sample, and of a wave at the diode.
fn limits(bench: &mut Bench) -> io::Result<()> {
    const PARALLEL: [(&str, i32, Result<i32, Refusal>); 4] = [
        ("case 12", 16777217, Err(Refusal::Sample(0))),
        ("case 12", 16777216, Ok(2000)),
        ("past the lower limit", -16777217, Err(Refusal::Sample(0))),
        ("the lower limit", -16777216, Ok(-2000)),
    ];
    let r = case_1();
    for (label, x, expected) in PARALLEL {
        sample(bench, label, &r, x, expected)?;
    }
    let r = make::sources(0);
    sample(
        bench,
        "67108864 microvolts at the diode",
        &r,
        16777216,
        Ok(2000),
    )?;
    let r = make::sources(-1);
    sample(
        bench,
        "67108865 microvolts at the diode",
        &r,
        16777216,
        Err(Refusal::Overload(0)),
    )?;
    sample(
        bench,
        "67108866 microvolts at the diode, of a sample past its own limit",
        &r,
        16777217,
        Err(Refusal::Sample(0)),
    )
}
