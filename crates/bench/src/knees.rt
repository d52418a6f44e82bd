// Curves built from a knee and a thermal voltage, in microvolts: some of their columns, and both sides of each limit. Then the file of case 1 with
// its curve built anew.
use crate::make::case_1;
use crate::show::Microvolts;
use crate::tally::{Answer, Bench};
use circuit::{FILE_LENGTH, Knob, Refusal};
use std::io;

pub fn cases(bench: &mut Bench) -> io::Result<()> {
    columns(bench)?;
    limits(bench)?;
    turns(bench)
}

// Column j of the curve; where building is refused, it is (0, 0).
fn columns(bench: &mut Bench) -> io::Result<()> {
    const COLUMNS: [(&str, i32, i32, usize, (i32, i32)); 7] = [
        (
            "column 15 of a knee of 1 and a thermal voltage of 32",
            1,
            32,
            15,
            (43, 41),
        ),
        ("its column 61", 1, 32, 61, (181, 57)),
        (
            "column 0 of a knee of 600000 and a thermal voltage of 25856",
            600000,
            25856,
            0,
            (0, 0),
        ),
        ("its column 30", 600000, 25856, 30, (670296, 657340)),
        (
            "column 61 of a knee of 67108684 and a thermal voltage of 32",
            67108684,
            32,
            61,
            (67108864, 67108740),
        ),
        (
            "column 61 of a knee of 4 and a thermal voltage of 11930464",
            4,
            11930464,
            61,
            (67108864, 20781110),
        ),
        (
            "column 30 of a knee of 1 and a thermal voltage of 33",
            1,
            33,
            30,
            (0, 0),
        ),
    ];
    for (label, knee, thermal, j, expected) in COLUMNS {
        let (x, y) = column(Knob { knee, thermal }, j);
        bench.case(
            label,
            format_args!(": {}, {}", Microvolts(x), Microvolts(y)),
            (x, y) == expected,
        )?;
    }
    Ok(())
}

fn column(knob: Knob, j: usize) -> (i32, i32) {
    let column = knee::build(knob)
        .ok()
        .and_then(|built| built.columns.get(j).copied());
    column.map_or((0, 0), |c| (c.x, c.y))
}

fn limits(bench: &mut Bench) -> io::Result<()> {
    const REFUSED: Answer = Err(Refusal::Voltage);
    const LIMITS: [(&str, i32, i32, Answer); 13] = [
        ("a knee of 1 and a thermal voltage of 32", 1, 32, Ok(())),
        ("a knee of 0", 0, 32, REFUSED),
        ("a knee of -2147483648", -2147483648, 32, REFUSED),
        ("a thermal voltage of 0", 1, 0, REFUSED),
        ("a thermal voltage of -32", 1, -32, REFUSED),
        ("a thermal voltage of -2147483648", 1, -2147483648, REFUSED),
        ("a thermal voltage of 31", 1, 31, REFUSED),
        ("a thermal voltage of 33", 1, 33, REFUSED),
        (
            "a thermal voltage of 32, the last x at 67108864 microvolts",
            67108684,
            32,
            Ok(()),
        ),
        (
            "a thermal voltage of 32, the last x at 67108865 microvolts",
            67108685,
            32,
            REFUSED,
        ),
        (
            "a thermal voltage of 11930464, the last x at 67108864 microvolts",
            4,
            11930464,
            Ok(()),
        ),
        (
            "a thermal voltage of 11930464, the last x at 67108865 microvolts",
            5,
            11930464,
            REFUSED,
        ),
        (
            "the largest knee and the largest multiple of 32",
            2147483647,
            2147483616,
            REFUSED,
        ),
    ];
    for (label, knee, thermal, expected) in LIMITS {
        let built = knee::build(Knob { knee, thermal });
        bench.answered(label, built, expected)?;
    }
    Ok(())
}

// A file turned to this knee, with a thermal voltage of 25856.
fn turned(
    bench: &mut Bench,
    label: &str,
    s: &[u8],
    knee: i32,
    out: &mut [u8],
    expected: Answer,
) -> io::Result<()> {
    let knob = Knob {
        knee,
        thermal: 25856,
    };
    let answer = knee::turn(s, knob, out);
    bench.answered(label, answer, expected)
}

// 1 of the buffer comes first, then what reading hands back, then 18. A refusal leaves the buffer.
fn turns(bench: &mut Bench) -> io::Result<()> {
    let mut file = [0; FILE_LENGTH];
    let _ = file::write(&case_1(), &mut file);
    let mut out = [0; FILE_LENGTH];
    turned(
        bench,
        "no file, a knee of 0, to a buffer of 1535 bytes",
        &[],
        0,
        &mut [0; FILE_LENGTH - 1],
        Err(Refusal::Length),
    )?;
    turned(
        bench,
        "no file, a knee of 0",
        &[7; FILE_LENGTH],
        0,
        &mut out,
        Err(Refusal::Check(0)),
    )?;
    turned(
        bench,
        "case 1 with a knee of 0",
        &file,
        0,
        &mut out,
        Err(Refusal::Voltage),
    )?;
    bench.case(
        "case 1 with a knee of 0: the buffer is as it was",
        "",
        out == [0; FILE_LENGTH],
    )?;
    turned(
        bench,
        "case 1 with a knee of 600000 and a thermal voltage of 25856",
        &file,
        600000,
        &mut out,
        Ok(()),
    )?;
    bench.answered("the same, read again", file::read(&out), Ok(()))
}
