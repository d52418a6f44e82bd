// Set-up: cases 1, 6, 10 and 12, and both sides of each limit that it judges.
use crate::make;
use crate::make::{adaptor, case_1, case_1_with, case_6, with_curve, with_part};
use crate::tally::{Answer, Bench};
use circuit::{Element, Join, Part, Prepared, Record, Refusal};
use std::io;

pub fn cases(bench: &mut Bench) -> io::Result<()> {
    prepared(
        bench,
        "case 1, input 1000 ohms and resistor 3000 ohms in parallel",
        &case_1(),
        12582912,
        750.0,
    )?;
    prepared(
        bench,
        "case 6, the same two in series",
        &case_6(),
        4194304,
        4000.0,
    )?;
    versions(bench)?;
    marks(bench)?;
    counts(bench)?;
    widths(bench)?;
    rates(bench)?;
    trees(bench)?;
    values(bench)?;
    columns(bench)?;
    fits(bench)
}

// The ratio and the port resistance that row 2 is prepared with.
fn prepared(bench: &mut Bench, label: &str, r: &Record, ratio: u32, ohms: f64) -> io::Result<()> {
    let top = setup::set_up(r).map_or(Prepared::blank(), |rows| rows[2]);
    bench.case(
        label,
        format_args!(": ratio {}, top {} ohms", top.ratio, top.resistance),
        top.ratio == ratio && top.resistance == ohms,
    )
}

fn judged(bench: &mut Bench, label: &str, r: &Record, expected: Answer) -> io::Result<()> {
    bench.answered(label, setup::set_up(r), expected)
}

// A row count of 32 is 4 in version 2.
fn versions(bench: &mut Bench) -> io::Result<()> {
    const VERSIONS: [(&str, u16, Answer); 4] = [
        ("version 0", 0, Err(Refusal::Version)),
        ("version 2", 2, Ok(())),
        ("version 3", 3, Err(Refusal::Version)),
        ("version 65535", 65535, Err(Refusal::Version)),
    ];
    let r = case_1();
    for (label, version, expected) in VERSIONS {
        judged(bench, label, &Record { version, ..r }, expected)?;
    }
    judged(
        bench,
        "version 3 and row count 32",
        &Record {
            version: 3,
            count: 32,
            ..r
        },
        Err(Refusal::Version),
    )
}

fn marks(bench: &mut Bench) -> io::Result<()> {
    let r = case_1();
    judged(bench, "a resistor reversed", &make::reversed(r, 1), Ok(()))?;
    judged(
        bench,
        "an adaptor reversed",
        &make::reversed(r, 2),
        Err(Refusal::Form),
    )?;
    judged(
        bench,
        "a blank row reversed",
        &make::reversed(r, 3),
        Err(Refusal::Form),
    )
}

// Row counts.
fn counts(bench: &mut Bench) -> io::Result<()> {
    let longest = make::longest();
    let past = Record {
        count: 32,
        ..longest
    };
    judged(bench, "case 12, row count 32", &past, Err(Refusal::Form))?;
    judged(bench, "row count 31", &longest, Ok(()))?;
    let alone = make::alone();
    judged(bench, "row count 1", &alone, Ok(()))?;
    let none = Record { count: 0, ..alone };
    judged(bench, "row count 0", &none, Err(Refusal::Form))
}

// Column counts, and what lies past the counts.
fn widths(bench: &mut Bench) -> io::Result<()> {
    const WIDTHS: [(&str, u8, Answer); 4] = [
        ("column count 1", 1, Err(Refusal::Form)),
        ("column count 2", 2, Ok(())),
        ("column count 62", 62, Ok(())),
        ("column count 63", 63, Err(Refusal::Form)),
    ];
    let r = case_1();
    for (label, width, expected) in WIDTHS {
        judged(bench, label, &make::with_width(r, width), expected)?;
    }
    judged(
        bench,
        "a blank row below the count",
        &Record { count: 4, ..r },
        Err(Refusal::Form),
    )?;
    judged(
        bench,
        "a resistor past the row count",
        &with_part(r, 3, Part::Leaf(Element::Resistor(1000.0))),
        Err(Refusal::Form),
    )?;
    let longer = with_curve(r, &[(0, 0), (1000, 1000), (2000, 0), (3000, 0)]);
    judged(
        bench,
        "a column past the column count that is not (0,0)",
        &Record { width: 3, ..longer },
        Err(Refusal::Form),
    )
}

fn rates(bench: &mut Bench) -> io::Result<()> {
    const RATES: [(&str, u32, Answer); 4] = [
        ("case 12, rate 7999", 7999, Err(Refusal::Rate)),
        ("case 12, rate 8000", 8000, Ok(())),
        ("rate 768000", 768000, Ok(())),
        ("rate 768001", 768001, Err(Refusal::Rate)),
    ];
    let r = case_1();
    for (label, rate, expected) in RATES {
        judged(bench, label, &Record { rate, ..r }, expected)?;
    }
    Ok(())
}

// Children, taps and inputs.
fn trees(bench: &mut Bench) -> io::Result<()> {
    let r = case_1();
    judged(
        bench,
        "an adaptor that is its own second child",
        &with_part(r, 2, adaptor(Join::Parallel, 0, 2)),
        Err(Refusal::Tree(2)),
    )?;
    judged(
        bench,
        "row 0 twice a child, row 1 not at all",
        &with_part(r, 2, adaptor(Join::Parallel, 0, 0)),
        Err(Refusal::Tree(0)),
    )?;
    judged(
        bench,
        "a tap at an adaptor",
        &Record { tap: 2, ..r },
        Err(Refusal::Tree(255)),
    )?;
    judged(
        bench,
        "a tap past the rows",
        &Record { tap: 3, ..r },
        Err(Refusal::Tree(255)),
    )?;
    judged(
        bench,
        "two inputs",
        &case_1_with(Element::Input(3000.0)),
        Err(Refusal::Tree(255)),
    )
}

// The leaf beside the input: what it holds, its resistance, and with it the ratio.
fn values(bench: &mut Bench) -> io::Result<()> {
    const SOURCES: [(&str, i32, Answer); 3] = [
        ("steady source of 16777216 microvolts", 16777216, Ok(())),
        (
            "steady source of 16777217 microvolts",
            16777217,
            Err(Refusal::Value(1)),
        ),
        (
            "steady source of -16777217 microvolts",
            -16777217,
            Err(Refusal::Value(1)),
        ),
    ];
    judged(
        bench,
        "a resistor of 0 ohms",
        &make::resistors(Join::Parallel, 1000.0, 0.0, 750.0),
        Err(Refusal::Value(1)),
    )?;
    for (label, microvolts, expected) in SOURCES {
        let source = Element::Steady(3000.0, microvolts);
        judged(bench, label, &case_1_with(source), expected)?;
    }
    judged(
        bench,
        "resistor 1/1024 ohm",
        &make::resistors(Join::Series, 1.0, 0.0009765625, 1.0009765625),
        Ok(()),
    )?;
    judged(
        bench,
        "resistor below 1/1024 ohm",
        &make::resistors(Join::Series, 1.0, 0.0009765624, 1.0009765625),
        Err(Refusal::Resistance(1)),
    )?;
    judged(
        bench,
        "resistor 1073741824 ohms",
        &make::resistors(Join::Parallel, 1073741824.0, 1073741824.0, 536870912.0),
        Ok(()),
    )?;
    judged(
        bench,
        "resistor 1073741825 ohms",
        &make::resistors(Join::Parallel, 1073741824.0, 1073741825.0, 536870912.0),
        Err(Refusal::Resistance(1)),
    )?;
    judged(
        bench,
        "ratio 1",
        &make::resistors(Join::Series, 1.0, 16777215.0, 16777216.0),
        Ok(()),
    )?;
    judged(
        bench,
        "ratio 0",
        &make::resistors(Join::Series, 1.0, 16777216.0, 16777217.0),
        Err(Refusal::Ratio(2)),
    )
}

fn columns(bench: &mut Bench) -> io::Result<()> {
    const SECONDS: [(&str, (i32, i32), Answer); 4] = [
        (
            "case 10, columns (0,0) (3,4)",
            (3, 4),
            Err(Refusal::Curve(1)),
        ),
        ("case 10, columns (0,0) (3,3)", (3, 3), Ok(())),
        ("a column at 67108864 microvolts", (67108864, 0), Ok(())),
        (
            "a column at 67108865 microvolts",
            (67108865, 0),
            Err(Refusal::Curve(1)),
        ),
    ];
    let r = case_1();
    for (label, second, expected) in SECONDS {
        judged(bench, label, &with_curve(r, &[(0, 0), second]), expected)?;
    }
    judged(
        bench,
        "a single with no column (0,0)",
        &make::single((1, 1), (2, 2)),
        Err(Refusal::Curve(0)),
    )
}

// Case 1 with another curve resistance, where the top's is 750 ohms.
fn fits(bench: &mut Bench) -> io::Result<()> {
    const RESISTANCES: [(&str, f64, Answer); 4] = [
        (
            "curve resistance 1023/1024 of the top's",
            749.267578125,
            Ok(()),
        ),
        (
            "curve resistance below 1023/1024 of the top's",
            749.267578124,
            Err(Refusal::Fit),
        ),
        (
            "curve resistance 1025/1024 of the top's",
            750.732421875,
            Ok(()),
        ),
        (
            "curve resistance above 1025/1024 of the top's",
            750.732421876,
            Err(Refusal::Fit),
        ),
    ];
    for (label, resistance, expected) in RESISTANCES {
        let r = make::resistors(Join::Parallel, 1000.0, 3000.0, resistance);
        judged(bench, label, &r, expected)?;
    }
    Ok(())
}
