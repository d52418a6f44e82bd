// The bench's circuits. Every one has version 1, the rate 48,000 and curve K, a pair, unless it is said. Row 0 is an input, and each leaf after it is
// joined with all that is before it.
ghost use Rattle.std.specs.Prelude.{◌<◌, ◌≤◌, length};
ghost use Rattle.circuit.specs.Record.{row_limit, column_limit};

use circuit::{
    Adaptor, COLUMNS, Column, CurveKind, Element, Join, Part, ROWS, Record, Row, SOURCE_LIMIT, TOP,
};

// Curve K.
const K: [(i32, i32); 3] = [(0, 0), (1000, 1000), (2000, 0)];

const BLANK: Row = Row {
    part: Part::Blank,
    reversed: false,
};

pub fn adaptor(join: Join, first: u8, second: u8) -> Part {
    Part::Adaptor(Adaptor {
        join,
        first,
        second,
    })
}

// The rows of a circuit in the making.
#[derive(Clone, Copy)]
struct Tree {
    rows: [Row; ROWS],
    // the row that the next leaf is joined with
    top: u8,
}

impl Tree {
    // An input of this many ohms.
    fn input(ohms: f64) -> Self {
        let mut rows = [BLANK; ROWS];
        rows[0].part = Part::Leaf(Element::Input(ohms));
        Tree { rows, top: 0 }
    }

    // With one more leaf, and the adaptor that joins it with the top; as it is where there is no room for both.
    fn joined(mut self, join: Join, e: Element) -> Self {
        let top = self.top as usize;
        if top + 2 < ROWS {
            self.rows[top + 1].part = Part::Leaf(e);
            self.rows[top + 2].part = adaptor(join, self.top, self.top + 1);
            self.top += 2;
        }
        self
    }

    fn series(self, e: Element) -> Self {
        self.joined(Join::Series, e)
    }

    fn parallel(self, e: Element) -> Self {
        self.joined(Join::Parallel, e)
    }

    // The circuit of these rows, whose curve is made for this resistance.
    fn circuit(self, tap: u8, resistance: f64) -> Record {
        let rows = self.rows;
        Record {
            version: 1,
            rate: 48000,
            count: self.top.saturating_add(1),
            tap,
            rows,
            kind: CurveKind::Pair,
            width: 3,
            columns: columns(&K),
            resistance,
        }
    }
}

// These columns, and (0, 0) behind them.
fn columns(points: &[(i32, i32)]) -> [Column; COLUMNS] {
    let mut columns = [Column { x: 0, y: 0 }; COLUMNS];
    for (column, &(x, y)) in columns.iter_mut().zip(points) {
        *column = Column { x, y };
    }
    columns
}

// An input and a resistor, tapped at the resistor.
pub fn resistors(join: Join, ohms: f64, resistor: f64, resistance: f64) -> Record {
    Tree::input(ohms)
        .joined(join, Element::Resistor(resistor))
        .circuit(1, resistance)
}

pub fn case_1() -> Record {
    resistors(Join::Parallel, 1000.0, 3000.0, 750.0)
}

pub fn case_6() -> Record {
    resistors(Join::Series, 1000.0, 3000.0, 4000.0)
}

// Case 1 and case 6 with another leaf in the place of their resistor.
pub fn case_1_with(second: Element) -> Record {
    Tree::input(1000.0).parallel(second).circuit(1, 750.0)
}

pub fn case_6_with(second: Element) -> Record {
    Tree::input(1000.0).series(second).circuit(1, 4000.0)
}

pub fn case_8() -> Record {
    Tree::input(250.0)
        .parallel(Element::Inductor(0.0078125))
        .circuit(1, 187.5)
}

// The inductor has fifteen times the input's port resistance, so the top's wave is nearly the input's, whatever the inductor sends.
pub fn large_inductor() -> Record {
    Tree::input(250.0)
        .parallel(Element::Inductor(0.0390625))
        .circuit(1, 234.375)
}

// At the rate 32,768 the capacitor's port resistance is that of the input, and the ratio a half.
pub fn capacitor() -> Record {
    let r = Tree::input(1024.0)
        .parallel(Element::Capacitor(0.000000014901161193847656))
        .circuit(1, 512.0);
    Record { rate: 32768, ..r }
}

// An adaptor below another: input 1000 ohms and resistor 3000 ohms in parallel, and with a resistor of 250 ohms in series.
pub fn nested() -> Record {
    Tree::input(1000.0)
        .parallel(Element::Resistor(3000.0))
        .series(Element::Resistor(250.0))
        .circuit(TOP, 1000.0)
}

// One input row against the diode, tapped there.
pub fn alone() -> Record {
    Tree::input(1000.0).circuit(TOP, 1000.0)
}

// The same with a single of two columns.
pub fn single(first: (i32, i32), second: (i32, i32)) -> Record {
    let r = with_curve(alone(), &[first, second]);
    Record {
        kind: CurveKind::Single,
        ..r
    }
}

// An input and four steady sources in series, tapped at the top. The sources add up where their signs alternate.
pub fn sources(last: i32) -> Record {
    Tree::input(1000.0)
        .series(Element::Steady(1000.0, SOURCE_LIMIT))
        .series(Element::Steady(1000.0, -SOURCE_LIMIT))
        .series(Element::Steady(1000.0, SOURCE_LIMIT))
        .series(Element::Steady(1000.0, last))
        .circuit(TOP, 5000.0)
}

// As many rows as there is room for: an input, and fifteen resistors, each in series with what is before it.
pub fn longest() -> Record {
    let mut tree = Tree::input(1000.0);
    for _ in 0..15 {
        tree = tree.series(Element::Resistor(1000.0));
    }
    tree.circuit(TOP, 16000.0)
}

// Another part in row j.
pub fn with_part(mut r: Record, j: usize, part: Part) -> Record
    requires { j < row_limit }
{
    r.rows[j].part = part;
    r
}

// Row j the other way round.
pub fn reversed(mut r: Record, j: usize) -> Record
    requires { j < row_limit }
{
    r.rows[j].reversed = true;
    r
}

// A curve of these columns.
pub fn with_curve(r: Record, points: &[(i32, i32)]) -> Record
    requires { length points.now ≤ column_limit }
{
    Record {
        width: points.len() as u8,
        columns: columns(points),
        ..r
    }
}

// A curve of `width` columns at 0, 1, 2, .. microvolts, all of which answer 0.
pub fn with_width(mut r: Record, width: u8) -> Record {
    r.columns = columns(&[]);
    for (column, x) in r.columns.iter_mut().zip(0..width) {
        column.x = i32::from(x);
    }
    r.width = width;
    r
}
