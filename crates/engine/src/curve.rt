// The diode's answer to a wave. The curve is laid out once for a run as lines: line n holds left of its edge, and at a wave it is
// (rise·wave + base) / (span + 1), rounded toward zero. Line 0 is left of the first column, and the edge after the last column is past every
// wave. All numbers are whole microvolts. A column's x and y and a wave keep 2^26, and so a slope's rise and run 2^27: a product keeps 2^53, a base
// 2^54, and what is divided 3·2^53, outside the columns as between them.
ghost use Rattle.std.specs.Prelude.{◌≡◌, ℕ, suc, ◌≤◌, ◌<◌};
ghost use Rattle.whole.specs.Order.{Abs};
ghost use Rattle.whole.specs.Fraction.{whole};
ghost use Rattle.circuit.specs.Record.{column_limit, column_at};
ghost use Rattle.circuit.specs.Curve.{wave_limit, passed};
ghost use Rattle.circuit.specs.declared.Record.{Record};
ghost use Rattle.laws.specs.Accepted.{Drawn};
ghost use Rattle.engine.specs.Curve.{line_by, Sloped, slope_in, line_in, last_line, Plotted, Drawing, Draws, Reflects};

use circuit::{COLUMNS, Column, Record, Wave};
use parts::mirror;

// One line more than there are columns, and one more to make them a power of two.
pub(crate) const LINES: usize = COLUMNS + 2;

#[derive(Clone, Copy)]
pub(crate) struct Line {
    // where the next line begins
    pub edge: i64,
    pub rise: i64,
    pub base: i64,
    // its run less one: one more than a u32 is no 0, so no division asks for that
    pub span: i64,
}

// What stands where no line is laid.
pub(crate) const NO_LINE: Line = Line {
    edge: 0,
    rise: 0,
    base: 0,
    span: 0,
};

// Past every wave.
const BEYOND: i64 = 4611686018427387904;

// How far a line rises over a run.
#[derive(Clone, Copy)]
struct Slope {
    rise: i64,
    run: i64,
}

// From column i to the next. The lines below are asked for one by one, each with what `Curve::of` knows of its record.
fn slope_at(r: &Record, i: usize) -> Slope
    requires { suc i < column_limit }
    ensures { result ≡ slope_in r.now.columns i }
{
    let o = r.column(i);
    let n = r.column(i + 1);
    Slope {
        rise: (n.y as i64) - (o.y as i64),
        run: (n.x as i64) - (o.x as i64),
    }
}

// The line through a column with a slope, up to an edge.
fn through(c: Column, s: Slope, edge: i64) -> Line
    requires { Sloped c s }
    ensures { result ≡ line_by c s edge }
{
    let x = c.x as i64;
    let y = c.y as i64;
    Line {
        edge,
        rise: s.rise,
        base: y * s.run - s.rise * x,
        span: s.run - 1,
    }
}

// Left of the first column: with the slope of the first two.
fn first_line(r: &Record) -> Line
    requires { Plotted r.now.columns r.now.width }
    ensures { result ≡ line_in r.now.columns 0 }
{
    let c = r.column(0);
    through(c, slope_at(r, 0), c.x as i64)
}

// Past the last column: with the slope of the last two.
fn last_line(r: &Record) -> Line
    requires { Plotted r.now.columns r.now.width }
    ensures { result ≡ last_line r.now.columns r.now.width }
{
    let width = r.width as usize;
    through(r.column(width - 1), slope_at(r, width - 2), BEYOND)
}

// Up to column i from the one before.
fn line_to(r: &Record, i: usize) -> Line
    requires { (0 < i) × (i < r.now.width) × Plotted r.now.columns r.now.width }
    ensures { result ≡ line_in r.now.columns i }
{
    let end = r.column(i);
    through(r.column(i - 1), slope_at(r, i - 1), end.x as i64)
}

// A record's curve as a run reads it. Its lines are lent: they are the most of a plan, and each move of them would make a call slower.
#[derive(Clone, Copy)]
pub(crate) struct Curve<'a> {
    // waves below this one are answered as their opposites
    pub mirror: i64,
    // how many columns it has: its lines have fixed room, since nothing is allocated
    pub width: usize,
    pub lines: &'a [Line; LINES],
}

// The diode's answer: the wave that it sends back, and the segment that it used.
#[derive(Clone, Copy)]
pub(crate) struct Reflection {
    pub wave: Wave,
    pub segment: u8,
}

impl<'a> Curve<'a> {
    // Laid out in `lines`. No search goes past the line after the last column: what stands behind it is never read.
    #[tactic(auto, using(crate::proofs::Lines::plotted))]
    pub fn of(r: &Record, lines: &'a mut [Line; LINES]) -> Curve<'a>
        requires { Drawn r.now × (r.now.width ≤ column_limit) }
        ensures { Drawing r.now result }
    {
        let width = r.width as usize;
        lines[width] = last_line(r);
        lines[0] = first_line(r);
        for i in 1..width {
            lines[i] = line_to(r, i);
        }
        Curve {
            mirror: mirror(r.kind),
            width,
            lines,
        }
    }

    // The number of the line that holds at a wave, by halving: how many columns have an x that is not above it. It is one of `low` to `high`, and the
    // search ends the moment that only one of them remains. Both arms ask for that: asked once for both, a compiler may choose the half without a jump,
    // and each turn then waits for the one before it.
    fn segment(&self, wave: i64) -> usize
        requires { ((r : Record) × Drawing r self.now) × Abs wave wave_limit }
        ensures { (r : Record) → Drawing r self.now → result ≡ passed r (whole wave) }
    {
        let mut low = 0;
        let mut high = self.width;
        loop {
            let middle = (low + high) / 2;
            if self.lines[middle].edge <= wave {
                if middle + 1 == high {
                    break high;
                }
                low = middle + 1;
            } else {
                if middle == low {
                    break low;
                }
                high = middle;
            }
        }
    }

    // The drawn line at a wave, with one search and one division. As of the search, what is promised is promised of every record that the curve is
    // drawn from: none is kept that an invariant of the struct could name.
    fn drawn(&self, wave: i64) -> Reflection
        requires { ((r : Record) × Drawing r self.now) × Abs wave wave_limit }
        ensures { (r : Record) → Drawing r self.now → Draws r wave result }
    {
        let n = self.segment(wave);
        let l = self.lines[n];
        let answer = (l.rise * wave + l.base) / ((l.span as u32) as i64 + 1);
        Reflection {
            wave: Wave(answer),
            segment: n as u8,
        }
    }

    // A pair answers a negative wave with minus the answer for its opposite, in the opposite's segment.
    pub fn reflect(&self, wave: Wave) -> Reflection
        requires { ((r : Record) × Drawing r self.now) × Abs wave.0 wave_limit }
        ensures { (r : Record) → Drawing r self.now → Reflects r wave.0 result }
    {
        let a = wave.0;
        if a < self.mirror {
            let opposite = self.drawn(-a);
            Reflection {
                wave: Wave(-opposite.wave.0),
                segment: opposite.segment,
            }
        } else {
            self.drawn(a)
        }
    }
}
