// One row and one column: the tests and the numbers that set-up's rules are made of.
#![tactic(auto)]

ghost use Rattle.std.specs.Prelude.{◌≡◌, ◌^◌, ◌<◌, ◌&&◌, pos, ◌-ℤ◌, if◌then◌else◌, int_lt, nat_eq, nat_le, unsigned_abs};
ghost use Rattle.std.specs.Float.Ieee.Positive.{positive};
ghost use Rattle.circuit.specs.Counting.{within};
ghost use Rattle.circuit.specs.Record.{at_origin, sound_part};
ghost use Rattle.circuit.specs.Curve.{wave_limit, beside, starts};
ghost use Rattle.circuit.specs.SetUp.{in_range, leaf_resistance, joined_resistance, quotient, parts, scaled_down, ratio_fault, fits};
ghost use Rattle.measure.specs.Ratio.{proper, joined_row};

use circuit::{
    Column, CurveKind, Element, Join, PARTS, Part, Prepared, in_source_limit, in_wave_limit,
};

// A NaN passes neither comparison.
fn is_positive(x: f64) -> bool
    ensures { result ≡ positive x }
{
    (0.0 < x) & (x < f64::INFINITY)
}

pub fn sound_part(p: Part) -> bool
    ensures { result ≡ sound_part p }
{
    match p {
        Part::Leaf(Element::Steady(ohms, v)) => is_positive(ohms) & in_source_limit(v),
        Part::Leaf(
            Element::Resistor(x) | Element::Capacitor(x) | Element::Inductor(x) | Element::Input(x),
        ) => is_positive(x),
        Part::Blank | Part::Adaptor(_) => true,
    }
}

pub fn at_origin(c: Column) -> bool
    ensures { result ≡ at_origin c }
{
    c == Column { x: 0, y: 0 }
}

// How far b lies above a: in 64 bits, where the difference of any two coordinates fits.
fn apart(a: i32, b: i32) -> i64
    ensures value { result ≡ b -ℤ a }
    ensures small { unsigned_abs result < 2 ^ 32 }
{
    (b as i64) - (a as i64)
}

fn is_gentle(run: i64, rise: i64) -> bool
    requires { unsigned_abs run < 2 ^ 32 }
    ensures { result ≡ (int_lt (pos 0) run && nat_le (unsigned_abs rise) (unsigned_abs run)) }
{
    (0 < run) & (-run <= rise) & (rise <= run)
}

// x rises, and y moves no further than x.
fn stands_beside(o: Column, n: Column) -> bool
    ensures { result ≡ beside o n }
{
    is_gentle(apart(o.x, n.x), apart(o.y, n.y))
}

// Column 0 of a pair is (0, 0).
fn may_start(kind: CurveKind, c: Column) -> bool
    ensures { result ≡ starts kind c }
{
    (kind != CurveKind::Pair) | at_origin(c)
}

// Column i, with the one before it; column 0 has none.
pub fn sound_column(kind: CurveKind, i: u8, before: Column, here: Column) -> bool
    ensures { result ≡ (within wave_limit here.x && (if nat_eq i 0 then starts kind here else beside before here)) }
{
    if i == 0 {
        in_wave_limit(here.x) & may_start(kind, here)
    } else {
        in_wave_limit(here.x) & stands_beside(before, here)
    }
}

#[tactic(auto, unfolding(circuit::specs::SetUp::leaf_resistance))]
pub fn leaf_resistance(rate: u32, e: Element) -> f64
    ensures { result ≡ leaf_resistance rate e }
{
    match e {
        Element::Resistor(ohms) | Element::Input(ohms) | Element::Steady(ohms, _) => ohms,
        Element::Capacitor(farads) => 1.0 / ((2.0 * farads) * (rate as f64)),
        Element::Inductor(henries) => (2.0 * henries) * (rate as f64),
    }
}

// The paper's two formulas have the same three operands: how two ports are joined, and their resistances.
#[tactic(auto, unfolding(circuit::specs::SetUp::joined_resistance))]
fn joined_resistance(join: Join, r1: f64, r2: f64) -> f64
    ensures { result ≡ joined_resistance join r1 r2 }
{
    match join {
        Join::Series => r1 + r2,
        Join::Parallel => (r1 * r2) / (r1 + r2),
    }
}

#[tactic(auto, unfolding(circuit::specs::SetUp::quotient))]
fn quotient_of(join: Join, r1: f64, r2: f64) -> f64
    ensures { result ≡ quotient join r1 r2 }
{
    match join {
        Join::Series => r1 / (r1 + r2),
        Join::Parallel => r2 / (r1 + r2),
    }
}

// A value without its fraction; 0 where it is not from 0 up to below 2^24.
fn whole_part(x: f64) -> u32
    ensures { result ≡ proper parts (scaled_down 1 x) }
{
    if (0.0 < x) & (x < (PARTS as f64)) {
        std::num::truncating_f64_to_u64(x) as u32
    } else {
        0
    }
}

// The quotient in parts of 2^24, rounded down. Below one the product is exact: only its fraction is cut off.
fn ratio_of(q: f64) -> u32
    ensures { result ≡ proper parts (scaled_down parts q) }
{
    whole_part(q * (PARTS as f64))
}

// From 1/1024 to 2^30 ohms.
pub fn in_range(x: f64) -> bool
    ensures { result ≡ in_range x }
{
    (0.0009765625 <= x) & (x <= 1073741824.0)
}

// Within one part in 1024 of the top's resistance.
pub fn fits_top(q: f64, r: f64) -> bool
    ensures { result ≡ fits q r }
{
    (r * 1023.0 <= q * 1024.0) & (q * 1024.0 <= r * 1025.0)
}

pub fn joined(join: Join, r1: f64, r2: f64) -> Prepared
    ensures { result ≡ joined_row join r1 r2 }
{
    let resistance = joined_resistance(join, r1, r2);
    let ratio = ratio_of(quotient_of(join, r1, r2));
    Prepared { resistance, ratio }
}

// A ratio of no part or of all, which only an adaptor can have.
pub fn ratio_fault(p: Part, ratio: u32) -> bool
    ensures { result ≡ ratio_fault p ratio }
{
    matches!(p, Part::Adaptor(_)) & !(1..PARTS).contains(&ratio)
}
