// Rule 10, the columns of the curve.

ghost use Rattle.std.specs.Prelude.{◌≡◌, not};
ghost use Rattle.std.specs.List.{list_any, range_with_len};
ghost use Rattle.circuit.specs.Numbers.{handed, unless, lowest};
ghost use Rattle.circuit.specs.Record.{column_at, at_origin};
ghost use Rattle.circuit.specs.Curve.{sound_column, passes_origin, column_rule};
ghost use Rattle.laws.specs.Numbered.{numbered};

use circuit::{CurveKind, Record, Refusal};
use measure::{at_origin, sound_column};

// Column i by its own x, and against the one before it.
fn is_sound(r: &Record, i: u8) -> bool
    ensures { result ≡ sound_column r.now i }
{
    let at = i as usize;
    sound_column(r.kind, i, r.column(at.saturating_sub(1)), r.column(at))
}

// `find` is the search that the rules share: what is left is what a fault is and what it is called.
fn lowest_column(r: &Record) -> Result<(), Refusal>
    ensures { handed result ≡ numbered 10 (lowest (λ i. not (sound_column r.now i)) r.now.width) }
{
    match (0..r.width).find(|i| !is_sound(r, *i)) {
        Some(i) => Err(Refusal::Curve(i)),
        None => Ok(()),
    }
}

// A single has a column (0, 0).
fn passes_origin(r: &Record) -> bool
    ensures { result ≡ passes_origin r.now.kind r.now }
{
    match r.kind {
        CurveKind::Single => has_origin(r),
        _ => true,
    }
}

fn has_origin(r: &Record) -> bool
    ensures { result ≡ list_any (λ i. at_origin (column_at r.now i)) (range_with_len 0 r.now.width) }
{
    (0..r.width as usize).any(|i| at_origin(r.column(i)))
}

fn origin_rule(r: &Record) -> Result<(), Refusal>
    ensures { handed result ≡ numbered 10 (unless (passes_origin r.now.kind r.now) 0) }
{
    if passes_origin(r) {
        Ok(())
    } else {
        Err(Refusal::Curve(0))
    }
}

pub(crate) fn column_rule(r: &Record) -> Result<(), Refusal>
    ensures { handed result ≡ numbered 10 (column_rule r.now) }
{
    lowest_column(r)?;
    origin_rule(r)
}
