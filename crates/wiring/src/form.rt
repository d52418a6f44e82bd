// Rule 4, the form of a record: its counts, its kind of curve, which rows and columns are blank, and which rows are reversed. Rule 5, its rate.

ghost use Rattle.std.specs.Prelude.{◌≡◌, ◌-◌, ◌&&◌};
ghost use Rattle.circuit.specs.Counting.{between};
ghost use Rattle.std.specs.List.{list_all, range_with_len};
ghost use Rattle.circuit.specs.Numbers.{handed};
ghost use Rattle.circuit.specs.Record.{row_limit, column_limit, row_at, column_at, is_blank, is_set, at_origin, in_form, form_rule, rate_rule};
ghost use Rattle.laws.specs.Numbered.{numbered};

use circuit::{COLUMNS, CurveKind, HIGHEST_RATE, LOWEST_RATE, Part, ROWS, Record, Refusal, Row};
use measure::at_origin;

fn is_blank(p: Part) -> bool
    ensures { result ≡ is_blank p }
{
    matches!(p, Part::Blank)
}

fn is_set(k: CurveKind) -> bool
    ensures { result ≡ is_set k }
{
    k != CurveKind::Unset
}

// There is room for the counts, and the curve has a kind.
fn has_counts(r: &Record) -> bool
    ensures { result ≡ (between 1 row_limit r.now.count && between 2 column_limit r.now.width && is_set r.now.kind) }
{
    let rows = (1 <= r.count) & ((r.count as usize) <= ROWS);
    let columns = (2 <= r.width) & ((r.width as usize) <= COLUMNS);
    rows & columns & is_set(r.kind)
}

// Rows past the count are blank, and no other row is; no row but a leaf is reversed.
fn in_form(count: usize, j: usize, w: Row) -> bool
    ensures { result ≡ in_form count j w }
{
    (is_blank(w.part) == (count <= j)) & (w.part.is_leaf() | !w.reversed)
}

fn rows_in_form(r: &Record) -> bool
    ensures { result ≡ list_all (λ j. in_form r.now.count j (row_at r.now j)) (range_with_len 0 row_limit) }
{
    (0..ROWS).all(|j| in_form(r.count as usize, j, r.row(j)))
}

// Columns past the width are (0, 0).
fn blank_columns(r: &Record) -> bool
    ensures { result ≡ list_all (λ i. at_origin (column_at r.now i)) (range_with_len r.now.width (column_limit - r.now.width)) }
{
    (r.width as usize..COLUMNS).all(|i| at_origin(r.column(i)))
}

pub(crate) fn form_rule(r: &Record) -> Result<(), Refusal>
    ensures { handed result ≡ numbered 4 (form_rule r.now) }
{
    if has_counts(r) && rows_in_form(r) && blank_columns(r) {
        Ok(())
    } else {
        Err(Refusal::Form)
    }
}

#[tactic(auto, unfolding(circuit::specs::Numbers::told, circuit::specs::Record::rate_rule))]
pub(crate) fn rate_rule(r: &Record) -> Result<(), Refusal>
    ensures { handed result ≡ numbered 5 (rate_rule r.now) }
{
    if (LOWEST_RATE <= r.rate) & (r.rate <= HIGHEST_RATE) {
        Ok(())
    } else {
        Err(Refusal::Rate)
    }
}
