// Port resistances and ratios in f64, a row after the rows below it, and rules 8, 9 and 11.

ghost use Rattle.std.specs.Prelude.{◌≡◌};
ghost use Rattle.circuit.specs.Numbers.{handed, done, judge};
ghost use Rattle.circuit.specs.Record.{row_limit, record_rules};
ghost use Rattle.circuit.specs.SetUp.{port_resistance_rule, ratio_rule, curve_resistance_rule, port_rules};
ghost use Rattle.laws.specs.Accepted.{Sized, Lower};
ghost use Rattle.laws.specs.Numbered.{numbered};
ghost use Rattle.setup.specs.Rows.{prepared_from, Filled};

use crate::columns;
use circuit::{Part, Prepared, ROWS, Record, Refusal};
use measure::{fits_top, in_range, joined, leaf_resistance, ratio_fault};

// A row from the rows below it.
#[tactic(auto, unfolding(laws::specs::Accepted::Lower, crate::specs::Rows::prepared_from))]
fn prepared_row(rate: u32, p: Part, rows: &[Prepared; ROWS]) -> Prepared
    requires { Lower row_limit p }
    ensures { result ≡ prepared_from rate p rows.now }
{
    match p {
        Part::Blank => Prepared::blank(),
        Part::Leaf(e) => Prepared {
            resistance: leaf_resistance(rate, e),
            ratio: 0,
        },
        Part::Adaptor(a) => joined(
            a.join,
            rows[a.first as usize].resistance,
            rows[a.second as usize].resistance,
        ),
    }
}

// From the lowest row up, of a record that 4 to 7 do not refuse: an adaptor's children are lower than it. Rows past the count stay blank.
// A goal about a lent record does not see its arrays' lengths: a caller learns them here.
#[tactic(auto, unfolding(circuit::specs::Counting::table))]
pub(crate) fn filled_rows(r: &Record) -> [Prepared; ROWS]
    requires { judge record_rules r.now ≡ done }
    ensures sized { Sized r.now }
    ensures rows { Filled r.now result }
{
    let mut rows = [Prepared::blank(); ROWS];
    for j in 0..r.count as usize {
        rows[j] = prepared_row(r.rate, r.row(j).part, &rows);
    }
    rows
}

// A record that 4 to 7 do not refuse, with its filled rows: what 8 to 11 read.
#[derive(Clone, Copy)]
pub(crate) struct Ports<'a> {
    pub(crate) r: &'a Record,
    pub(crate) rows: &'a [Prepared; ROWS],
    ghost passed: { judge record_rules r.now ≡ done },
    ghost sized: { Sized r.now },
    ghost filled: { Filled r.now rows.now },
}

impl Ports<'_> {
    // `find` is the search that the rules share, here and below: what is left is what a fault is and what it is called.
    fn resistance_rule(self) -> Result<(), Refusal>
        ensures { handed result ≡ numbered 8 (port_resistance_rule self.entry.r.now) }
    {
        let rows = self.rows;
        match (0..self.r.count).find(|j| !in_range(rows[*j as usize].resistance)) {
            Some(j) => Err(Refusal::Resistance(j)),
            None => Ok(()),
        }
    }

    fn ratio_rule(self) -> Result<(), Refusal>
        ensures { handed result ≡ numbered 9 (ratio_rule self.entry.r.now) }
    {
        let (r, rows) = (self.r, self.rows);
        match (0..r.count).find(|j| ratio_fault(r.row(*j as usize).part, rows[*j as usize].ratio)) {
            Some(j) => Err(Refusal::Ratio(j)),
            None => Ok(()),
        }
    }

    fn curve_resistance_rule(self) -> Result<(), Refusal>
        ensures { handed result ≡ numbered 11 (curve_resistance_rule self.entry.r.now) }
    {
        let top = self.r.count - 1;
        if fits_top(self.r.resistance, self.rows[top as usize].resistance) {
            Ok(())
        } else {
            Err(Refusal::Fit)
        }
    }

    // 8 to 11.
    pub(crate) fn judge(self) -> Result<(), Refusal>
        ensures { handed result ≡ judge port_rules self.entry.r.now }
    {
        self.resistance_rule()?;
        self.ratio_rule()?;
        columns::column_rule(self.r)?;
        self.curve_resistance_rule()
    }
}
