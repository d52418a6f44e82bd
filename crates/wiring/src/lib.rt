// Rules 4 to 7 of a record: whether it is a circuit at all, by its form, its rate, its tree and its values.
#![tactic(auto)]

ghost use Rattle.std.specs.Prelude.{◌≡◌};
ghost use Rattle.circuit.specs.Numbers.{judge, handed};
ghost use Rattle.circuit.specs.Record.{record_rules};

mod form;
mod tree;
mod value;

use circuit::{Record, Refusal};

// The lowest number that applies is handed back, with its place. Where the form is wrong the later rules are not tried.
pub fn judge_record(r: &Record) -> Result<(), Refusal>
    ensures { handed result ≡ judge record_rules r.now }
{
    form::form_rule(r)?;
    form::rate_rule(r)?;
    tree::children_rule(r)?;
    tree::used_once_rule(r)?;
    tree::input_and_tap_rule(r)?;
    value::value_rule(r)
}
