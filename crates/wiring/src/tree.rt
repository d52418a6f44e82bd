// Rule 6, the tree: children are lower than their adaptor, every row but the last is a child exactly once, one row is the input, and the
// tap is a leaf or the top.

ghost use Rattle.std.specs.Prelude.{◌≡◌, ℕ, ◌+◌, ◌<◌, ◌≤◌, min, get_or, count_by};
ghost use Rattle.std.specs.List.{range_with_len};
ghost use Rattle.circuit.specs.Numbers.{handed};
ghost use Rattle.circuit.specs.Record.{row_limit, part_at, is_input, not_lower, children_rule, uses, used_once_rule, input_and_tap_rule};
ghost use Rattle.laws.specs.Numbered.{numbered};
ghost use Rattle.wiring.specs.Uses.{use_more, uses_by};

use circuit::{NO_ROW, Part, ROWS, Record, Refusal, TOP};

// An adaptor whose children are not both lower.
fn not_lower(j: u8, p: Part) -> bool
    ensures { result ≡ not_lower j p }
{
    match p {
        Part::Adaptor(a) => !((a.first < j) & (a.second < j)),
        _ => false,
    }
}

// `find` is the search that the rules share: what is left is what a fault is and what it is called.
#[tactic(auto, unfolding(circuit::specs::Numbers::told))]
pub(crate) fn children_rule(r: &Record) -> Result<(), Refusal>
    ensures { handed result ≡ numbered 6 (children_rule r.now) }
{
    match (0..r.count).find(|j| not_lower(*j, r.row(*j as usize).part)) {
        Some(j) => Err(Refusal::Tree(j)),
        None => Ok(()),
    }
}

// One use more. Two stands for any number above it: only one is right.
fn one_more(n: u8) -> u8
    ensures { result ≡ min 2 (n + 1) }
{
    n.saturating_add(1).min(2)
}

// One use more of row k, where there is such a row.
fn use_row(uses: &mut [u8; ROWS], k: u8)
    ensures { uses.new ≡ use_more k uses.old }
{
    let at = k as usize;
    if at < ROWS {
        uses[at] = one_more(uses[at]);
    }
}

// An adaptor uses its two children.
fn use_children(uses: &mut [u8; ROWS], p: Part)
    ensures { uses.new ≡ uses_by p uses.old }
{
    if let Part::Adaptor(a) = p {
        use_row(uses, a.first);
        use_row(uses, a.second);
    }
}

// How often each row is a child, by one look at each row.
#[tactic(auto, unfolding(crate::specs::Uses::uses_in))]
fn uses(r: &Record) -> [u8; ROWS]
    ensures { (k : ℕ) → k < row_limit → get_or result k 0 ≡ min 2 (uses r.now k) }
{
    let mut uses = [0; ROWS];
    for j in 0..r.count {
        use_children(&mut uses, r.row(j as usize).part);
    }
    uses
}

// The last row is nobody's child. `find` is the search, as above.
#[tactic(auto, unfolding(circuit::specs::Numbers::told))]
pub(crate) fn used_once_rule(r: &Record) -> Result<(), Refusal>
    requires { r.now.count ≤ row_limit }
    ensures { handed result ≡ numbered 6 (used_once_rule r.now) }
{
    let uses = uses(r);
    match (0..r.count.saturating_sub(1)).find(|k| uses[*k as usize] != 1) {
        Some(k) => Err(Refusal::Tree(k)),
        None => Ok(()),
    }
}

fn inputs(r: &Record) -> usize
    ensures { result ≡ count_by (λ j. is_input (part_at r.now j)) (range_with_len 0 r.now.count) }
{
    (0..r.count)
        .filter(|j| r.row(*j as usize).part.is_input())
        .count()
}

#[tactic(auto, unfolding(circuit::specs::Numbers::told))]
pub(crate) fn input_and_tap_rule(r: &Record) -> Result<(), Refusal>
    ensures { handed result ≡ numbered 6 (input_and_tap_rule r.now) }
{
    if (inputs(r) == 1) & ((r.tap == TOP) | r.row(r.tap as usize).part.is_leaf()) {
        Ok(())
    } else {
        Err(Refusal::Tree(NO_ROW))
    }
}
