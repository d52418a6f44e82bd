// A row's line: its number, its kind in a word, and a dash or its ratio.
ghost use Rattle.std.specs.Prelude.{◌+◌, ◌*◌, ◌≤◌, ◌≡◌, ◌++◌, length};
ghost use Rattle.circuit.specs.SetUp.{set_up_report, set_up_rows};
ghost use Rattle.circuit.specs.Listing.{listing_room, element_name, join_name};
ghost use Rattle.listing.specs.Lines.{ending, line, part_line, row_lines, name_room, ending_room, line_room};

use crate::text::Text;
use circuit::{Element, Join, Part, Prepared, ROWS, Record};

// The names are no `Display`, here and below: a listing is promised byte for byte, and what is printed has no clause.
#[tactic(auto, unfolding(circuit::specs::Text::text))]
fn element_name(e: Element) -> &'static str
    ensures name { result.now ≡ element_name e }
    ensures size { length result.now ≤ name_room }
{
    match e {
        Element::Resistor(_) => "resistor",
        Element::Capacitor(_) => "capacitor",
        Element::Inductor(_) => "inductor",
        Element::Input(_) => "input",
        Element::Steady(_, _) => "steady",
    }
}

#[tactic(auto, unfolding(circuit::specs::Text::text))]
fn join_name(k: Join) -> &'static str
    ensures name { result.now ≡ join_name k }
    ensures size { length result.now ≤ name_room }
{
    match k {
        Join::Series => "series",
        Join::Parallel => "parallel",
    }
}

impl Text {
    // What a row's line ends in.
    #[tactic(auto, unfolding(circuit::specs::Text::text, crate::specs::Lines::ending))]
    fn push_ending(&mut self, ratio: Option<u64>)
        requires { length self.old + ending_room ≤ listing_room }
        ensures bytes { self.new ≡ self.old ++ ending ratio }
        ensures size { length self.new ≤ length self.old + ending_room }
    {
        match ratio {
            None => self.push(" -\n"),
            Some(ratio) => {
                self.push(" ");
                self.push_number(ratio);
                self.push("\n");
            }
        }
    }

    #[tactic(auto, unfolding(circuit::specs::Text::text, crate::specs::Lines::line))]
    fn push_line(&mut self, j: u64, name: &str, ratio: Option<u64>)
        requires { (length name.now ≤ name_room) × (length self.old + line_room ≤ listing_room) }
        ensures bytes { self.new ≡ self.old ++ line j name.now ratio }
        ensures size { length self.new ≤ length self.old + line_room }
    {
        self.push_number(j);
        self.push(" ");
        self.push(name);
        self.push_ending(ratio);
    }

    #[tactic(auto, unfolding(crate::specs::Lines::part_line))]
    fn push_row(&mut self, j: u64, part: Part, ratio: u64)
        requires { length self.old + line_room ≤ listing_room }
        ensures bytes { self.new ≡ self.old ++ part_line j part ratio }
        ensures size { length self.new ≤ length self.old + line_room }
    {
        match part {
            Part::Blank => {}
            Part::Leaf(e) => self.push_line(j, element_name(e), None),
            Part::Adaptor(a) => self.push_line(j, join_name(a.join), Some(ratio)),
        }
    }

    // The rows of a record that set-up accepts, with what it prepared for each: by their numbers, which the lines tell.
    pub(crate) fn push_rows(&mut self, r: &Record, prepared: &[Prepared; ROWS])
        requires accepted { (set_up_report r.now).number ≡ 0 }
        requires rows { prepared.now ≡ set_up_rows r.now }
        requires room { length self.old + line_room * r.now.count ≤ listing_room }
        ensures bytes { self.new ≡ self.old ++ row_lines r.now r.now.count }
        ensures size { length self.new ≤ length self.old + line_room * r.now.count }
    {
        for j in 0..r.count as usize {
            self.push_row(j as u64, r.rows[j].part, prepared[j].ratio as u64);
        }
    }
}
