// The block of rows, sixteen bytes each: kind, first child, second child, reversed mark, steady microvolts, value. What a kind does not use is zero.
ghost use Rattle.std.specs.Prelude.{◌≡◌, ◌+◌, ◌≤◌, pos, length};
ghost use Rattle.circuit.specs.File.{row_length, part_of, join_number, row_from, row_place, row_bytes};
ghost use Rattle.blocks.specs.Lengths.{row_size};
ghost use Rattle.blocks.specs.Placing.{placed, fields_at, fields_bytes, row_of};

use crate::field;
use crate::items::Item;
use circuit::{Adaptor, BLOCK_LENGTH, Element, Join, Part, Row};

// What the bytes of a row say. What a kind does not use is zero.
#[derive(Clone, Copy)]
struct Fields {
    // by its number
    kind: u8,
    first: u8,
    second: u8,
    // 1 of a reversed row, and 0 of any other
    mark: u8,
    // of a steady source
    microvolts: i32,
    // ohms, farads or henries
    value: f64,
}

impl Fields {
    // Of a kind that has at most a value.
    fn plain(kind: u8, mark: u8, value: f64) -> Fields
        ensures { result ≡ record { kind = kind; first = 0; second = 0; mark = mark; microvolts = pos 0; value = value } }
    {
        Fields {
            kind,
            first: 0,
            second: 0,
            mark,
            microvolts: 0,
            value,
        }
    }

    #[tactic(auto, using(crate::proofs::Digits::byte_at))]
    fn read(s: &[u8], at: usize) -> Fields
        requires { at + row_length ≤ length s.now }
        ensures { result ≡ fields_at at s.now }
    {
        Fields {
            kind: s[at],
            first: s[at + 1],
            second: s[at + 2],
            mark: s[at + 3],
            microvolts: field::signed(s, at + 4),
            value: field::float(s, at + 8),
        }
    }

    fn put(self, b: &mut [u8], at: usize)
        requires { at + row_length ≤ length b.old }
        ensures { b.new ≡ placed b.old at (fields_bytes self) }
    {
        field::put(b, at, &[self.kind, self.first, self.second, self.mark]);
        field::put(b, at + 4, &self.microvolts.to_le_bytes());
        field::put(b, at + 8, &field::float_bytes(self.value));
    }

    // A number past the list of kinds is read as blank, and refused elsewhere.
    fn part(self) -> Part
        ensures { result ≡ part_of self.kind self.first self.second self.microvolts self.value }
    {
        match self.kind {
            1 => Part::Leaf(Element::Resistor(self.value)),
            2 => Part::Leaf(Element::Capacitor(self.value)),
            3 => Part::Leaf(Element::Inductor(self.value)),
            4 => Part::Leaf(Element::Input(self.value)),
            5 => Part::Leaf(Element::Steady(self.value, self.microvolts)),
            6 => self.adaptor(Join::Series),
            7 => self.adaptor(Join::Parallel),
            _ => Part::Blank,
        }
    }

    fn adaptor(self, join: Join) -> Part
        ensures { result ≡ Part.Adaptor (record { join = join; first = self.first; second = self.second }) }
    {
        Part::Adaptor(Adaptor {
            join,
            first: self.first,
            second: self.second,
        })
    }
}

impl From<Fields> for Row {
    ghost from_gives = { λ f w. w ≡ row_of f };

    fn from(f: Fields) -> Row {
        Row {
            part: f.part(),
            reversed: f.mark == 1,
        }
    }
}

impl From<Row> for Fields {
    ghost from_gives = { λ w f. fields_bytes f ≡ row_bytes w };

    fn from(row: Row) -> Fields {
        let mark = u8::from(row.reversed);
        match row.part {
            Part::Blank => Fields::plain(0, mark, 0.0),
            Part::Leaf(Element::Resistor(r)) => Fields::plain(1, mark, r),
            Part::Leaf(Element::Capacitor(c)) => Fields::plain(2, mark, c),
            Part::Leaf(Element::Inductor(l)) => Fields::plain(3, mark, l),
            Part::Leaf(Element::Input(r)) => Fields::plain(4, mark, r),
            Part::Leaf(Element::Steady(r, v)) => Fields {
                microvolts: v,
                ..Fields::plain(5, mark, r)
            },
            Part::Adaptor(a) => Fields {
                first: a.first,
                second: a.second,
                ..Fields::plain(join_number(a.join), mark, 0.0)
            },
        }
    }
}

// No `From`, as for the kinds of a curve.
fn join_number(k: Join) -> u8
    ensures { result ≡ join_number k }
{
    match k {
        Join::Series => 6,
        Join::Parallel => 7,
    }
}

impl Item for Row {
    const LENGTH: usize = 16;

    ghost LENGTH = { row_length };

    const START: usize = BLOCK_LENGTH;

    ghost START = { row_place 0 };

    ghost read_at = { row_from };

    ghost bytes_of = { row_bytes };

    fn read(s: &[u8], at: usize) -> Row {
        Row::from(Fields::read(s, at))
    }

    fn put(self, b: &mut [u8], at: usize) {
        Fields::from(self).put(b, at);
    }

    ghost long = { row_size };
}
