// The words of a circuit: the record that describes one, what set-up makes of it, the waves that a run carries, the refusals, and what the
// unit hands back. What they mean is in specs/, a file to a heading of the paper.
#![tactic(auto)]

ghost use Rattle.std.specs.Prelude.{◌%◌, ◌^◌, ◌≡◌, cond, [], ◌∷◌, eqb, length};
ghost use Rattle.circuit.specs.Counting.{between, within};
ghost use Rattle.circuit.specs.Numbers.{told};
ghost use Rattle.circuit.specs.Record.{last_version, source_limit, row_limit, column_limit, row_at, column_at, is_leaf, is_input};
ghost use Rattle.circuit.specs.SetUp.{nothing};
ghost use Rattle.circuit.specs.Curve.{wave_limit};
ghost use Rattle.circuit.specs.Run.{is_reactive};
ghost use Rattle.circuit.specs.File.{number_of};
ghost use Rattle.circuit.specs.Take.{signed};

use std::error::Error;
use std::fmt;

// Room for this many rows and columns.
pub const ROWS: usize = 31;

pub const COLUMNS: usize = 62;

// The versions of a file, from 1 on. The first rounds a wave down, and every later one toward zero.
pub const ROUNDED_DOWN: u16 = 1;

pub const LAST_VERSION: u16 = 2;

// The rate, in whole hertz.
pub const LOWEST_RATE: u32 = 8000;

pub const HIGHEST_RATE: u32 = 768000;

// Microvolts of a steady source and of a sample.
pub const SOURCE_LIMIT: i32 = 16777216;

// Microvolts of a column's x, of a stored wave, and of a wave at the diode or at a leaf.
pub const WAVE_LIMIT: i32 = 67108864;

// A ratio counts parts of this many.
pub const PARTS: u32 = 16777216;

// A tap at the top, where the diode is. A tap is a number, as in the file: any record may come in, and be written as it is.
pub const TOP: u8 = 255;

// The place of a fault that lies at no row: a number, as every place of the table is.
pub const NO_ROW: u8 = 255;

// Bytes of a circuit file and of each of its blocks, where a block's check stands, and how many rows a block of rows has.
pub const FILE_LENGTH: usize = 1536;

pub const BLOCK_LENGTH: usize = 512;

pub const CHECK_PLACE: usize = 508;

pub const ROWS_PER_BLOCK: usize = 31;

// Bytes of a raw sample and of a raw output, and the most that can be left over.
pub const SAMPLE_LENGTH: usize = 3;

pub const OUTPUT_LENGTH: usize = 4;

pub const LEFT_LIMIT: usize = 2;

// Whole samples of a take: 2^62.
pub const TAKE_LIMIT: u64 = 4611686018427387904;

// A leaf: ohms, farads or henries. A steady source also has its microvolts.
#[derive(Clone, Copy)]
pub enum Element {
    Resistor(f64),
    Capacitor(f64),
    Inductor(f64),
    Input(f64),
    Steady(f64, i32),
}

impl Element {
    // Only a reactive element stores a wave.
    pub fn is_reactive(self) -> bool
        ensures { result ≡ is_reactive self }
    {
        matches!(self, Element::Capacitor(_) | Element::Inductor(_))
    }
}

#[derive(Clone, Copy)]
pub enum Join {
    Series,
    Parallel,
}

// The two rows that an adaptor joins, by their numbers.
#[derive(Clone, Copy)]
pub struct Adaptor {
    pub join: Join,
    pub first: u8,
    pub second: u8,
}

#[derive(Clone, Copy)]
pub enum Part {
    Blank,
    Leaf(Element),
    Adaptor(Adaptor),
}

impl Part {
    pub fn is_leaf(self) -> bool
        ensures { result ≡ is_leaf self }
    {
        matches!(self, Part::Leaf(_))
    }

    pub fn is_input(self) -> bool
        ensures { result ≡ is_input self }
    {
        matches!(self, Part::Leaf(Element::Input(_)))
    }
}

#[derive(Clone, Copy)]
pub struct Row {
    pub part: Part,
    // a leaf the other way round: its waves change sign between it and the tree
    pub reversed: bool,
}

// A point of the diode's curve, in microvolts: the wave that reaches the diode, and the wave that it sends back.
#[derive(Clone, Copy, PartialEq, Eq)]
pub struct Column {
    pub x: i32,
    pub y: i32,
}

#[derive(Clone, Copy, PartialEq, Eq)]
pub enum CurveKind {
    // no option round the other two: a record of any kind may come in, and rule 4 refuses this one
    Unset,
    Single,
    Pair,
}

#[derive(Clone, Copy)]
pub struct Record {
    // of its file, and how its waves are rounded: any number may come in, and rule 3 refuses the others
    pub version: u16,
    // whole hertz
    pub rate: u32,
    // how many rows are in use: 31 stand in every file, nothing is allocated, and rule 4 looks at those past the count too
    pub count: u8,
    // a leaf row, or TOP
    pub tap: u8,
    pub rows: [Row; ROWS],
    pub kind: CurveKind,
    // how many columns are in use, as of the rows
    pub width: u8,
    pub columns: [Column; COLUMNS],
    // the port resistance, in ohms, that the curve was made for
    pub resistance: f64,
}

// A function for rows and one for columns: generic over both, it would be handed the array and what stands past its end. Each tells the lengths
// of both arrays, which a goal about a lent record does not see.
impl Record {
    // Row j; past the last row there are blank ones.
    pub fn row(&self, j: usize) -> Row
        ensures value { result ≡ row_at self.now j }
        ensures rows { length self.now.rows ≡ row_limit }
        ensures columns { length self.now.columns ≡ column_limit }
    {
        self.rows.get(j).copied().unwrap_or(Row {
            part: Part::Blank,
            reversed: false,
        })
    }

    // Column i; past the last column they are at (0, 0).
    pub fn column(&self, i: usize) -> Column
        ensures value { result ≡ column_at self.now i }
        ensures rows { length self.now.rows ≡ row_limit }
        ensures columns { length self.now.columns ≡ column_limit }
    {
        self.columns
            .get(i)
            .copied()
            .unwrap_or(Column { x: 0, y: 0 })
    }
}

// A row after set-up: its port resistance in ohms, and an adaptor's ratio in parts of 2^24.
#[derive(Clone, Copy)]
pub struct Prepared {
    pub resistance: f64,
    pub ratio: u32,
}

impl Prepared {
    // What a blank row prepares to.
    pub fn blank() -> Prepared
        ensures { result ≡ nothing }
    {
        Prepared {
            resistance: 0.0,
            ratio: 0,
        }
    }
}

// The stored waves in microvolts, one for each row: 0 where the row is not reactive.
#[derive(Clone, Copy, PartialEq, Eq)]
pub struct State {
    pub waves: [i32; ROWS],
}

// A wave, in whole microvolts.
#[derive(Clone, Copy)]
pub struct Wave(pub i64);

impl Wave {
    // Rule 15, of one wave.
    pub fn in_limit(self) -> bool
        ensures { result ≡ within wave_limit self.0 }
    {
        let limit = WAVE_LIMIT as i64;
        (-limit..=limit).contains(&self.0)
    }
}

// A port voltage, in whole half microvolts: twice the voltage is the sum of the two waves.
#[derive(Clone, Copy)]
pub struct Doubled(pub i32);

// What a take carries from call to call.
#[derive(Clone, Copy, PartialEq, Eq)]
pub struct Carried {
    pub state: State,
    // the bytes of a sample that is not whole yet, and how many they are: any count may come in, and rule 12 refuses it above 2
    pub left: [u8; LEFT_LIMIT],
    pub count: u8,
    // whole samples done since the start of the take
    pub done: u64,
    // 15 once a sample is refused, and 0 before: any number may come in, and rule 12 refuses the others
    pub held: u8,
}

// Why a call is refused, a case for each number. A case holds its place: a block, a row (255 for the input, the tap, or what a take carries
// beside its waves), a column, the index of a sample, or how many samples are done.
#[derive(Clone, Copy, Debug, PartialEq, Eq)]
pub enum Refusal {
    Length,
    Check(u8),
    Version,
    Form,
    Rate,
    Tree(u8),
    Value(u8),
    Resistance(u8),
    Ratio(u8),
    Curve(u8),
    Fit,
    Waves(u8),
    Lengths,
    Sample(usize),
    Overload(usize),
    Room,
    LeftOver(usize),
    Voltage,
}

impl Refusal {
    // From 1 to 18. No conversion of the refusal: it has two numbers, this one and its place.
    #[tactic(auto, unfolding(crate::specs::Numbers::told))]
    pub fn number(self) -> u64
        ensures { result ≡ (told self).number }
    {
        match self {
            Refusal::Length => 1,
            Refusal::Check(_) => 2,
            Refusal::Version => 3,
            Refusal::Form => 4,
            Refusal::Rate => 5,
            Refusal::Tree(_) => 6,
            Refusal::Value(_) => 7,
            Refusal::Resistance(_) => 8,
            Refusal::Ratio(_) => 9,
            Refusal::Curve(_) => 10,
            Refusal::Fit => 11,
            Refusal::Waves(_) => 12,
            Refusal::Lengths => 13,
            Refusal::Sample(_) => 14,
            Refusal::Overload(_) => 15,
            Refusal::Room => 16,
            Refusal::LeftOver(_) => 17,
            Refusal::Voltage => 18,
        }
    }

    // 0 where a number has no place.
    #[tactic(auto, unfolding(crate::specs::Numbers::told))]
    pub fn place(self) -> u64
        ensures { result ≡ (told self).place }
    {
        match self {
            Refusal::Check(block) => block as u64,
            Refusal::Tree(row)
            | Refusal::Value(row)
            | Refusal::Resistance(row)
            | Refusal::Ratio(row)
            | Refusal::Waves(row) => row as u64,
            Refusal::Curve(column) => column as u64,
            Refusal::Sample(index) | Refusal::Overload(index) => index as u64,
            Refusal::LeftOver(samples) => samples as u64,
            _ => 0,
        }
    }
}

impl fmt::Display for Refusal {
    fn fmt<W: fmt::Write>(&self, f: &mut fmt::Formatter<W>) -> fmt::Result {
        write!(f, "refused {} at {}", self.number(), self.place())
    }
}

impl Error for Refusal {}

// What looking at a circuit and the waves that it starts from hands back: why one of them is refused, and the rows that set-up prepared. They are
// told beside a refusal, since 12 refuses waves of a circuit that set-up accepts; of a circuit that is refused they are zeros.
#[derive(Clone, Copy)]
pub struct Checked {
    pub answer: Result<(), Refusal>,
    pub rows: [Prepared; ROWS],
}

// What opening a file hands back: its record, with the rows that set-up prepared.
#[derive(Clone, Copy)]
pub struct Opened {
    pub circuit: Record,
    pub rows: [Prepared; ROWS],
}

// What listing a file hands back: what reading it answers, and how many bytes the text has. A refusal has a text too, so both are told.
#[derive(Clone, Copy)]
pub struct Listed {
    pub answer: Result<(), Refusal>,
    pub length: usize,
}

// What a run hands back: how many samples are done, the segment that the diode used in the last of them, and the waves after them. All three
// are told beside a refusal, since samples may be done before it.
#[derive(Clone, Copy)]
pub struct Progress {
    pub answer: Result<(), Refusal>,
    pub done: usize,
    pub segment: Option<u8>,
    pub state: State,
}

// What a call of a take hands back: how many samples it did, the segment of the last of them, and what it carries on. As of `Progress`; the
// promise of a run names the waves, and that of a take what is carried.
#[derive(Clone, Copy)]
pub struct Feed {
    pub answer: Result<(), Refusal>,
    pub done: usize,
    pub segment: Option<u8>,
    pub carried: Carried,
}

// The knob that a curve is built from, in microvolts.
#[derive(Clone, Copy)]
pub struct Knob {
    pub knee: i32,
    pub thermal: i32,
}

// A curve as a record has it.
#[derive(Clone, Copy)]
pub struct Built {
    pub kind: CurveKind,
    // how many columns are in use
    pub width: u8,
    pub columns: [Column; COLUMNS],
}

pub fn is_version(version: u16) -> bool
    ensures { result ≡ between 1 last_version version }
{
    (ROUNDED_DOWN..=LAST_VERSION).contains(&version)
}

// Whether microvolts keep the limit of a steady source and of a sample. Not one function with the limit of a wave: a limit belongs to its rule,
// and the wrong program that moves one is of that rule alone.
pub fn in_source_limit(microvolts: i32) -> bool
    ensures { result ≡ within source_limit microvolts }
{
    (-SOURCE_LIMIT..=SOURCE_LIMIT).contains(&microvolts)
}

// Whether microvolts keep the limit of a wave.
pub fn in_wave_limit(microvolts: i32) -> bool
    ensures { result ≡ within wave_limit microvolts }
{
    (-WAVE_LIMIT..=WAVE_LIMIT).contains(&microvolts)
}

// The sample in three bytes, the lowest first. They stand as the upper three of an i32, so that the highest bit is its sign, and a shift to the right
// keeps it.
pub fn sample_of(a: u8, b: u8, c: u8) -> i32
    ensures { result ≡ signed (number_of (a ∷ b ∷ c ∷ []) % 2 ^ 24) }
{
    i32::from_le_bytes([0, a, b, c]) >> 8
}
