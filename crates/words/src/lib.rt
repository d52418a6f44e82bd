// What an answer means, in a line of words.
#![tactic(auto)]

ghost use Rattle.std.specs.Prelude.{◌≡◌, ◌≤◌, ◌++◌, length, drop};
ghost use Rattle.circuit.specs.Words.{meaning};
ghost use Rattle.words.specs.Room.{words_room};

use circuit::Refusal;

// Room for any answer's words, where they are laid into memory of fixed size. The longest are those of number 18.
pub const ROOM: usize = 129;

pub type Line = [u8; ROOM];

// The words, with the newline that ends them. Not `Display`: what is printed has no clause, and these words are promised.
#[tactic(auto, unfolding(circuit::specs::Words::meaning, circuit::specs::Text::text))]
pub fn explain(answer: Result<(), Refusal>) -> &'static str
    ensures text { result.now ≡ meaning answer }
    ensures room { length result.now ≤ words_room }
{
    match answer {
        Ok(()) => "done\n",
        Err(Refusal::Length) => "the file is not 1536 bytes\n",
        Err(Refusal::Check(_)) => "a check is wrong; the place is the lowest block\n",
        Err(Refusal::Version) => "the version is neither 1 nor 2\n",
        Err(Refusal::Form) =>
            "a count, kind, mark, blank row or column, or unused byte is against the rules\n",
        Err(Refusal::Rate) => "the rate is outside its limits\n",
        Err(Refusal::Tree(_)) =>
            "a child is not lower than its adaptor, or a row is not used exactly once; the place is the row, or 255 for the input or the tap\n",
        Err(Refusal::Value(_)) =>
            "an element value or steady microvolts are outside their limits; the place is the lowest row\n",
        Err(Refusal::Resistance(_)) =>
            "a port resistance is outside its limits; the place is the lowest row\n",
        Err(Refusal::Ratio(_)) => "a ratio is outside its limits; the place is the lowest row\n",
        Err(Refusal::Curve(_)) =>
            "a column breaks the column rule; the place is the lowest column, or 0 if a single has no (0, 0)\n",
        Err(Refusal::Fit) => "the curve resistance does not fit the top's port resistance\n",
        Err(Refusal::Waves(_)) =>
            "a stored wave is outside its limits; the place is its row, or 255 for what a take carries beside its waves\n",
        Err(Refusal::Lengths) => "the input and the output have different lengths\n",
        Err(Refusal::Sample(_)) => "a sample is outside its limits; the place is its index\n",
        Err(Refusal::Overload(_)) =>
            "a wave became too large; the place is the index of the sample\n",
        Err(Refusal::Room) => "the room is not four bytes for each whole sample\n",
        Err(Refusal::LeftOver(_)) =>
            "the take ends inside a sample; the place is how many samples are done\n",
        Err(Refusal::Voltage) =>
            "the knee or the thermal voltage is below 1, the thermal voltage is no multiple of 32, or the last column would be above 67108864\n",
    }
}

// The words at the start of a line, and how many bytes they have. The bytes after them stay as they were.
pub fn put(answer: Result<(), Refusal>, line: &mut Line) -> usize
    ensures size { result ≡ length (meaning answer) }
    ensures text { line.new ≡ meaning answer ++ drop (length (meaning answer)) line.old }
{
    let words = explain(answer).as_bytes();
    let size = words.len();
    line[..size].copy_from_slice(words);
    size
}
