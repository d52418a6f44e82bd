// The listing of a circuit file, as text: a line for the count and the tap, then a line for each row; or one line for a refusal.
#![tactic(auto)]

mod row;
mod text;

ghost use Rattle.std.specs.Prelude.{◌≡◌, ◌≤◌, ◌++◌, length, drop};
ghost use Rattle.circuit.specs.Numbers.{told};
ghost use Rattle.circuit.specs.SetUp.{set_up_report, set_up_rows};
ghost use Rattle.circuit.specs.Listing.{listing_room, accepted_lines, refused_line};
ghost use Rattle.circuit.specs.Promises.{Lists};

use circuit::{Listed, Opened, ROWS, Refusal};
use text::Text;

// Room for any listing. A number has at most 8 digits and a name at most 9 letters, so a first line, `rows N tap N`, has at most 27 bytes
// and a row's line, `N NAME N`, at most 28, each with its newline. A refusal's one line has at most 29.
pub const ROOM: usize = 27 + 28 * ROWS;

pub type Page = [u8; ROOM];

// The lines of a circuit that set-up accepts, with the rows that it prepared.
fn accepted(opened: &Opened) -> Text
    requires accepted { (set_up_report opened.now.circuit).number ≡ 0 }
    requires rows { opened.now.rows ≡ set_up_rows opened.now.circuit }
    ensures { result ≡ accepted_lines opened.now.circuit }
{
    let r = &opened.circuit;
    let mut text = Text::new();
    text.push_numbers("rows ", r.count as u64, " tap ", r.tap as u64);
    text.push_rows(r, &opened.rows);
    text
}

#[tactic(auto, unfolding(circuit::specs::Listing::refused_line, circuit::specs::Text::text, crate::specs::Lines::numbers_line))]
fn refused(refusal: Refusal) -> Text
    ensures { result ≡ refused_line (told refusal) }
{
    let mut text = Text::new();
    text.push_numbers("refused ", refusal.number(), " at ", refusal.place());
    text
}

// A text at the start of the page: how many bytes it has.
fn put(text: &Text, page: &mut Page) -> usize
    ensures size { result ≡ length text.now }
    ensures bytes { page.new ≡ text.now ++ drop (length text.now) page.old }
{
    let bytes = text.as_bytes();
    let length = bytes.len();
    page[..length].copy_from_slice(bytes);
    length
}

// The listing of a file's bytes, at the start of `out`. The bytes after it stay as they were.
pub fn list(s: &[u8], out: &mut Page) -> Listed
    ensures { Lists s.now out.old result out.new }
{
    match file::open(s) {
        Ok(opened) => Listed {
            answer: Ok(()),
            length: put(&accepted(&opened), out),
        },
        Err(refusal) => Listed {
            answer: Err(refusal),
            length: put(&refused(refusal), out),
        },
    }
}
