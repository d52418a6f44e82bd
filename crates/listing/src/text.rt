// A text that grows at its end, with room for any listing.
ghost use Rattle.std.specs.Prelude.{ℕ, ◌+◌, ◌≤◌, ◌≡◌, List, [], ◌∷◌, ◌++◌, length, take};
ghost use Rattle.circuit.specs.Text.{digits, decimal};
ghost use Rattle.circuit.specs.Listing.{listing_room};
ghost use Rattle.listing.specs.Lines.{number_room, numbers_room, numbers_line};

use crate::ROOM;
use std::marker::Model;

// Nothing here has more decimal digits: the largest number is a ratio, below 2^24.
const DIGITS: usize = 8;

// A clause sees the bytes written so far. Fixed room with an end, since nothing is allocated.
#[derive(Drop)]
pub(crate) struct Text {
    bytes: [u8; ROOM],
    end: usize,
}

impl Model for Text {
    ghost Value = { List ℕ };

    ghost view = { λ t. take t.end t.bytes };

    ghost invariant = { λ t. t.end ≤ listing_room };
}

impl Text {
    pub(crate) fn new() -> Text
        ensures { result ≡ [] }
    {
        Text {
            bytes: [0; ROOM],
            end: 0,
        }
    }

    pub(crate) fn as_bytes(&self) -> &[u8]
        ensures bytes { result.now ≡ self.now }
        ensures room { length result.now ≤ listing_room }
    {
        &self.bytes[..self.end]
    }

    pub(crate) fn push(&mut self, text: &str)
        requires { length self.old + length text.now ≤ listing_room }
        ensures bytes { self.new ≡ self.old ++ text.now }
        ensures size { length self.new ≡ length self.old + length text.now }
    {
        let end = self.end + text.len();
        self.bytes[self.end..end].copy_from_slice(text.as_bytes());
        self.end = end;
    }

    fn push_digit(&mut self, digit: u64)
        requires { (digit ≤ 9) × (length self.old + 1 ≤ listing_room) }
        ensures { self.new ≡ self.old ++ (48 + digit) ∷ [] }
    {
        self.bytes[self.end] = b'0' + digit as u8;
        self.end += 1;
    }

    // The last k decimal digits of n, with no zero in front. Digit by digit: `write!` answers a `Result`, and no clause of the library says when
    // it cannot fail; a listing would then have a refusal more.
    fn push_digits(&mut self, k: usize, n: u64)
        requires { length self.old + k ≤ listing_room }
        ensures bytes { self.new ≡ self.old ++ digits k n }
        ensures size { length self.new ≤ length self.old + k }
    {
        if k == 0 {
            return;
        }
        if 10 <= n {
            self.push_digits(k - 1, n / 10);
        }
        self.push_digit(n % 10);
    }

    pub(crate) fn push_number(&mut self, n: u64)
        requires { length self.old + number_room ≤ listing_room }
        ensures bytes { self.new ≡ self.old ++ decimal n }
        ensures size { length self.new ≤ length self.old + number_room }
    {
        self.push_digits(DIGITS, n);
    }

    // A line of two numbers, with a text before each.
    #[tactic(auto, unfolding(circuit::specs::Text::text, crate::specs::Lines::numbers_line))]
    pub(crate) fn push_numbers(&mut self, first: &str, a: u64, second: &str, b: u64)
        requires { length self.old + numbers_room first.now second.now ≤ listing_room }
        ensures bytes { self.new ≡ self.old ++ numbers_line first.now a second.now b }
        ensures size { length self.new ≤ length self.old + numbers_room first.now second.now }
    {
        self.push(first);
        self.push_number(a);
        self.push(second);
        self.push_number(b);
        self.push("\n");
    }
}
