// Raw bytes: a sample in three, an output in four, each signed and with its lowest byte first.
ghost use Rattle.std.specs.Prelude.{◌≡◌, ◌+◌, ◌*◌, ◌%◌, ◌^◌, ◌<◌, ◌≤◌, ◌++◌, length, get_or};
ghost use Rattle.circuit.specs.File.{number_at, signed_bytes};
ghost use Rattle.circuit.specs.Take.{sample_length, output_length, signed, sample_at, output_bytes};
ghost use Rattle.laws.proofs.Bytes.{output_bytes-snoc, length-output_bytes};
ghost use Rattle.engine.specs.Raw.{fitting};

use crate::tape::{Samples, Written};
use circuit::{Doubled, OUTPUT_LENGTH, SAMPLE_LENGTH, sample_of};

// The whole samples of `left` and after it `more`, but no more of them than `most`.
#[derive(Clone, Copy)]
pub(crate) struct Packed<'a> {
    pub left: &'a [u8],
    pub more: &'a [u8],
    pub most: usize,
}

impl Packed<'_> {
    fn byte(&self, at: usize) -> u8
        requires { at < length self.now.left.now + length self.now.more.now }
        ensures { result ≡ get_or (self.now.left.now ++ self.now.more.now) at 0 }
    {
        if at < self.left.len() {
            self.left[at]
        } else {
            self.more[at - self.left.len()]
        }
    }

    // Sample i. All but the first few stand in `more` alone.
    fn at(&self, i: usize) -> i32
        requires { sample_length * i + sample_length ≤ length self.now.left.now + length self.now.more.now }
        ensures { result ≡ sample_at i (self.now.left.now ++ self.now.more.now) }
    {
        let at = SAMPLE_LENGTH * i;
        if self.left.is_empty() {
            return sample_in(self.more, at);
        }
        if at < self.left.len() {
            let a = self.byte(at);
            let b = self.byte(at + 1);
            let c = self.byte(at + 2);
            return sample_of(a, b, c);
        }
        sample_in(self.more, at - self.left.len())
    }
}

// The sample in the three bytes from `at` on.
fn sample_in(s: &[u8], at: usize) -> i32
    requires { at + sample_length ≤ length s.now }
    ensures { result ≡ signed (number_at sample_length at s.now % 2 ^ 24) }
{
    sample_of(s[at], s[at + 1], s[at + 2])
}

impl Samples for Packed<'_> {
    ghost samples = { λ p. fitting p.most (p.left.now ++ p.more.now) };

    fn count(&self) -> usize {
        let whole = (self.left.len() + self.more.len()) / SAMPLE_LENGTH;
        whole.min(self.most)
    }

    fn sample(&self, i: usize) -> i32 {
        self.at(i)
    }
}

impl Written for u8 {
    ghost width = { output_length };

    ghost piece = { signed_bytes };

    ghost shown = { output_bytes };

    ghost shows = { record { more = output_bytes-snoc; long = length-output_bytes } };

    fn put(out: &mut [u8], i: usize, output: Doubled) {
        let at = OUTPUT_LENGTH * i;
        let [a, b, c, d] = output.0.to_le_bytes();
        out[at] = a;
        out[at + 1] = b;
        out[at + 2] = c;
        out[at + 3] = d;
    }
}
