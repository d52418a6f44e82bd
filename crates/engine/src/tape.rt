// What the samples of a run are read from, and what their outputs are written in.
ghost use Rattle.std.specs.Prelude.{◌≡◌, ℕ, ◌+◌, ◌*◌, ◌<◌, ◌≤◌, List, [], ◌∷◌, ℤ, pos, length, get_or, refl};
ghost use Rattle.std.proofs.Common.{sym};
ghost use Rattle.std.proofs.lemmas.List.Edits.{sets};
ghost use Rattle.std.proofs.Math.Nat.{one-mul};
ghost use Rattle.engine.specs.Tape.{Shows};

use circuit::Doubled;

// Samples in their order, in microvolts.
pub(crate) trait Samples {
    ghost samples: { Self → List ℤ };

    fn count(&self) -> usize
        ensures { result ≡ length (samples self.now) };

    fn sample(&self, i: usize) -> i32
        requires { i < length (samples self.now) }
        ensures { result ≡ get_or (samples self.now) i (pos 0) };
}

// What outputs are written in, in half microvolts.
pub(crate) trait Written: Sized {
    // how many of them one output takes
    ghost width: { ℕ };

    // one output, and outputs in their order
    ghost piece: { ℤ → List Self };

    ghost shown: { List ℤ → List Self };

    // Output i.
    fn put(out: &mut [Self], i: usize, output: Doubled)
        requires { width * i + width ≤ length out.old }
        ensures { out.new ≡ sets out.old (width * i) (piece output.0) };

    ghost shows: { Shows width piece shown };
}

impl Samples for &[i32] {
    ghost samples = { λ s. s.now };

    fn count(&self) -> usize {
        self.len()
    }

    fn sample(&self, i: usize) -> i32 {
        self[i]
    }
}

impl Written for i32 {
    ghost width = { 1 };

    ghost piece = { λ v. v ∷ [] };

    ghost shown = { λ vs. vs };

    ghost shows = { record { more = λ vs v. refl; long = λ vs. sym (one-mul (length vs)) } };

    fn put(out: &mut [i32], i: usize, output: Doubled) {
        out[i] = output.0;
    }
}
