// An adaptor: the waves that it sends up and down. Waves are whole microvolts, a ratio is in parts of 2^24 and in the width of a wave.
ghost use Rattle.std.specs.Prelude.{◌≡◌, refl, true, false, ℤ, pos, ◌+ℤ◌, ◌*ℤ◌, nat_abs};
ghost use Rattle.std.specs.Int.Signed.{quot_z};
ghost use Rattle.whole.specs.Order.{Abs};
ghost use Rattle.circuit.specs.SetUp.{parts};
ghost use Rattle.circuit.specs.Sample.{Rounding, h, whole_waves, rounded_down, rounded_to_zero, sends_up, sends_first, sends_second};
ghost use Rattle.laws.specs.Accepted.{adaptor_limit};
ghost use Rattle.engine.specs.Wave.{up_limit, sum_limit, Share, Known, Below, Beneath};

use circuit::{Join, PARTS, Wave};

// The waves that an adaptor sends its two children.
#[derive(Clone, Copy)]
pub(crate) struct SentDown {
    pub first: Wave,
    pub second: Wave,
}

// g·t / 2^24, rounded down.
fn part(g: i64, t: i64) -> i64
    requires { Share g × Abs t sum_limit }
    ensures { result ≡ h (nat_abs g) t }
{
    (g * t) >> 24
}

// a + g·t / 2^24 as one fraction, rounded toward zero.
fn mixed(g: i64, a: i64, t: i64) -> i64
    requires { Share g × Abs a (up_limit adaptor_limit) × Abs t sum_limit }
    ensures { result ≡ quot_z (pos parts *ℤ a +ℤ g *ℤ t) (pos parts) }
{
    (PARTS as i64 * a + g * t) / PARTS as i64
}

// The ways to round: each has sweeps of its own, in which no adaptor asks which it is.
pub(crate) trait Rounds {
    ghost rounding: { Rounding };

    // What a parallel adaptor sends up.
    fn parallel_up(g: i64, a1: i64, a2: i64) -> i64
        requires { Below g a1 a2 }
        ensures { result ≡ rounding.u (nat_abs g) a1 a2 };

    // What a series adaptor sends its first child; t is the sum of the three waves that reach the adaptor.
    fn series_first(g: i64, a1: i64, t: i64) -> i64
        requires { Share g × Abs a1 (up_limit adaptor_limit) × Abs t sum_limit }
        ensures { (a2 a3 : ℤ) → t ≡ a1 +ℤ a2 +ℤ a3 → result ≡ rounding.b1 (nat_abs g) a1 a2 a3 };

    ghost known: { Known rounding };
}

pub(crate) struct Down;

impl Rounds for Down {
    ghost rounding = { rounded_down };

    ghost known = { (false, refl) };

    fn parallel_up(g: i64, a1: i64, a2: i64) -> i64 {
        a2 + part(g, a1 - a2)
    }

    fn series_first(g: i64, a1: i64, t: i64) -> i64 {
        a1 - part(g, t)
    }
}

pub(crate) struct TowardZero;

impl Rounds for TowardZero {
    ghost rounding = { rounded_to_zero };

    ghost known = { (true, refl) };

    fn parallel_up(g: i64, a1: i64, a2: i64) -> i64 {
        mixed(g, a2, a1 - a2)
    }

    fn series_first(g: i64, a1: i64, t: i64) -> i64 {
        mixed(g, a1, -t)
    }
}

pub(crate) fn sends_up<R: Rounds>(join: Join, g: i64, a1: Wave, a2: Wave) -> Wave
    requires { Below g a1.0 a2.0 }
    ensures { result.0 ≡ sends_up (whole_waves R.rounding) join (nat_abs g) a1.0 a2.0 }
{
    match join {
        Join::Series => Wave(-(a1.0 + a2.0)),
        Join::Parallel => Wave(R::parallel_up(g, a1.0, a2.0)),
    }
}

// With a3 from above; u is what the adaptor has sent up.
pub(crate) fn sends_down<R: Rounds>(
    join: Join,
    g: i64,
    a1: Wave,
    a2: Wave,
    u: Wave,
    a3: Wave,
) -> SentDown
    requires { Beneath R.rounding join g a1.0 a2.0 u.0 a3.0 }
    ensures first { result.first.0 ≡ sends_first (whole_waves R.rounding) join (nat_abs g) a1.0 a2.0 a3.0 }
    ensures second { result.second.0 ≡ sends_second (whole_waves R.rounding) join (nat_abs g) a1.0 a2.0 a3.0 }
{
    match join {
        Join::Series => {
            let b1 = R::series_first(g, a1.0, a3.0 - u.0);
            let first = Wave(b1);
            let second = Wave(-(a3.0 + b1));
            SentDown { first, second }
        }
        Join::Parallel => {
            let all = u.0 + a3.0;
            let first = Wave(all - a1.0);
            let second = Wave(all - a2.0);
            SentDown { first, second }
        }
    }
}
