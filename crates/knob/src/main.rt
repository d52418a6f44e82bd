// Turns the knob of the circuit file on standard input: standard output gets the same file, with the curve of a knee and a thermal voltage in
// place of its own. Standard error says in words why a file or a knob is refused, and nothing is written then. The two arguments are the knee
// and the thermal voltage, in whole microvolts.
#![tactic(auto)]

use circuit::{FILE_LENGTH, Knob, Refusal};
use std::io;
use streams::{argument, read_full};

// The program's own name, the knee and the thermal voltage.
const ARGUMENTS: usize = 3;

// Room for what an argument's digits may be.
const LONGEST_ARGUMENT: usize = 4096;

// The most that an i32 holds. It is refused, so what is above it may count as it.
const MOST: u32 = i32::MAX as u32;

fn say_usage(rt: &HostRuntime) -> io::Result<()> {
    eprintln!(rt;
        "usage: knob A V < FILE, where FILE is a circuit file, A a knee and V a thermal voltage, both in whole microvolts"
    )
}

// `take` has the like. One public function for both could promise nothing, for no clause speaks of what is printed.
fn say_refusal(rt: &HostRuntime, refusal: Refusal) -> io::Result<()> {
    let words = words::explain(Err(refusal));
    eprint!(rt; "knob: {refusal}: {words}")
}

// An argument that is longer than the buffer counts as empty.
fn voltage(rt: &HostRuntime, i: usize) -> Option<i32> {
    let mut digits = [0u8; LONGEST_ARGUMENT];
    let length = argument(rt, i, &mut digits)?;
    let number = numeral::read(&digits[..length], MOST)?;
    i32::try_from(number).ok()
}

// Whether there are as many arguments as the usage says: the last of them, and none after it.
fn as_many(rt: &HostRuntime) -> bool {
    argument(rt, ARGUMENTS - 1, &mut []).is_some() && argument(rt, ARGUMENTS, &mut []).is_none()
}

// The knob that the arguments ask for, where they are as the usage says.
fn asked(rt: &HostRuntime) -> Option<Knob> {
    if !as_many(rt) {
        return None;
    }
    Some(Knob {
        knee: voltage(rt, 1)?,
        thermal: voltage(rt, 2)?,
    })
}

// Writes the file with its curve built anew, or says why it is refused.
fn turn(rt: &HostRuntime, s: &[u8], knob: Knob) -> io::Result<()> {
    let mut out = [0u8; FILE_LENGTH];
    match knee::turn(s, knob, &mut out) {
        Ok(()) => rt.write_all(&out),
        Err(refusal) => say_refusal(rt, refusal),
    }
}

// Room is fixed, since nothing is allocated: one byte more than a file has is enough to tell an input that is too long.
fn main(rt: HostRuntime) -> io::Result<()> {
    let Some(knob) = asked(&rt) else {
        return say_usage(&rt);
    };
    let mut bytes = [0u8; FILE_LENGTH + 1];
    let count = read_full(&mut rt.reader(), &mut bytes)?;
    if count == 0 {
        return say_usage(&rt);
    }
    turn(&rt, &bytes[..count], knob)
}
