// Takes: two samples fed whole, in threes and byte by byte, a refused sample and what comes after it, and both sides of each limit of a take.
ghost use Rattle.std.specs.Prelude.{◌<◌, ◌≤◌};

use crate::make;
use crate::make::{case_1, case_8};
use crate::show::{Microvolts, Told};
use crate::tally::{Answer, Bench};
use crate::work::{STORING, stored};
use circuit::{Carried, OUTPUT_LENGTH, Record, Refusal, SAMPLE_LENGTH, SOURCE_LIMIT, TAKE_LIMIT};
use std::io;

// What stands in a byte of the room before a call.
const BEFORE: u8 = 77;

// Two samples, and room for their outputs.
type Samples = [u8; 2 * SAMPLE_LENGTH];

type Room = [u8; 2 * OUTPUT_LENGTH];

// What the last call of a take hands back, and the room after all of them.
#[derive(Clone, Copy, PartialEq, Eq)]
struct Fed {
    answer: Answer,
    carried: Carried,
    room: Room,
}

// 4000 and 0: the outputs are 2000 and -1000.
pub fn cases(bench: &mut Bench) -> io::Result<()> {
    let r = case_8();
    let bytes = [160, 15, 0, 0, 0, 0];
    let fed = Fed {
        answer: Ok(()),
        carried: Carried {
            state: stored(-1000),
            done: 2,
            ..takes::start()
        },
        room: [208, 7, 0, 0, 24, 252, 255, 255],
    };
    thrice(bench, "case 8, samples 4000 and 0 fed", &r, bytes, fed)?;
    refused_sample(bench)?;
    limits(bench)?;
    rooms(bench)?;
    endings(bench)
}

// Two samples fed in pieces of this many bytes, each with room for the outputs of the samples that it makes whole.
fn in_pieces(r: &Record, bytes: Samples, piece: usize) -> Fed
    requires { (0 < piece) × (piece ≤ 6) }
{
    let mut answer = Ok(());
    let mut carried = takes::start();
    let mut room = [BEFORE; 2 * OUTPUT_LENGTH];
    for at in (0..bytes.len()).step_by(piece) {
        let end = (at + piece).min(bytes.len());
        let from = at / SAMPLE_LENGTH * OUTPUT_LENGTH;
        let to = end / SAMPLE_LENGTH * OUTPUT_LENGTH;
        let feed = takes::feed(r, carried, &bytes[at..end], &mut room[from..to]);
        answer = feed.answer;
        carried = feed.carried;
    }
    Fed {
        answer,
        carried,
        room,
    }
}

fn take(bench: &mut Bench, name: &str, how: &str, fed: Fed, expected: Fed) -> io::Result<()> {
    let carried = fed.carried;
    bench.case(
        name,
        format_args!(
            " {how}{}, samples done {}, stored {}",
            Told(fed.answer),
            carried.done,
            Microvolts(carried.state.waves[STORING]),
        ),
        fed == expected,
    )
}

// However it is fed, a take ends alike.
fn thrice(
    bench: &mut Bench,
    name: &str,
    r: &Record,
    bytes: Samples,
    expected: Fed,
) -> io::Result<()> {
    take(bench, name, "whole", in_pieces(r, bytes, 6), expected)?;
    take(bench, name, "in threes", in_pieces(r, bytes, 3), expected)?;
    take(
        bench,
        name,
        "byte by byte",
        in_pieces(r, bytes, 1),
        expected,
    )
}

// 0 and 1: with 0 the diode gets 67108864 microvolts, and with 1 one more. A call after it has a sample at hand, with and without room for
// its output.
fn refused_sample(bench: &mut Bench) -> io::Result<()> {
    let r = make::sources(-SOURCE_LIMIT);
    let bytes = [0, 0, 0, 1, 0, 0];
    let fed = Fed {
        answer: Err(Refusal::Overload(1)),
        carried: Carried {
            done: 1,
            held: 15,
            ..takes::start()
        },
        room: [208, 7, 0, 0, BEFORE, BEFORE, BEFORE, BEFORE],
    };
    let name = "67108864 and then 67108865 microvolts, fed";
    thrice(bench, name, &r, bytes, fed)?;
    let refused = carrying(0, 0, 1, 15);
    call(
        bench,
        "a call after a refused sample",
        &r,
        refused,
        &[0; 3],
        &mut [BEFORE; 4],
        fed.answer,
    )?;
    call(
        bench,
        "a call without room after a refused sample",
        &r,
        refused,
        &[0; 3],
        &mut [],
        fed.answer,
    )
}

// A call with these bytes and this room.
fn call(
    bench: &mut Bench,
    label: &str,
    r: &Record,
    carried: Carried,
    bytes: &[u8],
    room: &mut [u8],
    expected: Answer,
) -> io::Result<()> {
    let feed = takes::feed(r, carried, bytes, room);
    bench.answered(label, feed.answer, expected)
}

// A stored wave, bytes left over, samples done and a refusal held.
fn carrying(wave: i32, count: u8, done: u64, held: u8) -> Carried {
    Carried {
        state: stored(wave),
        left: [8, 9],
        count,
        done,
        held,
    }
}

// A call with no byte and no room, with this carried.
fn idle(
    bench: &mut Bench,
    label: &str,
    r: &Record,
    carried: Carried,
    expected: Answer,
) -> io::Result<()> {
    call(bench, label, r, carried, &[], &mut [], expected)
}

fn limits(bench: &mut Bench) -> io::Result<()> {
    const OUTSIDE: Answer = Err(Refusal::Waves(255));
    // how many bytes are left over, how many samples are done, and what is held
    const CARRIED: [(&str, u8, u64, u8, Answer); 6] = [
        ("two bytes left over", 2, 0, 0, Ok(())),
        ("three bytes left over", 3, 0, 0, OUTSIDE),
        ("2^62 samples done", 0, TAKE_LIMIT, 0, Ok(())),
        ("2^62 + 1 samples done", 0, TAKE_LIMIT + 1, 0, OUTSIDE),
        ("a held refusal of 14", 0, 0, 14, OUTSIDE),
        ("a held refusal of 15", 2, 6, 15, Err(Refusal::Overload(6))),
    ];
    let r = case_1();
    for (label, count, done, held, expected) in CARRIED {
        idle(bench, label, &r, carrying(0, count, done, held), expected)?;
    }
    let carried = carrying(1, 3, 0, 15);
    idle(
        bench,
        "three bytes left over and a wave in a resistor",
        &r,
        carried,
        Err(Refusal::Waves(1)),
    )?;
    let third = Record { version: 3, ..r };
    idle(
        bench,
        "the same in version 3",
        &third,
        carried,
        Err(Refusal::Version),
    )
}

// The room, where one byte is left over, so that two more make a sample and one does not.
fn rooms(bench: &mut Bench) -> io::Result<()> {
    let r = case_1();
    let carried = carrying(0, 1, 0, 0);
    let refused = Err(Refusal::Room);
    call(
        bench,
        "a sample and room for one output",
        &r,
        carried,
        &[0; 2],
        &mut [BEFORE; 4],
        Ok(()),
    )?;
    call(
        bench,
        "a sample and room for three bytes",
        &r,
        carried,
        &[0; 2],
        &mut [BEFORE; 3],
        refused,
    )?;
    call(
        bench,
        "a sample and room for two outputs",
        &r,
        carried,
        &[0; 2],
        &mut [BEFORE; 8],
        refused,
    )?;
    call(
        bench,
        "no sample and room for one output",
        &r,
        carried,
        &[0; 1],
        &mut [BEFORE; 4],
        refused,
    )
}

fn endings(bench: &mut Bench) -> io::Result<()> {
    // how many bytes are left over after six samples, and what is held
    const AFTER_SIX: [(&str, u8, u8, Answer); 4] = [
        ("the end after 6 samples", 0, 0, Ok(())),
        (
            "the end after 6 samples and a byte",
            1,
            0,
            Err(Refusal::LeftOver(6)),
        ),
        (
            "the end after a refused sample",
            1,
            15,
            Err(Refusal::Overload(6)),
        ),
        (
            "the end with three bytes left over",
            3,
            15,
            Err(Refusal::Waves(255)),
        ),
    ];
    let r = case_1();
    let answer = takes::finish(&r, takes::start());
    bench.answered("the end of a take without a byte", answer, Ok(()))?;
    for (label, count, held, expected) in AFTER_SIX {
        let answer = takes::finish(&r, carrying(0, count, 6, held));
        bench.answered(label, answer, expected)?;
    }
    Ok(())
}
