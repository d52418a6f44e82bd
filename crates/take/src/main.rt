// Works a raw take through a circuit. Standard input has the circuit file and then the take; standard output gets the outputs and nothing
// else. Standard error says in words why a circuit or a take is refused. An argument says how many samples are read and worked at a time.
#![tactic(auto)]

mod asked;

ghost use Rattle.std.specs.Prelude.{◌+◌, ◌*◌, ◌/◌, ◌≤◌, ◌≡◌, IfOk};
ghost use Rattle.circuit.specs.Take.{sample_length, output_length, left_limit};

use circuit::{Carried, FILE_LENGTH, OUTPUT_LENGTH, Record, Refusal, SAMPLE_LENGTH, TAKE_LIMIT};
use std::io;
use std::io::Read;
use streams::read_full;

// The largest piece of a take, in samples, and the usual one: so many that setting the circuit up, which is done for every piece, is a small
// part of the work.
const PIECE: usize = 10000;

const PIECE_BYTES: usize = SAMPLE_LENGTH * PIECE;

const PIECE_ROOM: usize = OUTPUT_LENGTH * PIECE;

// `knob` has the like. One public function for both could promise nothing, for no clause speaks of what is printed.
fn say_refusal(rt: &HostRuntime, refusal: Refusal) -> io::Result<()> {
    let words = words::explain(Err(refusal));
    eprint!(rt; "take: {refusal}: {words}")
}

// Four bytes for each sample that the bytes make whole, with those left over before them.
fn room_for(left: u8, read: usize) -> usize
    requires { (left ≤ left_limit) × (read ≤ sample_length * 10000) }
    ensures { result ≡ output_length * ((left + read) / sample_length) }
{
    OUTPUT_LENGTH * ((left as usize + read) / SAMPLE_LENGTH)
}

// What a piece leaves: what the take carries on, and whether there may be more of the take to work. The last piece carries on too, for the
// take's ending is judged by it, so both are told.
#[derive(Clone, Copy)]
struct Worked {
    carried: Carried,
    more: bool,
}

// Works a piece and writes its outputs, those before a refused sample too.
fn work(
    rt: &HostRuntime,
    r: &Record,
    carried: Carried,
    bytes: &[u8],
    out: &mut [u8],
) -> io::Result<Worked>
    requires { carried.count ≤ left_limit }
    ensures { IfOk result (λ w. w.carried.count ≤ left_limit) }
{
    let fed = takes::feed(r, carried, bytes, out);
    rt.write_all(&out[..OUTPUT_LENGTH * fed.done])?;
    Ok(Worked {
        carried: fed.carried,
        more: fed.answer.is_ok(),
    })
}

// What works a take: where the outputs go, the circuit, and room for a piece and for its outputs.
#[derive(Drop)]
struct Player<'a> {
    rt: &'a HostRuntime,
    circuit: &'a Record,
    bytes: [u8; PIECE_BYTES],
    out: [u8; PIECE_ROOM],
}

impl<'a> Player<'a> {
    // Reads a piece of so many samples, and works it.
    fn work_piece<R: Read>(
        &mut self,
        from: &mut R,
        samples: usize,
        carried: Carried,
    ) -> io::Result<Worked>
        requires { (samples ≤ 10000) × (carried.count ≤ left_limit) }
        ensures { IfOk result (λ w. w.carried.count ≤ left_limit) }
    {
        let (rt, circuit) = (self.rt, self.circuit);
        let bytes = &mut self.bytes[..];
        let out = &mut self.out[..];
        let size = SAMPLE_LENGTH * samples;
        let count = read_full(from, &mut bytes[..size])?;
        let room = room_for(carried.count, count);
        let worked = work(rt, circuit, carried, &bytes[..count], &mut out[..room])?;
        Ok(Worked {
            carried: worked.carried,
            more: worked.more & (count == size),
        })
    }

    // Works a take in pieces of so many samples, to its end or its first refused sample, and answers with its ending. Every piece but the last
    // is full, with whole samples, and no take has more than TAKE_LIMIT.
    fn work_take<R: Read>(
        &mut self,
        from: &mut R,
        samples: usize,
    ) -> io::Result<Result<(), Refusal>>
        requires { samples ≤ 10000 }
    {
        let mut carried = takes::start();
        for _ in 0..TAKE_LIMIT {
            let worked = self.work_piece(from, samples, carried)?;
            carried = worked.carried;
            if !worked.more {
                break;
            }
        }
        Ok(takes::finish(self.circuit, carried))
    }
}

// Reads the circuit, and works the take that comes after it in pieces of so many samples. A fault of the input and a refusal are two things,
// which `main` tells apart.
fn run<R: Read>(
    rt: &HostRuntime,
    from: &mut R,
    s: &[u8],
    samples: usize,
) -> io::Result<Result<(), Refusal>>
    requires { samples ≤ 10000 }
{
    let record = match file::read(s) {
        Ok(record) => record,
        Err(refusal) => return Ok(Err(refusal)),
    };
    let mut player = Player {
        rt,
        circuit: &record,
        bytes: [0; PIECE_BYTES],
        out: [0; PIECE_ROOM],
    };
    player.work_take(from, samples)
}

fn say_usage(rt: &HostRuntime) -> io::Result<()> {
    eprintln!(rt;
        "usage: take [N] < INPUT, where INPUT is a circuit file and after it the take, read N samples at a time, 1 to 10000"
    )
}

fn main(rt: HostRuntime) -> io::Result<()> {
    let Some(samples) = asked::samples(&rt) else {
        return say_usage(&rt);
    };
    let mut from = rt.reader();
    let mut bytes = [0u8; FILE_LENGTH];
    let count = read_full(&mut from, &mut bytes)?;
    if count == 0 {
        return say_usage(&rt);
    }
    match run(&rt, &mut from, &bytes[..count], samples)? {
        Ok(()) => Ok(()),
        Err(refusal) => say_refusal(&rt, refusal),
    }
}
