// A raw take through a circuit: samples of three bytes in, outputs of four bytes out, cut at any byte.
#![tactic(auto)]

ghost use Rattle.std.specs.Prelude.{◌≡◌, length, Err, None};
ghost use Rattle.circuit.specs.Take.{take_of, fresh_take, feeding};
ghost use Rattle.circuit.specs.Promises.{Feeds, Ends};
ghost use Rattle.takes.specs.Own.{Ready};

mod left;
mod rules;

use circuit::{Carried, Feed, LEFT_LIMIT, Record, Refusal};
use left::carried_on;
use rules::{end_rule, own_rules, room_rule};

// What the first call of a take is given.
#[tactic(auto, unfolding(circuit::specs::Take::fresh_take))]
pub fn start() -> Carried
    ensures { result ≡ fresh_take }
{
    Carried {
        state: setup::fresh(),
        left: [0; LEFT_LIMIT],
        count: 0,
        done: 0,
        held: 0,
    }
}

// A refused call takes no byte and carries on what it was given.
fn turned_away(refusal: Refusal, carried: Carried) -> Feed
    ensures { result ≡ record { answer = Err refusal; done = 0; segment = None; carried = carried } }
{
    Feed {
        answer: Err(refusal),
        done: 0,
        segment: None,
        carried,
    }
}

// A call that the take's own rules let pass: what is left to refuse it is the circuit, and then a sample. After a refused sample no byte is
// left over.
fn work(r: &Record, carried: Carried, bytes: &[u8], out: &mut [u8]) -> Feed
    requires { Ready (length bytes.now) (length out.old) carried }
    ensures { Feeds (feeding r.now carried bytes.now out.old) result out.new }
{
    let left = &carried.left[..carried.count as usize];
    let progress = engine::run_raw(r, carried.state, left, bytes, out);
    let done = carried.done + progress.done as u64;
    match progress.answer {
        Ok(()) => Feed {
            answer: Ok(()),
            done: progress.done,
            segment: progress.segment,
            carried: carried_on(progress.state, left, bytes, done),
        },
        Err(refusal) => match refusal {
            Refusal::Overload(_) => Feed {
                answer: Err(Refusal::Overload(done as usize)),
                done: progress.done,
                segment: progress.segment,
                carried: Carried {
                    held: 15,
                    ..carried_on(progress.state, &[], &[], done)
                },
            },
            _ => turned_away(refusal, carried),
        },
    }
}

// Works the samples that these bytes make whole, after those left over. `out` is to have four bytes for each.
pub fn feed(r: &Record, carried: Carried, bytes: &[u8], out: &mut [u8]) -> Feed
    ensures { Feeds (feeding r.now carried bytes.now out.old) result out.new }
{
    let own = own_rules(&carried);
    let room = room_rule(&carried, bytes, out.len());
    // The circuit is set up once: here, or for the run.
    if let Err(refusal) = own.and(room) {
        let first = match charge::check(r, &carried.state).answer {
            Ok(()) => refusal,
            Err(circuit) => circuit,
        };
        return turned_away(first, carried);
    }
    work(r, carried, bytes, out)
}

// The ending of a take. It carries nothing on, so that it may be asked at any time.
pub fn finish(r: &Record, carried: Carried) -> Result<(), Refusal>
    ensures { Ends (take_of r.now carried) result }
{
    charge::check(r, &carried.state).answer?;
    own_rules(&carried)?;
    end_rule(&carried)
}
