// The theorems, as promises of functions. Each function here is a use of the public ones, of any arguments at all, and what it promises
// is a theorem about them.
#![tactic(auto)]

ghost use Rattle.std.specs.Prelude.{◌≡◌, cond, ◌<◌, ◌^◌, eqb, length};
ghost use Rattle.circuit.specs.Numbers.{told};
ghost use Rattle.circuit.specs.SetUp.{set_up_rows};
ghost use Rattle.circuit.specs.File.{file_length, zeros, read_record};
ghost use Rattle.circuit.specs.Run.{call};
ghost use Rattle.circuit.specs.Take.{feeding};
ghost use Rattle.circuit.specs.Knee.{built_kind, built_width, built_columns};
ghost use Rattle.circuit.specs.Promises.{Runs, Feeds};
ghost use Rattle.file.specs.Held.{Held};
ghost use Rattle.theorems.specs.Pieces as Pieces;
ghost use Rattle.uses.specs.Promises.{Rewrites, Rereads, can_cut, RunsBounded};

use circuit::{
    Built, COLUMNS, Carried, Column, CurveKind, FILE_LENGTH, Feed, Knob, LEFT_LIMIT, OUTPUT_LENGTH,
    Prepared, Progress, ROWS, Record, Refusal, SAMPLE_LENGTH, State, TAKE_LIMIT,
};

// Reading and then writing gives the same bytes: an accepted file is written as it was read, and a refused one leaves `out` as it is.
pub fn rewrite(bytes: &[u8], out: &mut [u8]) -> Result<(), Refusal>
    ensures { Rewrites (record { file = bytes.now; buffer = out.old }) result out.new }
{
    // by its arms and not by `?`, here and below: so a wrong answer for one of them is refused for what it says, and not since the names that a `?`
    // gives a proof are gone
    match file::read(bytes) {
        Ok(circuit) => file::write(&circuit, out),
        Err(unread) => Err(unread),
    }
}

fn blank_page() -> [u8; FILE_LENGTH]
    ensures { result ≡ zeros file_length }
{
    [0; FILE_LENGTH]
}

// A record, with what it has by its type: an array its length, and a number its range.
fn own(r: Record) -> Record
    ensures same { result ≡ r }
    ensures held { Held result }
{
    r
}

// Writing and then reading gives the same record, every f64 bit for bit. Of a refused record no file is written, and none is read.
pub fn reread(r: &Record) -> Result<Record, Refusal>
    ensures { Rereads r.now result }
{
    let circuit = own(*r);
    let mut page = blank_page();
    match file::write(&circuit, &mut page) {
        Ok(()) => file::read(&page),
        Err(unwritten) => Err(unwritten),
    }
}

// A refusal hands back nothing else. These three put zeros in its place, and have what the definitions hand back, whatever comes in: the record of a
// file's bytes,
pub fn read_or_zeros(bytes: &[u8]) -> Record
    ensures { result ≡ read_record bytes.now }
{
    file::read(bytes).unwrap_or(blocks::no_record())
}

// a record's prepared rows,
pub fn set_up_or_zeros(r: &Record) -> [Prepared; ROWS]
    ensures { result ≡ set_up_rows r.now }
{
    let blank = Prepared {
        resistance: 0.0,
        ratio: 0,
    };
    setup::set_up(r).unwrap_or([blank; ROWS])
}

// and the curve that a knob asks for.
pub fn build_or_zeros(knob: Knob) -> Built
    ensures kind { result.kind ≡ built_kind knob }
    ensures width { result.width ≡ built_width knob }
    ensures columns { result.columns ≡ built_columns knob }
{
    knee::build(knob).unwrap_or(Built {
        kind: CurveKind::Unset,
        width: 0,
        columns: [Column { x: 0, y: 0 }; COLUMNS],
    })
}

// A refusal of samples that begin `at` after the first.
#[tactic(auto, unfolding(circuit::specs::Numbers::told))]
fn later(at: usize, refusal: Refusal) -> Refusal
    requires { (Pieces.later at (told refusal)).place < 2 ^ 64 }
    ensures { told result ≡ Pieces.later at (told refusal) }
{
    match refusal {
        Refusal::Sample(index) => Refusal::Sample(at + index),
        Refusal::Overload(index) => Refusal::Overload(at + index),
        _ => refusal,
    }
}

// The segment of two calls: of the later, unless it finished no sample. Not `second.or(first)`: that would rest on a theorem, that a finished
// sample shows a segment, where this rests on the promise alone.
fn last_segment(first: Option<u8>, done: usize, second: Option<u8>) -> Option<u8>
    ensures { result ≡ cond (eqb done 0) first second }
{
    if done == 0 { first } else { second }
}

// Cutting a run changes nothing: a run in two calls, cut at sample `at`, promises what one call does. Lengths that differ, and a cut past the
// input, are one call.
pub fn run_in_two(
    r: &Record,
    state: State,
    input: &[i32],
    output: &mut [i32],
    at: usize,
) -> Progress
    ensures { Runs (call r.now state.waves input.now output.old) result output.new }
{
    if (input.len() != output.len()) | (input.len() < at) {
        return engine::run(r, state, input, output);
    }
    let first = engine::run(r, state, &input[..at], &mut output[..at]);
    if first.answer.is_err() {
        return first;
    }
    let second = engine::run(r, first.state, &input[at..], &mut output[at..]);
    Progress {
        answer: second
            .answer
            .map_err(move |refusal| later(first.done, refusal)),
        done: first.done + second.done,
        segment: last_segment(first.segment, second.done, second.segment),
        state: second.state,
    }
}

// Whether a call of a take can be cut at byte `at`: the cut is inside, 16 does not apply, and the take keeps its limit. That is looked at only
// where a call begins, so that past it a second call would be refused where one call is not.
fn can_cut(carried: Carried, bytes: &[u8], room: usize, at: usize) -> bool
    ensures { result ≡ can_cut carried (length bytes.now) room at }
{
    if TAKE_LIMIT < carried.done {
        return false;
    }
    let count = carried.count as usize;
    let whole = (count + bytes.len()) / SAMPLE_LENGTH;
    let kept = carried.done + whole as u64 <= TAKE_LIMIT;
    kept & (at <= bytes.len()) & (count <= LEFT_LIMIT) & (room == OUTPUT_LENGTH * whole)
}

// Cutting a call of a take changes nothing: a call in two calls, cut at byte `at`, which may be inside a sample, promises what one call does.
// Where the first call is refused, the second is refused alike.
pub fn feed_in_two(r: &Record, carried: Carried, bytes: &[u8], out: &mut [u8], at: usize) -> Feed
    ensures { Feeds (feeding r.now carried bytes.now out.old) result out.new }
{
    if !can_cut(carried, bytes, out.len(), at) {
        return takes::feed(r, carried, bytes, out);
    }
    let count = carried.count as usize;
    let cut = OUTPUT_LENGTH * ((count + at) / SAMPLE_LENGTH);
    let first = takes::feed(r, carried, &bytes[..at], &mut out[..cut]);
    let second = takes::feed(r, first.carried, &bytes[at..], &mut out[cut..]);
    Feed {
        answer: second.answer,
        done: first.done + second.done,
        segment: last_segment(first.segment, second.done, second.segment),
        carried: second.carried,
    }
}

// Demand 3: each sample that a run reports done is within 2N² + N + 1 of the unrounded one.
pub fn run_bounded(r: &Record, state: State, input: &[i32], output: &mut [i32]) -> Progress
    ensures { RunsBounded (call r.now state.waves input.now output.old) result output.new }
{
    let circuit = own(*r);
    engine::run(&circuit, state, input, output)
}
