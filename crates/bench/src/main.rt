// The bench: the cases of the paper's table, both sides of each limit, and what a refusal leaves, through the functions that anyone can
// call. A line says what a case hands back; the last line, how many cases agree with what they should be.
#![tactic(auto)]

mod feeds;
mod files;
mod knees;
mod lights;
mod make;
mod runs;
mod samples;
mod set_ups;
mod show;
mod tally;
mod work;

use crate::tally::Bench;
use std::io;

fn main(rt: HostRuntime) -> io::Result<()> {
    let mut bench = Bench::new(&rt);
    set_ups::cases(&mut bench)?;
    samples::cases(&mut bench)?;
    runs::cases(&mut bench)?;
    files::cases(&mut bench)?;
    feeds::cases(&mut bench)?;
    knees::cases(&mut bench)?;
    lights::cases(&mut bench)?;
    bench.summary()
}
