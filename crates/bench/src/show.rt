// What the bench's lines are made of: an answer as a reader says it, and numbers with their unit.
use crate::tally::Answer;
use crate::work::BEFORE;
use std::fmt::{Display, Formatter, Result, Write};

// An answer.
#[derive(Clone, Copy)]
pub struct Told(pub Answer);

impl Display for Told {
    fn fmt<W: Write>(&self, f: &mut Formatter<W>) -> Result {
        match self.0 {
            Ok(()) => write!(f, ": done"),
            Err(refusal) => write!(f, ": refused {} at {}", refusal.number(), refusal.place()),
        }
    }
}

// A wave.
#[derive(Clone, Copy)]
pub struct Microvolts(pub i32);

impl Display for Microvolts {
    fn fmt<W: Write>(&self, f: &mut Formatter<W>) -> Result {
        write!(f, "{} microvolts", self.0)
    }
}

// An output: twice a voltage is the sum of two waves, so its unit is half a wave's.
#[derive(Clone, Copy)]
pub struct Output(pub i32);

impl Display for Output {
    fn fmt<W: Write>(&self, f: &mut Formatter<W>) -> Result {
        match self.0 {
            BEFORE => write!(f, ", output left"),
            output => write!(f, ", output {output} half microvolts"),
        }
    }
}

#[derive(Clone, Copy)]
pub struct Segment(pub Option<u8>);

impl Display for Segment {
    fn fmt<W: Write>(&self, f: &mut Formatter<W>) -> Result {
        match self.0 {
            None => write!(f, ", no segment"),
            Some(segment) => write!(f, ", segment {segment}"),
        }
    }
}
