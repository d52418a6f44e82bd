// Where the cases are printed and counted.
use crate::show::Told;
use circuit::Refusal;
use std::fmt::Display;
use std::io;

// What a call hands back: nothing but that it is done, or why it is refused.
pub type Answer = Result<(), Refusal>;

#[derive(Drop)]
pub struct Bench<'a> {
    rt: &'a HostRuntime,
    cases: u64,
    // how many of them agree with what they should be
    agree: u64,
}

impl<'a> Bench<'a> {
    pub fn new(rt: &'a HostRuntime) -> Self {
        Bench {
            rt,
            cases: 0,
            agree: 0,
        }
    }

    // A case's line: what it is called, what it handed back, and whether that is wrong.
    pub fn case(&mut self, label: &str, told: impl Display + Drop, agrees: bool) -> io::Result<()> {
        self.cases = self.cases.wrapping_add(1);
        self.agree = self.agree.wrapping_add(agrees as u64);
        let verdict = if agrees { "" } else { ", WHICH IS WRONG" };
        println!(self.rt; "{label}{told}{verdict}")
    }

    // A case of which only the answer is shown.
    pub fn answered<T: Drop>(
        &mut self,
        label: &str,
        found: Result<T, Refusal>,
        expected: Answer,
    ) -> io::Result<()> {
        let answer = found.and(Ok(()));
        self.case(label, Told(answer), answer == expected)
    }

    pub fn summary(&self) -> io::Result<()> {
        println!(self.rt; "{} of {} cases agree", self.agree, self.cases)
    }
}
