// Answers and differences are counted here, and written.
use std::io;

// It says what is not as the list has it, by the number that is written.
#[derive(Clone, Copy)]
pub(crate) enum Difference {
    Answer = 1,
    Records = 2,
    LentByte = 3,
    PlainTest = 4,
    Call = 5,
}

// It counts the lowering's answers by their numbers, 0 for acceptance or a refusal, and the records, plain functions and differences.
#[derive(Drop)]
pub(crate) struct Report<'a, P: Print> {
    rt: &'a P,
    answers: [u64; 29],
    records: u64,
    plain: u64,
    differences: u64,
}

impl<'a, P: Print> Report<'a, P> {
    pub(crate) fn new(rt: &'a P) -> Self {
        Report {
            rt,
            answers: [0; 29],
            records: 0,
            plain: 0,
            differences: 0,
        }
    }

    pub(crate) fn count_answer(&mut self, number: u64) {
        if let Some(times) = self.answers.get_mut(number as usize) {
            *times = times.wrapping_add(1);
        }
    }

    pub(crate) fn count_records(&mut self, n: u64) {
        self.records = self.records.wrapping_add(n);
    }

    pub(crate) fn count_plain(&mut self) {
        self.plain = self.plain.wrapping_add(1);
    }

    // It writes and counts a difference of the case or call of this number, from 0.
    pub(crate) fn difference(&mut self, index: u64, what: Difference) -> io::Result<()> {
        println!(self.rt; "difference {index} {}", what as u64)?;
        self.differences = self.differences.wrapping_add(1);
        Ok(())
    }

    // It writes the counts: each refusal only if it has come.
    pub(crate) fn print(&self, cases: u64, calls: u64) -> io::Result<()> {
        let rt = self.rt;
        let (accepted, records) = (self.answers[0], self.records);
        println!(rt; "{cases} cases, accepted {accepted}, records {records}")?;
        for (refusal, times) in self.answers.iter().enumerate().skip(1) {
            if 0 < *times {
                println!(rt; "refused {refusal} {times}")?;
            }
        }
        let (plain, differences) = (self.plain, self.differences);
        println!(rt; "plain {plain}")?;
        println!(rt; "{calls} calls, differences {differences}")
    }
}
