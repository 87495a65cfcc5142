// The fixed list of the oracle's answers (vectors/README.md has its form) is standard input. Each of its cases goes through the lowering and the plain
// test as C calls them, and each of its calls through its export. A case whose answer, records, lent bytes or plain test are not as the list has them gives a
// line `difference`, and so does a call whose answer or lent bytes are not. The last lines have the counts.
#![tactic(auto)]

mod cases;
mod exports;
mod list;
mod report;

ghost use Rattle.std.specs.Prelude.{◌≡◌, length};

use crate::cases::replay_cases;
use crate::exports::replay_calls;
use crate::list::{Malformed, Reader};
use crate::report::Report;
use std::io;
use streams::read_full;

// It says why a replay ends early.
#[derive(Drop)]
pub(crate) enum ReplayError {
    Malformed,
    Io(io::Error),
}

impl From<Malformed> for ReplayError {
    fn from(_: Malformed) -> Self {
        ReplayError::Malformed
    }
}

impl From<io::Error> for ReplayError {
    fn from(error: io::Error) -> Self {
        ReplayError::Io(error)
    }
}

// It gives so many zeros. The `ensures` gives the length, so that a long array that is lent as a slice is never counted out.
fn zeros<const N: usize>() -> [u8; N]
    ensures { N ≡ length result }
{
    [0; N]
}

// It runs all the cases and all the calls, with nothing behind them, and writes the counts.
fn replay(rt: &impl Print, list: &[u8]) -> Result<(), ReplayError> {
    let mut report = Report::new(rt);
    let mut list = Reader::new(list)?;
    let cases = replay_cases(&mut list, &mut report)?;
    let calls = replay_calls(&mut list, &mut report)?;
    list.end()?;
    Ok(report.print(cases, calls)?)
}

fn main(rt: HostRuntime) -> io::Result<()> {
    let mut list = zeros::<3145728>();
    let n = read_full(&mut rt.reader(), &mut list)?;
    match replay(&rt, &list[..n]) {
        Ok(()) => Ok(()),
        Err(ReplayError::Malformed) => println!(rt; "malformed list"),
        Err(ReplayError::Io(error)) => Err(error),
    }
}
