// The listing program takes cells from standard input and writes text to standard output. It only reads and writes; `lister::list` makes the text and is
// proved to.
#![tactic(auto)]

mod lister;

ghost use Rattle.std.specs.Prelude.{◌≡◌, length};

use crate::lister::list;
use std::io::{self, Write};
use streams::read_full;

// The `ensures` gives the length, which lending the array as a slice needs.
fn room<const N: usize>() -> [u8; N]
    ensures { N ≡ length result }
{
    [0; N]
}

fn main(rt: HostRuntime) -> io::Result<()> {
    // An input of one byte more than it may have is too long.
    let mut input = room::<65537>();
    let mut records = room::<65536>();
    let mut text = room::<65536>();
    let n = read_full(&mut rt.reader(), &mut input)?;
    let end = list(&input[..n], &mut records, &mut text);
    io::writer(&rt).write_all(&text[..end])
}
