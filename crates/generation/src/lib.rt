// This is Krc's codegen/generation.rs. It gives the list of a function's records, or the first refusal with its place.
#![tactic(auto)]

mod pass;
pub mod plain_test;

ghost use Rattle.std.specs.Prelude.{◌≡◌, ℕ, length, Ok};
ghost use Rattle.cells.specs.Outcomes.{outcome};
ghost use Rattle.ir.specs.Answers.{says};
ghost use Rattle.codegen.specs.Generation.{compiled, lowered, records_after};
ghost use Rattle.machine.specs.Plain.{Plain};
ghost use Rattle.machine.specs.Calls.{Demand2};
ghost use Rattle.machine.specs.Simulation.{Demand3};
ghost use Rattle.generation.specs.Answers.{counted_outcome};
ghost use Rattle.generation.specs.Survey.{Opens};

use crate::pass::{Head, open_sheet, survey, write_list};
use cells::cell_at;
use cells::refusals::{Refusal, Refused};
use utils::context::Context;

// There is no heap: the offsets are an array, and a slice of as many as there are variables where they are handed on.
// It counts the records that a sheet needs. The refusals are 1 to 7.
pub fn count(tables: &[u8], sheet: &[u8]) -> Result<u64, Refused>
    ensures { outcome result ≡ counted_outcome (compiled tables.now sheet.now) }
{
    let mut offsets = [0u64; 256];
    let head = open_sheet(tables, sheet, &mut offsets)?;
    let n = cell_at(sheet, 0) as usize;
    let context = Context {
        tables,
        offsets: &offsets[..n],
    };
    let frame = survey(&context, sheet, head)?;
    Ok(frame.records)
}

// A pass that only counts comes first, then one that writes. Where the slice has no room for the records needed, refusal 9 has their number.
fn lower(context: &Context, sheet: &[u8], head: Head, out: &mut [u8]) -> Result<u64, Refused>
    requires { Opens context.now.tables.now sheet.now context.now.offsets.now (says head.total) head.from }
    ensures answer { outcome result ≡ counted_outcome (lowered context.now.tables.now sheet.now (length out.old)) }
    ensures bytes { out.new ≡ records_after (lowered context.now.tables.now sheet.now (length out.old)) out.old }
{
    let frame = survey(context, sheet, head)?;
    let needed = frame.records;
    if ((out.len() / 64) as u64) < needed {
        return Err(Refused {
            refusal: Refusal::PageFull,
            place: needed,
        });
    }
    write_list(context, sheet, frame, out);
    Ok(needed)
}

// The lowering writes the records at the start of `out` and leaves the bytes behind them as before. Where it refuses, it leaves all of them.
pub fn generate(tables: &[u8], sheet: &[u8], out: &mut [u8]) -> Result<u64, Refused>
    ensures answer { outcome result ≡ counted_outcome (lowered tables.now sheet.now (length out.old)) }
    ensures bytes { out.new ≡ records_after (lowered tables.now sheet.now (length out.old)) out.old }
    ensures demand2 { (n : ℕ) → result ≡ Ok n → Demand2 tables.now sheet.now out.new n }
    ensures demand3 { (n : ℕ) → result ≡ Ok n → Plain tables.now sheet.now → Demand3 tables.now sheet.now out.new n }
{
    let mut offsets = [0u64; 256];
    let head = open_sheet(tables, sheet, &mut offsets)?;
    let n = cell_at(sheet, 0) as usize;
    let context = Context {
        tables,
        offsets: &offsets[..n],
    };
    lower(&context, sheet, head, out)
}
