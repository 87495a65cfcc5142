// This is the plain test where the lowering's answer is known (docs/FORMAT.md, "Plain functions"): the conditions on head and body, and the first fault.
#![tactic(auto)]

mod body;
mod head;
mod instrs;
mod operands;
mod vars;

ghost use Rattle.std.specs.Prelude.{◌≡◌, ℕ, ◌≤◌, true, List, take, nat_lt};
ghost use Rattle.cells.specs.Cells.{cell_at};
ghost use Rattle.cells.specs.Refusals.{number_of_refusal};
ghost use Rattle.cells.specs.Outcomes.{outcome};
ghost use Rattle.x86.specs.declared.enums.Instruction.{Instruction};
ghost use Rattle.ir.specs.Function.{function_of};
ghost use Rattle.layout.specs.Layout.{Laid};
ghost use Rattle.codegen.specs.Generation.{accepted, compiled};
ghost use Rattle.machine.specs.Plain.{first_fault};
ghost use Rattle.plain.specs.Answers.{plain_says};
ghost use Rattle.plain.specs.Parts.{are_named, verdict, Accepts, Refuses};

use crate::body::{count_labels, first_fault};
use crate::head::is_plain_head;
use cells::cell_at;
use cells::refusals::{Refusal, Refused};
use ir::read::Sheet;

// It finds the first fault among the head and the first `n` instructions.
#[tactic(auto, unfolding(crate::specs::Parts::verdict))]
fn conditions(bytes: &[u8], n: u64) -> Option<u64>
    requires laid { Laid bytes.now }
    requires n_bound { n ≤ cell_at bytes.now 5 }
    requires named { are_named (take n (function_of bytes.now).body) ≡ true }
    ensures { result ≡ verdict (function_of bytes.now) n }
{
    let sheet = Sheet { bytes };
    if !is_plain_head(&sheet) {
        return Some(0);
    }
    let mut counts = [0u16; 256];
    count_labels(bytes, &mut counts);
    first_fault(&sheet, &counts, n)
}

// It is the plain test of a sheet that the lowering accepts: the first number at fault, where there is one. It is 0 for variables, parameters, the return
// type and a refusal that has no instruction, else the instruction's number.
#[tactic(auto, using(crate::proofs::Answered::accepts_laid, crate::proofs::Answered::accepts_named))]
pub fn plain_accepted(sheet: &[u8]) -> Option<u64>
    requires { Accepts sheet.now }
    ensures { (t : List ℕ) (is : List Instruction) → compiled t sheet.now ≡ accepted is → plain_says result ≡ first_fault t sheet.now }
{
    conditions(sheet, cell_at(sheet, 5))
}

// Refusals 1 to 3 are the layout's.
fn is_of_layout(refusal: Refusal) -> bool
    ensures { result ≡ nat_lt (number_of_refusal refusal) 4 }
{
    matches!(
        refusal,
        Refusal::BadTable | Refusal::TornSheet | Refusal::Oversize
    )
}

// It is the plain test of a sheet that the lowering refuses: a condition that is broken before the refusal's place comes first.
pub fn plain_refused(sheet: &[u8], refused: Refused) -> Option<u64>
    requires { Refuses sheet.now (number_of_refusal refused.refusal) refused.place }
    ensures { (t : List ℕ) → compiled t sheet.now ≡ outcome (Err refused) → plain_says result ≡ first_fault t sheet.now }
{
    if is_of_layout(refused.refusal) || refused.place == 0 {
        return Some(0);
    }
    conditions(sheet, refused.place - 1).or(Some(refused.place))
}
