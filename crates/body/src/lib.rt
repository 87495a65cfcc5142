// One loop over the body serves both passes. The first checks each instruction's layout and counts its records. The second writes them one behind the
// other.
#![tactic(auto)]

mod instruction;

ghost use Rattle.std.specs.Prelude.{◌≡◌, ℕ, true, cond, ◌+◌, ◌*◌, ◌≤◌, ltb, eqb, length, Ok};
ghost use Rattle.cells.specs.Cells.{cells, cell_at};
ghost use Rattle.cells.specs.declared.refusals.Refusal.{Refusal};
ghost use Rattle.ir.specs.Function.{behind};
ghost use Rattle.layout.specs.Limits.{most_parameters};
ghost use Rattle.layout.specs.Layout.{Laid, cursor, instr_check, instrs_check, head_check};
ghost use Rattle.codegen.specs.Bounds.{most_in_body, most_in_prologue};
ghost use Rattle.utils.specs.Answers.{held};
ghost use Rattle.utils.specs.Makes.{after, Makes, Ready};
ghost use Rattle.body.specs.Body.{body_of, without_place, passed_says, passed_of, survey_says, survey_of, made_in};

use crate::instruction::generate_instruction;
use cells::refusals::Refused;
use cells::{Cursor, cell_at};
use ir::lines::Line;
use ir::read::{behind, body_from, type_at};
use layout::Edition;
use layout::instrs::{instr_check, instrs_check};
use utils::context::Context;

// The instructions make so many records, and the last of them is Ret or not.
#[derive(Clone, Copy, Debug, PartialEq, Eq)]
pub struct Made {
    pub records: u64,
    pub ret: bool,
}

// The layout of the instructions is right, and the cursor is behind them. One of them, numbered from 1, may be refused.
#[derive(Clone, Copy, Debug, PartialEq, Eq)]
pub struct Survey {
    pub body: Result<Made, Refused>,
    pub end: Cursor,
}

// It says whether the last record is Ret, behind the `n` records of an instruction. Those of a Return end in Ret, and without any the last record is the same
// as before.
fn ends(line: &Line, n: u64, last: bool) -> bool
    ensures { result ≡ cond (ltb 0 n) (eqb (cell_at line.now.sheet.now line.now.at) 9) last }
{
    if 0 < n { line.kind() == 9 } else { last }
}

// An instruction is refused. A wrong cell in the `left` instructions behind it comes first.
fn rest_laid(sheet: &[u8], left: u64, next: Cursor, refused: Refused) -> Result<Survey, Refused>
    ensures value { survey_says result ≡ survey_of (instrs_check sheet.now left next) (passed_says (Err refused)) }
    ensures none_made { made_in (survey_says result) ≡ 0 }
{
    let end = instrs_check(Edition::First, sheet, left, next)?;
    Ok(Survey {
        body: Err(refused),
        end,
    })
}

// It gives the cursor of the next instruction, or the first wrong cell of this one. The pass that writes follows a survey, so it checks no layout.
fn next_line(sheet: &[u8], here: Cursor, write: bool) -> Result<Cursor, Refused>
    requires { write ≡ true → instr_check sheet.now here ≡ Ok (cursor (behind sheet.now here.at)) }
    ensures { result ≡ instr_check sheet.now here }
{
    if write {
        return Ok(Cursor {
            at: behind(sheet, here.at),
        });
    }
    instr_check(Edition::First, sheet, here)
}

// It goes over the instructions from a cursor on. The records are counted, or they are written behind the `first` ones.
fn walk_body(
    context: &Context,
    sheet: &[u8],
    from: Cursor,
    first: u64,
    out: &mut [u8],
    write: bool,
) -> Result<Survey, Refused>
    requires head { head_check sheet.now ≡ Ok (cell_at sheet.now 5, from) }
    requires laid { write ≡ true → Laid sheet.now }
    requires first_bound { first ≤ most_in_prologue most_parameters }
    requires ready { Ready write (without_place (body_of (held context.now) sheet.now)) (64 * first) (length out.old) }
    ensures value { survey_says result ≡ survey_of (instrs_check sheet.now (cell_at sheet.now 5) from) (passed_of (body_of (held context.now) sheet.now)) }
    ensures few { made_in (survey_says result) ≤ most_in_body }
    ensures out_after { out.new ≡ cond write (after (without_place (body_of (held context.now) sheet.now)) (64 * first) out.old) out.old }
{
    let labels = cell_at(sheet, 2);
    let ret = type_at(sheet, 3);
    let count = cell_at(sheet, 5);
    let mut here = from;
    let mut made = Made {
        records: 0,
        ret: false,
    };
    for i in 0..count {
        let next = next_line(sheet, here, write)?;
        let line = Line { sheet, at: here.at };
        let at = 64 * (first + made.records) as usize;
        match generate_instruction(context, &line, labels, ret, out, at, write) {
            Ok(n) => {
                made = Made {
                    records: made.records + n,
                    ret: ends(&line, n, made.ret),
                };
                here = next;
            }
            Err(refusal) => {
                let place = i + 1;
                return rest_laid(sheet, count - place, next, Refused { refusal, place });
            }
        }
    }
    Ok(Survey {
        body: Ok(made),
        end: here,
    })
}

// It checks the layout of every instruction from a cursor on, and counts their records.
pub fn survey_body(context: &Context, sheet: &[u8], from: Cursor) -> Result<Survey, Refused>
    requires { head_check sheet.now ≡ Ok (cell_at sheet.now 5, from) }
    ensures value { survey_says result ≡ survey_of (instrs_check sheet.now (cell_at sheet.now 5) from) (passed_of (body_of (held context.now) sheet.now)) }
    ensures few { made_in (survey_says result) ≤ most_in_body }
{
    let mut none = [0u8; 1];
    walk_body(context, sheet, from, 1, &mut none, false)
}

// It writes the records of every instruction behind the `first` ones, and gives their number. No instruction is refused, and there is room for the records.
pub fn write_body(context: &Context, sheet: &[u8], first: u64, out: &mut [u8]) -> u64
    requires laid { Laid sheet.now }
    requires first_bound { first ≤ most_in_prologue most_parameters }
    requires ready { Ready true (without_place (body_of (held context.now) sheet.now)) (64 * first) (length out.old) }
    ensures { Makes true (without_place (body_of (held context.now) sheet.now)) (64 * first) out.old out.new (Ok result) }
{
    let from = Cursor {
        at: body_from(sheet),
    };
    match walk_body(context, sheet, from, first, out, true) {
        Ok(Survey { body: Ok(made), .. }) => made.records,
        Ok(Survey { body: Err(_), .. }) => 0,
        Err(_) => 0,
    }
}
