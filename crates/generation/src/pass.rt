// There are two passes over a sheet. The first surveys it, and the second writes its list.
ghost use Rattle.std.specs.Prelude.{◌≡◌, true, ◌≤◌, length, Ok};
ghost use Rattle.cells.specs.Cells.{cell_at};
ghost use Rattle.ir.specs.Answers.{says};
ghost use Rattle.ir.specs.Types.{ok};
ghost use Rattle.ir.specs.Function.{vars_at, params_from};
ghost use Rattle.layout.specs.Layout.{Laid, head_check};
ghost use Rattle.codegen.specs.Frame.{func_prologue};
ghost use Rattle.codegen.specs.Generation.{compiled};
ghost use Rattle.codegen.specs.Bounds.{most_in_body};
ghost use Rattle.utils.specs.Answers.{held, counted};
ghost use Rattle.utils.specs.Makes.{Makes, Ready};
ghost use Rattle.frame.specs.Sizes.{sizes_at};
ghost use Rattle.body.specs.Body.{made_by, passed_says, without_place};
ghost use Rattle.generation.specs.Answers.{counted_outcome};
ghost use Rattle.generation.specs.Pass.{list_of, ending};
ghost use Rattle.generation.specs.Survey.{opening, opened_says, offsets_opened, Opens, LendsIf, counted_list, sized_then, frame_says, counted_says};

use body::{Made, survey_body, write_body};
use cells::refusals::{Refusal, Refused};
use cells::{Cursor, cell_at};
use frame::{func_prologue, var_offsets};
use instructions::func_epilogue;
use ir::types::rounded_to_16;
use layout::Edition;
use layout::parts::end_check;
use layout::sheet::head_check;
use layout::tables::tables_check;
use utils::context::Context;

// The last offset of the variables, or the refusal of one that has no width, and the cursor of the first instruction.
#[derive(Clone, Copy, Debug, PartialEq, Eq)]
pub struct Head {
    pub total: Result<u64, Refusal>,
    pub from: Cursor,
}

// The bytes of the frame, and the number of records.
#[derive(Clone, Copy, Debug, PartialEq, Eq)]
pub struct Frame {
    pub bytes: u64,
    pub records: u64,
}

// The epilogue is three records, and behind a Ret it is left out.
fn ending(ret: bool) -> u64
    ensures value { result ≡ length (ending ret) }
    ensures upper_bound { result ≤ 3 }
{
    if ret { 0 } else { 3 }
}

// A variable without a width and the prologue are refused at place 0, before the body.
fn before_body(refusal: Refusal) -> Refused
    ensures { (result.refusal ≡ refusal) × (result.place ≡ 0) }
{
    Refused { refusal, place: 0 }
}

// It counts the records of the function from the last offset of its variables and from what its body came to, or it gives the first refusal.
fn count_list(
    context: &Context,
    sheet: &[u8],
    head: Head,
    body: Result<Made, Refused>,
) -> Result<Frame, Refused>
    requires head { head_check sheet.now ≡ Ok (cell_at sheet.now 5, head.from) }
    requires total { says head.total ≡ sizes_at sheet.now (cell_at sheet.now 0) 6 }
    requires few { made_by (passed_says body) ≤ most_in_body }
    ensures { frame_says result ≡ sized_then (says head.total) (λ bytes. counted_list (func_prologue (held context.now) bytes (vars_at sheet.now (cell_at sheet.now 1) (params_from sheet.now))) (passed_says body)) }
{
    let bytes = rounded_to_16(head.total.map_err(before_body)?);
    let mut none = [0u8; 1];
    let params = 6 + 2 * cell_at(sheet, 0) as usize;
    let count = cell_at(sheet, 1);
    let first = func_prologue(context, sheet, count, params, bytes, &mut none, false).map_err(
        before_body,
    )?;
    let made = body?;
    Ok(Frame {
        bytes,
        records: first + made.records + ending(made.ret),
    })
}

// It checks the layout of the tables and of the sheet's head, and then has the offsets of the variables. Where the layout is refused these stay as they were.
#[tactic(auto, unfolding(crate::specs::Survey::opening, crate::specs::Survey::offsets_opened))]
pub fn open_sheet(tables: &[u8], sheet: &[u8], offsets: &mut [u64; 256]) -> Result<Head, Refused>
    requires { length offsets.old ≡ 256 }
    ensures value { opened_says result ≡ opening tables.now sheet.now }
    ensures offsets_after { offsets.new ≡ offsets_opened tables.now sheet.now offsets.old }
{
    tables_check(tables)?;
    let (_, from) = head_check(Edition::First, sheet)?;
    let total = var_offsets(sheet, cell_at(sheet, 0), 6, offsets);
    Ok(Head { total, from })
}

// It checks the layout of the instructions, and that nothing is behind them, and counts the records.
pub fn survey(context: &Context, sheet: &[u8], head: Head) -> Result<Frame, Refused>
    requires { Opens context.now.tables.now sheet.now context.now.offsets.now (says head.total) head.from }
    ensures value { counted_says (frame_says result) ≡ counted_outcome (compiled context.now.tables.now sheet.now) }
    ensures lends { LendsIf (frame_says result) context.now.tables.now sheet.now context.now.offsets.now }
{
    let found = survey_body(context, sheet, head.from)?;
    end_check(Refusal::TornSheet, sheet, found.end)?;
    count_list(context, sheet, head, found.body)
}

// It writes the list of the records that were counted at the start of `out`, which has room for them.
pub fn write_list(context: &Context, sheet: &[u8], frame: Frame, out: &mut [u8])
    requires laid { Laid sheet.now }
    requires ready { Ready true (without_place (list_of (held context.now) frame.bytes sheet.now)) 0 (length out.old) }
    requires needed { ok frame.records ≡ counted (without_place (list_of (held context.now) frame.bytes sheet.now)) }
    ensures { Makes true (without_place (list_of (held context.now) frame.bytes sheet.now)) 0 out.old out.new (Ok frame.records) }
{
    let params = 6 + 2 * cell_at(sheet, 0) as usize;
    let count = cell_at(sheet, 1);
    let first = match func_prologue(context, sheet, count, params, frame.bytes, out, true) {
        Ok(first) => first,
        Err(_) => return,
    };
    let made = first + write_body(context, sheet, first, out);
    if made < frame.records {
        func_epilogue(out, 64 * made as usize);
    }
}
