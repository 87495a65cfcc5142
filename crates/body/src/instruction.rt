// This is `generate_instruction` of Krc's codegen/generation.rs. It counts or writes the records of one instruction of a sheet.
ghost use Rattle.std.specs.Prelude.{◌≤◌, length};
ghost use Rattle.cells.specs.Cells.{cells};
ghost use Rattle.ir.specs.Function.{arguments_at, behind};
ghost use Rattle.layout.specs.Limits.{most_arguments};
ghost use Rattle.utils.specs.Answers.{held};
ghost use Rattle.utils.specs.Makes.{Makes, Ready};
ghost use Rattle.body.specs.Body.{line_made};

use arithmetic::{generate_binary, generate_unary};
use calls::arguments::Arguments;
use calls::generate_call;
use casts::generate_cast;
use cells::cell_at;
use cells::refusals::Refusal;
use instructions::{
    generate_copy, generate_jmp_if_not, generate_jump, generate_label, generate_return,
    generate_zero,
};
use ir::lines::Line;
use ir::read::dest_at;
use ir::{BinaryOp, Type, UnaryOp};
use utils::context::Context;

// The kind of an instruction chooses the maker. Its function has so many labels and a return type.
pub fn generate_instruction(
    context: &Context,
    line: &Line,
    labels: u64,
    ret: Type,
    out: &mut [u8],
    at: usize,
    write: bool,
) -> Result<u64, Refusal>
    requires present { behind line.now.sheet.now line.now.at ≤ cells line.now.sheet.now }
    requires few { arguments_at line.now.sheet.now line.now.at ≤ most_arguments }
    requires at_bound { at ≤ 4294967296 }
    requires ready { Ready write (line_made (held context.now) line.now.sheet.now line.now.at labels ret) at (length out.old) }
    ensures { Makes write (line_made (held context.now) line.now.sheet.now line.now.at labels ret) at out.old out.new result }
{
    let op = line.operation();
    match line.kind() {
        0 => generate_copy(context, line, out, at, write),
        1 => generate_unary(context, line, UnaryOp::from(op), out, at, write),
        2 => generate_binary(context, line, BinaryOp::from(op), out, at, write),
        3 => generate_cast(context, line, out, at, write),
        4 => generate_zero(context, line, out, at, write),
        5 => {
            let arguments = Arguments {
                sheet: line.sheet,
                count: cell_at(line.sheet, line.at + 6),
                from: line.at + 13,
            };
            let symbol = cell_at(line.sheet, line.at + 5);
            let dest = dest_at(line.sheet, line.at);
            generate_call(context, &arguments, dest, symbol, out, at, write)
        }
        6 => generate_label(labels, op, out, at, write),
        7 => generate_jump(labels, op, out, at, write),
        8 => generate_jmp_if_not(context, line, labels, out, at, write),
        9 => generate_return(context, line, ret, out, at, write),
        // The last kind of Krc's `Instr` is 10, a Comment: the layout lets none above it pass, but a match on a u64 has to take them somewhere.
        _ => Ok(0),
    }
}
