// Of the body it is found here how often each label stands, and the first instruction at fault.
ghost use Rattle.std.specs.Prelude.{◌≡◌, ◌≤◌, true, [], take};
ghost use Rattle.cells.specs.Cells.{cell_at};
ghost use Rattle.ir.specs.Function.{function_of};
ghost use Rattle.layout.specs.Layout.{Laid};
ghost use Rattle.plain.specs.Parts.{are_named, Counts, Few, one_more, first_of};

use crate::instrs::is_plain_instr;
use cells::cell_at;
use ir::Instr;
use ir::read::{Sheet, behind, body_from, instr_at};
use layout::limits::MOST_LABELS;

// It counts a label that stands.
fn count_label(counts: &mut [u16; 256], instr: Instr)
    requires { Few counts.old }
    ensures { counts.new ≡ one_more instr counts.old }
{
    if let Instr::Label(label) = instr
        && label < MOST_LABELS
    {
        counts[label as usize] += 1;
    }
}

// It counts how often each label stands in the body. The counts are lent, since an array that is handed back is copied, for which an archive asks C's memcpy.
pub fn count_labels(sheet: &[u8], counts: &mut [u16; 256])
    requires { Laid sheet.now }
    ensures { Counts (function_of sheet.now).body counts.new }
{
    *counts = [0; 256];
    let mut cell = body_from(sheet);
    for _ in 0..cell_at(sheet, 5) {
        count_label(counts, instr_at(sheet, cell));
        cell = behind(sheet, cell);
    }
}

// It finds the first fault among the first `n` instructions; `counts` has how often each label stands in the body.
pub fn first_fault(sheet: &Sheet, counts: &[u16; 256], n: u64) -> Option<u64>
    requires laid { Laid sheet.now.bytes.now }
    requires counts { Counts (function_of sheet.now.bytes.now).body counts.now }
    requires n_bound { n ≤ cell_at sheet.now.bytes.now 5 }
    requires named { are_named (take n (function_of sheet.now.bytes.now).body) ≡ true }
    ensures { let F = function_of sheet.now.bytes.now in
        result ≡ first_of F [] 1 (take n F.body) }
{
    let mut before = [0u16; 256];
    let mut cell = body_from(sheet.bytes);
    for k in 0..n {
        let instr = instr_at(sheet.bytes, cell);
        if !is_plain_instr(sheet, counts, &before, instr) {
            return Some(k + 1);
        }
        count_label(&mut before, instr);
        cell = behind(sheet.bytes, cell);
    }
    None
}
