// The work of the listing program is done here: the whole text for an input is made on lent bytes. The lines are those of `text`, the records those of
// `generation`.
ghost use Rattle.std.specs.Prelude.{◌≡◌};
ghost use mathlib.Core.List.{flatten};
ghost use Rattle.codegen.specs.Generation.{lowered, records_after};
ghost use Rattle.text.specs.Text.{Put, Counts};
ghost use Rattle.listing.specs.Listing.{answer_lines, listing_text, listing_records};

use generation::generate;
use text::input::{InputError, split};
use text::{ok_text, refused_text, too_long_text};

// It lowers tables and sheet into the record bytes, and makes the text for the answer; its own answer is the text's length.
fn list_parts(
    tables: &[u8],
    sheet: &[u8],
    records: &mut [u8; 65536],
    text: &mut [u8; 65536],
) -> usize
    ensures records_after { records.new ≡ records_after (lowered tables.now sheet.now 65536) records.old }
    ensures put { Put text.old 0 (flatten (answer_lines (lowered tables.now sheet.now 65536))) result text.new }
    ensures counts { Counts result text.new }
{
    match generate(tables, sheet, records) {
        Ok(n) => ok_text(n as usize, records, text),
        Err(refused) => refused_text(u64::from(refused.refusal), refused.place, text),
    }
}

// It makes the whole text for an input at the start of `text`; the answer is its length. The text fits for every input.
pub fn list(input: &[u8], records: &mut [u8; 65536], text: &mut [u8; 65536]) -> usize
    ensures records_after { records.new ≡ listing_records input.now records.old }
    ensures put { Put text.old 0 (listing_text input.now) result text.new }
    ensures counts { Counts result text.new }
{
    match split(input) {
        Err(InputError::TooLong) => too_long_text(text),
        Err(InputError::NoTables) => refused_text(1, 0, text),
        Ok(n) => {
            let end = 8 + 8 * n;
            list_parts(&input[8..end], &input[end..], records, text)
        }
    }
}
