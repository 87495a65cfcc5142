// The text of the listing program is numbers, cells and lines, written into lent bytes.
#![tactic(auto)]

pub mod input;

ghost use Rattle.std.specs.Prelude.{◌≡◌, cond, [], ◌∷◌, ◌++◌, ◌+◌, ◌*◌, ◌/◌, ◌≤◌, ◌<◌, eqb, length};
ghost use Rattle.cells.specs.Cells.{cells};
ghost use Rattle.text.specs.Text.{digits, signed, ok_line, refused_line, too_long_line, Put};
ghost use Rattle.text.specs.Records.{cells_line, records_text};

use cells::cell_at;

// It puts one byte at a place; the answer is the place behind it.
fn put_byte(out: &mut [u8], at: usize, b: u8) -> usize
    requires { at < length out.old }
    ensures { Put out.old at (b ∷ []) result out.new }
{
    out[at] = b;
    at + 1
}

// It puts bytes from the start of `out` on; the answer is the place behind them.
fn put_bytes(out: &mut [u8], bytes: &[u8]) -> usize
    requires { length bytes.now ≤ length out.old }
    ensures { Put out.old 0 bytes.now result out.new }
{
    out[..bytes.len()].copy_from_slice(bytes);
    bytes.len()
}

// It gives the digit of a number below ten.
fn digit(d: u64) -> u8
    requires { d < 10 }
    ensures { result ≡ 48 + d }
{
    48 + d as u8
}

// Numbers are written on lent bytes, with no heap, the highest digit first: a loop would have to count the digits before it.
// It puts a number in decimal, in at most `most` digits, from `at` on; the answer is the place behind it.
fn put_digits(out: &mut [u8], at: usize, most: usize, n: u64) -> usize
    requires { at + most ≤ length out.old }
    ensures { Put out.old at (digits most n) result out.new }
{
    if most == 0 {
        return at;
    }
    if n < 10 {
        return put_byte(out, at, digit(n));
    }
    let next = put_digits(out, at, most - 1, n / 10);
    put_byte(out, next, digit(n % 10))
}

// It puts a cell as a signed number, from `at` on.
fn put_signed(out: &mut [u8], at: usize, v: u64) -> usize
    requires { at + 21 ≤ length out.old }
    ensures { Put out.old at (signed v) result out.new }
{
    if v < 9223372036854775808 {
        return put_digits(out, at, 20, v);
    }
    let next = put_byte(out, at, b'-');
    put_digits(out, next, 20, 18446744073709551615 - v + 1)
}

// This stands behind a number with `left` more in its line.
fn separator(left: usize) -> u8
    ensures { result ≡ cond (eqb left 0) 10 32 }
{
    if left == 0 { b'\n' } else { b' ' }
}

// It puts the line of `n` cells from cell k on, from `at` on.
fn put_cells(records: &[u8], k: usize, n: usize, out: &mut [u8], at: usize) -> usize
    requires n_bound { k + n ≤ cells records.now }
    requires n_in_bounds { at + 22 * n ≤ length out.old }
    ensures { Put out.old at (cells_line records.now k n) result out.new }
{
    if n == 0 {
        return at;
    }
    let next = put_signed(out, at, cell_at(records, k));
    let behind = put_byte(out, next, separator(n - 1));
    put_cells(records, k + 1, n - 1, out, behind)
}

// It puts the lines of the first n records, from `at` on. Behind them there is room for a line of the longest numbers.
fn put_records(records: &[u8], n: usize, out: &mut [u8], at: usize) -> usize
    requires n_in_bounds { n ≤ length records.now / 64 }
    requires n_in_bounds_2 { at + length (records_text records.now n) + 176 ≤ length out.old }
    ensures { Put out.old at (records_text records.now n) result out.new }
{
    let mut end = at;
    for k in 0..n {
        end = put_cells(records, k * 8, 8, out, end);
    }
    end
}

// It puts the line that opens an accepted sheet's text, with the count of its records; the answer is the place behind it.
fn put_ok(n: u64, out: &mut [u8]) -> usize
    requires { 24 ≤ length out.old }
    ensures { Put out.old 0 (ok_line n) result out.new }
{
    let number = put_bytes(out, b"ok ");
    let end = put_digits(out, number, 20, n);
    put_byte(out, end, b'\n')
}

// It puts the text of an accepted sheet at the start of `out`, for the first n records of the record bytes; the answer is its length. There is room for a
// first line of 24 bytes, which no count passes, for the records' lines, and for a line of the longest numbers.
pub fn ok_text(n: usize, records: &[u8], out: &mut [u8]) -> usize
    requires n_in_bounds { n ≤ length records.now / 64 }
    requires n_in_bounds_2 { 24 + length (records_text records.now n) + 176 ≤ length out.old }
    ensures { Put out.old 0 (ok_line n ++ records_text records.now n) result out.new }
{
    let end = put_ok(n as u64, out);
    put_records(records, n, out, end)
}

// It puts the text of a refusal at the start of `out`, with its number and place; the answer is its length.
pub fn refused_text(n: u64, place: u64, out: &mut [u8]) -> usize
    requires { 50 ≤ length out.old }
    ensures { Put out.old 0 (refused_line n place) result out.new }
{
    let number = put_bytes(out, b"refused ");
    let blank = put_digits(out, number, 20, n);
    let second = put_byte(out, blank, b' ');
    let end = put_digits(out, second, 20, place);
    put_byte(out, end, b'\n')
}

// It puts the text of an input that is too long at the start of `out`; the answer is its length.
pub fn too_long_text(out: &mut [u8]) -> usize
    requires { 9 ≤ length out.old }
    ensures { Put out.old 0 too_long_line result out.new }
{
    put_bytes(out, b"too long\n")
}
