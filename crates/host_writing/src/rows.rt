// The rows of a report.
ghost use Rattle.std.specs.Prelude.{◌≡◌, [], ◌∷◌, ◌++◌, ◌+◌, ◌<◌, pos, length, get_or};
ghost use Rattle.leaf_bytes.specs.Bytes.{bytes};
ghost use Rattle.law.specs.Print.{decimal_of, signed_of, row, cell_value, cells};
ghost use Rattle.law_answers.specs.Written.{Puts, name_at, names_at};

use crate::putting::{decimal, put, put_all, put_small, signed};
use text_words::sight::word_end;

// A number and a space.
fn spaced(out: &mut [u8], at: usize, n: u64) -> usize
    ensures { Puts (decimal_of n ++ (32 ∷ [])) out.old at result out.new }
{
    let p = decimal(out, at, n);
    put(out, p, 32)
}

// A number and a line feed.
fn ended(out: &mut [u8], at: usize, n: u64) -> usize
    ensures { Puts (row (decimal_of n ∷ [])) out.old at result out.new }
{
    let p = decimal(out, at, n);
    put(out, p, 10)
}

// The row of a normal end.
pub fn normal(out: &mut [u8], at: usize, steps: u32) -> usize
    ensures { Puts (row (bytes "normal" ∷ decimal_of steps ∷ [])) out.old at result out.new }
{
    let p = put_all(out, at, b"normal ");
    ended(out, p, steps as u64)
}

// The row of a spent run.
pub fn spent(out: &mut [u8], at: usize, steps: u32) -> usize
    ensures { Puts (row (bytes "spent" ∷ decimal_of steps ∷ [])) out.old at result out.new }
{
    let p = put_all(out, at, b"spent ");
    ended(out, p, steps as u64)
}

// The row of a stuck run.
pub fn stuck(out: &mut [u8], at: usize, steps: u32) -> usize
    ensures { Puts (row (bytes "stuck" ∷ decimal_of steps ∷ [])) out.old at result out.new }
{
    let p = put_all(out, at, b"stuck ");
    ended(out, p, steps as u64)
}

// The statement of an exception and the steps.
fn place_and_steps(out: &mut [u8], at: usize, place: u32, steps: u32) -> usize
    ensures { Puts (32 ∷ row (decimal_of place ∷ decimal_of steps ∷ [])) out.old at result out.new }
{
    let p = put(out, at, 32);
    let q = spaced(out, p, place as u64);
    ended(out, q, steps as u64)
}

// The row of an exception.
pub fn exception(out: &mut [u8], at: usize, number: i64, place: u32, steps: u32) -> usize
    ensures { Puts (row (bytes "exception" ∷ signed_of number ∷ decimal_of place ∷ decimal_of steps ∷ [])) out.old at result out.new }
{
    let p = put_all(out, at, b"exception ");
    let q = signed(out, p, number);
    place_and_steps(out, q, place, steps)
}

// The row of a refusal.
pub fn refused(out: &mut [u8], at: usize, number: u32, line: usize) -> usize
    ensures { Puts (row (bytes "refused" ∷ decimal_of number ∷ decimal_of line ∷ [])) out.old at result out.new }
{
    let p = put_all(out, at, b"refused ");
    let q = spaced(out, p, number as u64);
    ended(out, q, line as u64)
}

// The word that goes on at an offset, in small letters.
pub fn name(out: &mut [u8], at: usize, text: &[u8], offset: usize) -> usize
    ensures { Puts (name_at text.now offset) out.old at result out.new }
{
    if offset > text.len() {
        return at;
    }
    let end = word_end(text, offset);
    put_small(out, at, &text[offset..end])
}

// A cell's value, or `-`.
fn value(out: &mut [u8], at: usize, v: i64, mark: u8) -> usize
    ensures { Puts (cell_value v mark) out.old at result out.new }
{
    if mark == 0 {
        return put(out, at, 45);
    }
    signed(out, at, v)
}

// A cell's name and value, and the space between.
fn named(out: &mut [u8], at: usize, text: &[u8], offset: usize, v: i64, mark: u8) -> usize
    ensures { Puts (name_at text.now offset ++ (32 ∷ cell_value v mark)) out.old at result out.new }
{
    let p = name(out, at, text, offset);
    let q = put(out, p, 32);
    value(out, q, v, mark)
}

// The row of a cell.
pub fn cell(
    out: &mut [u8],
    at: usize,
    number: u64,
    text: &[u8],
    offset: usize,
    v: i64,
    mark: u8,
) -> usize
    ensures { Puts (row (decimal_of number ∷ name_at text.now offset ∷ cell_value v mark ∷ [])) out.old at result out.new }
{
    let p = spaced(out, at, number);
    let q = named(out, p, text, offset, v, mark);
    put(out, q, 10)
}

// The number of the cell at a place.
fn number_of(i: usize) -> u64
    requires { i < 18446744073709551615 }
    ensures { result ≡ i + 1 }
{
    i as u64 + 1
}

// The row of the cell at a place.
fn cell_at(
    out: &mut [u8],
    at: usize,
    text: &[u8],
    names: &[usize],
    values: &[i64],
    marks: &[u8],
    i: usize,
) -> usize
    requires { (i < length names.now) × ((i < length values.now) × (i < length marks.now)) }
    ensures { Puts (row (decimal_of (i + 1) ∷ name_at text.now (get_or names.now i 0) ∷ cell_value (get_or values.now i (pos 0)) (get_or marks.now i 0) ∷ [])) out.old at result out.new }
{
    cell(out, at, number_of(i), text, names[i], values[i], marks[i])
}

// The rows of the cells; names holds the offset of each cell's name in the text.
pub fn cell_rows(
    out: &mut [u8],
    at: usize,
    text: &[u8],
    names: &[usize],
    values: &[i64],
    marks: &[u8],
) -> usize
    ensures { Puts (cells 1 (names_at text.now names.now) values.now marks.now) out.old at result out.new }
{
    let mut p = at;
    for i in 0..values.len().min(names.len()).min(marks.len()) {
        p = cell_at(out, p, text, names, values, marks, i);
    }
    p
}
