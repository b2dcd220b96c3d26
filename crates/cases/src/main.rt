// Runs the cases that stand on standard input through both machines and compares each answer with what is expected; prints the number and
// the first line of each case that differs, and at the end how many there are and how many differ.
//
// A case is a heading, the script's lines, a line `=`, and the lines that `runscript` and `markscript` are to print. The heading is `run` and
// the budget; then, if the store is lent, a value and a mark for each cell, else every cell is undefined. `cut` for `run`: the script's last
// line feed is left out. `short` for `run`: the working list is one number too short. `drive` for `run`: the checker and the runner alone.
// `mark` for `run`: the marking machine alone.

#![tactic(auto)]

mod headings;
mod lines;

ghost use Rattle.std.specs.Prelude.{◌≤◌, ◌<◌, length};

use drive::{MOST_CELLS, WORK_LENGTH};
use headings::{budget_at, byte_at, lend, word_after};
use host_input::{line_end, read_text};
use host_printing::answering::answer;
use host_printing::machines::{Machine, Marker, Runner};
use lines::{case_from, line_after, sign_from};
use std::io;
use std::io::{Read, Write};

// How many cells a script has at most.
const CELLS: usize = MOST_CELLS as usize;

// How many bytes the cases may have together, and one more.
const CASES_LENGTH: usize = 524288;

// How many bytes a report may have.
const OUT_LENGTH: usize = 131072;

// Whether the first n bytes written are the expected ones.
fn expected(out: &[u8], n: usize, wanted: &[u8]) -> bool {
    &out[..n.min(out.len())] == wanted
}

// How many numbers of the working list a case lends, by its heading's first byte.
fn list_length(head: u8, n: usize) -> usize
    ensures { result ≤ n }
{
    if head == b's' { n.min(16383) } else { n }
}

// Whether a machine answers a script as expected, by the heading's line.
fn passes<M: Machine>(
    heading: &[u8],
    script: &[u8],
    wanted: &[u8],
    work: &mut [u32],
    out: &mut [u8],
) -> bool {
    let mut names = [0usize; CELLS];
    let mut values = [0i64; CELLS];
    let mut marks = [0u8; CELLS];
    let p = word_after(heading, 0);
    let q = word_after(heading, p);
    let numbers = lend(heading, q, &mut values, &mut marks);
    let lent = if numbers == 0 {
        None
    } else {
        Some((numbers - numbers / 2, numbers / 2))
    };
    let k = list_length(byte_at(heading, 0), work.len());
    let n = answer::<M>(
        script,
        &mut work[..k],
        &mut names,
        &mut values,
        &mut marks,
        out,
        lent,
        budget_at(heading, p),
    );
    expected(out, n, wanted)
}

// Whether a script is answered as expected by each machine that the heading names.
fn agrees(heading: &[u8], script: &[u8], wanted: &[u8], work: &mut [u32], out: &mut [u8]) -> bool {
    let h = byte_at(heading, 0);
    (h == b'm' || passes::<Runner>(heading, script, wanted, work, out))
        && (h == b'd' || passes::<Marker>(heading, script, wanted, work, out))
}

// The end of a script that stands from a up to b, by its heading's first byte.
fn script_end(head: u8, a: usize, b: usize) -> usize
    requires { a ≤ b }
    ensures { (a ≤ result) × (result ≤ b) }
{
    if head == b'c' && a < b { b - 1 } else { b }
}

// Whether a case, whose lines after the heading begin at a, is answered as expected.
fn passes_at(case: &[u8], a: usize, work: &mut [u32], out: &mut [u8]) -> bool
    requires { a ≤ length case.now }
{
    let s = sign_from(case, a);
    if s < case.len() {
        let w = line_after(case, s);
        let b = script_end(byte_at(case, 0), a, s);
        agrees(&case[..a], &case[a..b], &case[w..], work, out)
    } else {
        false
    }
}

// Prints the number of a case and the line at p.
fn tell<W: Write>(to: &mut W, text: &[u8], p: usize, number: u64) -> io::Result<()>
    requires { p ≤ length text.now }
{
    write!(to, "{number} ")?;
    to.write_all(&text[p..line_end(text, p)])?;
    to.write_all(b"\n")
}

// Runs a case; whether it is answered as expected. Only that it is not is told, and an error is that this could not be written.
fn try_case<W: Write>(
    to: &mut W,
    case: &[u8],
    number: u64,
    work: &mut [u32],
    out: &mut [u8],
) -> io::Result<bool>
    requires { 0 < length case.now }
{
    let a = line_after(case, 0);
    let same = passes_at(case, a, work, out);
    if !same {
        tell(to, case, a, number)?;
    }
    Ok(same)
}

// Runs every case, and prints how many there are and how many differ. After a failed write nothing more is tried: nobody would read it.
// Kept: cases are found one after another by `case_from`; n is their number for the print, not an index.
fn try_all<W: Write>(to: &mut W, text: &[u8], work: &mut [u32], out: &mut [u8]) -> io::Result<()> {
    let mut p = 0;
    let mut n = 0;
    let mut bad: u64 = 0;
    while p < text.len() {
        let e = case_from(text, line_after(text, p));
        n += 1;
        if !try_case(to, &text[p..e], n, work, out)? {
            bad += 1;
        }
        p = e;
    }
    writeln!(to, "{n} cases, {bad} differ")
}

// Runs the cases that come from a reader; a file that fills the list is not run.
fn serve<R: Read, W: Write>(
    from: &mut R,
    to: &mut W,
    text: &mut [u8],
    work: &mut [u32],
    out: &mut [u8],
) {
    if let Ok(n) = read_text(from, text) {
        if n < text.len() {
            let _ = try_all(to, &text[..n], work, out);
        }
    }
}

fn main(rt: HostRuntime) {
    let mut text = [0u8; CASES_LENGTH];
    let mut work = [0u32; WORK_LENGTH];
    let mut out = [0u8; OUT_LENGTH];
    serve(
        &mut rt.stdin(),
        &mut rt.stdout(),
        &mut text,
        &mut work,
        &mut out,
    );
}
