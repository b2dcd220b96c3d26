// A whole program: the script that comes from a reader, and a machine's answer to a writer.
ghost use Rattle.std.specs.Prelude.{◌≤◌, length};

use crate::answering::answer;
use crate::machines::Machine;
use host_input::read_text;
use host_output::tell;
use rule_texts::{MOST_CELLS, TEXT_LENGTH, WORK_LENGTH};
use std::io::{Read, Write};

// How many cells a script has at most.
const CELLS: usize = MOST_CELLS as usize;

// How many bytes a report may have.
const OUT_LENGTH: usize = 131072;

// The budget of a run.
const BUDGET: u32 = 10000;

// Answers for a script; how many bytes were written.
fn respond<M: Machine, W: Write>(to: &mut W, text: &[u8], work: &mut [u32], out: &mut [u8]) -> usize
    ensures { result ≤ length out.new }
{
    let mut names = [0usize; CELLS];
    let mut values = [0i64; CELLS];
    let mut marks = [0u8; CELLS];
    let n = answer::<M>(
        text,
        work,
        &mut names,
        &mut values,
        &mut marks,
        out,
        None,
        BUDGET,
    );
    tell(to, out, n)
}

// The same for what comes from a reader; text holds one byte more than a script may have.
fn read_and_respond<M: Machine, R: Read, W: Write>(
    from: &mut R,
    to: &mut W,
    text: &mut [u8],
    work: &mut [u32],
    out: &mut [u8],
) -> usize
    ensures { result ≤ length out.new }
{
    match read_text(from, text) {
        Ok(n) => respond::<M, W>(to, &text[..n], work, out),
        Err(_) => 0,
    }
}

// Answers for the script that comes from a reader, every cell undefined at the start, budget 10,000; how many bytes were written. After a
// failed read these are none.
pub fn serve<M: Machine, R: Read, W: Write>(from: &mut R, to: &mut W) -> usize
    ensures { result ≤ 131072 }
{
    let mut text = [0u8; TEXT_LENGTH + 1];
    let mut work = [0u32; WORK_LENGTH];
    let mut out = [0u8; OUT_LENGTH];
    read_and_respond::<M, R, W>(from, to, &mut text, &mut work, &mut out)
}
