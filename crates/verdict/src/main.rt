// Reads a script from standard input and prints the verdict: `accepted`, or `refused`, the number, the line and the refusal's word, and then
// the line's text if there is such a line.

#![tactic(auto)]

use host_input::{line_end, read_text};
use law_answers::Refusal;
use rule_texts::{TEXT_LENGTH, WORK_LENGTH, verdict_of};
use std::io::{Read, Write};
use text_lines::lines::next_line;

// The word of a refusal.
// Kept: document 01's refusals are numbers, and their words stand in the program alone.
fn word_of(number: u32) -> &'static [u8] {
    match number {
        1 => b"bench",
        2 => b"length",
        3 => b"byte",
        4 => b"bracket",
        5 => b"word",
        6 => b"form",
        7 => b"name",
        8 => b"type",
        9 => b"limit",
        10 => b"store",
        _ => b"cell",
    }
}

// The offset of a line by its number, from 1.
fn line_start(text: &[u8], line: usize) -> usize {
    let mut p = 0;
    for _ in 1..line {
        p = next_line(text, p);
    }
    p
}

// A line's text, if there is such a line.
fn print_line<W: Write>(to: &mut W, text: &[u8], line: usize) {
    if line == 0 {
        return;
    }
    let p = line_start(text, line);
    if p < text.len() {
        let _ = to.write_all(&text[p..line_end(text, p)]);
        let _ = to.write_all(b"\n");
    }
}

// A refusal, and the line that it names. Where a write fails, the writes after it are still tried, and the program ends as ever.
fn print_refusal<W: Write>(to: &mut W, text: &[u8], e: Refusal) {
    let _ = to.write_all(b"refused ");
    let _ = write!(to, "{}", e.number);
    let _ = to.write_all(b" ");
    let _ = write!(to, "{}", e.line);
    let _ = to.write_all(b" ");
    let _ = to.write_all(word_of(e.number));
    let _ = to.write_all(b"\n");
    print_line(to, text, e.line);
}

// The verdict on a text.
fn answer<W: Write>(to: &mut W, text: &[u8], work: &mut [u32]) {
    match verdict_of(text, work) {
        Ok(_) => {
            let _ = to.write_all(b"accepted\n");
        }
        Err(e) => print_refusal(to, text, e),
    }
}

// The verdict on what comes from a reader; text holds one byte more than a script may have.
fn serve<R: Read, W: Write>(from: &mut R, to: &mut W, text: &mut [u8], work: &mut [u32]) {
    if let Ok(n) = read_text(from, text) {
        answer(to, &text[..n], work);
    }
}

fn main(rt: HostRuntime) {
    let mut text = [0u8; TEXT_LENGTH + 1];
    let mut work = [0u32; WORK_LENGTH];
    serve(&mut rt.stdin(), &mut rt.stdout(), &mut text, &mut work);
}
