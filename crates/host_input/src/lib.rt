// The bytes of a reader, as standard input is one, read to their end into lent bytes; and the lines in them.

#![tactic(auto)]

ghost use Rattle.std.specs.Prelude.{◌≤◌, length, IfOk};

use std::io;
use std::io::Read;

// Reads to the end of a reader, or until text is full; how many bytes came. A read that fails, for whatever reason, is not tried again.
pub fn read_text<R: Read>(from: &mut R, text: &mut [u8]) -> io::Result<usize>
    ensures { IfOk result (λ n. n ≤ length text.new) }
{
    let mut n = 0;
    while n < text.len() {
        match from.read(&mut text[n..])? {
            0 => return Ok(n),
            k => n += k,
        }
    }
    Ok(n)
}

// The end of the line at p, its line feed left out.
pub fn line_end(text: &[u8], p: usize) -> usize
    requires { p ≤ length text.now }
    ensures { (p ≤ result) × (result ≤ length text.now) }
{
    match text[p..].iter().position(|b| *b == b'\n') {
        Some(n) => p + n,
        None => text.len(),
    }
}
