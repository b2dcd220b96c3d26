// The first bytes of a lent list, written to a writer, as standard output is one.

#![tactic(auto)]

ghost use Rattle.std.specs.Prelude.{◌≤◌, length};

use std::io::Write;

// Writes the first n bytes, or all if there are fewer; how many these are. Whether the writer takes them changes nothing for the caller, so a failed
// write is let go.
pub fn tell<W: Write>(to: &mut W, out: &[u8], n: usize) -> usize
    ensures { (result ≤ n) × (result ≤ length out.now) }
{
    let k = n.min(out.len());
    let _ = to.write_all(&out[..k]);
    k
}
