// The shape of a name.
ghost use Rattle.std.specs.Prelude.{◌≡◌, ◌<◌, length, drop};
ghost use Rattle.leaf_bytes.specs.Names.{is_name, goes_on, part_ok};

use crate::bytes::{is_alnum, is_letter};

// Whether the byte at i may stand in a name after its first: a letter, a digit, or an underscore before one of these.
// `goes_on` has an i below the length.
#[tactic(auto, using(crate::proofs::Naming::part_laws))]
fn part_ok(w: &[u8], i: usize) -> bool
    requires { i < length w.now }
    ensures { result ≡ part_ok (drop i w.now) }
{
    is_alnum(w[i]) || w[i] == b'_' && i + 1 < w.len() && is_alnum(w[i + 1])
}

// Whether every byte from the second on may stand in a name. `is_name` has seen that there is a first.
#[tactic(auto, using(crate::proofs::Naming::goes_laws))]
fn goes_on(w: &[u8]) -> bool
    requires { 0 < length w.now }
    ensures { result ≡ goes_on (drop 1 w.now) }
{
    for i in 1..w.len() {
        if !part_ok(w, i) {
            return false;
        }
    }
    true
}

// How many bytes a name has at most: "1 to 31 bytes".
const LONGEST: usize = 31;

// Whether w has the shape of a name; a reserved word has it too.
#[tactic(auto, using(crate::proofs::Naming::name_laws))]
pub fn is_name(w: &[u8]) -> bool
    ensures { result ≡ is_name w.now }
{
    !w.is_empty() && w.len() <= LONGEST && is_letter(w[0]) && goes_on(w)
}
