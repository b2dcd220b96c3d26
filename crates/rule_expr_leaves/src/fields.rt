// A name that is the last part of a form.
ghost use Rattle.rule_expr_leaves.specs.Fields.{SoleWord, SoleName};

use leaf_words::words::Word;
use text_heads::{Atom, atom_of};
use text_parts::{Part, end_at, part_at};

// The word w at p, which ends at q, as a last name: its offset, and the offset past the closing bracket.
fn sole_word(text: &[u8], w: Word, p: usize, q: usize) -> Option<(usize, usize)>
    ensures { SoleWord text.now w p q result }
{
    let Atom::Named = atom_of(w) else {
        return None;
    };
    let e = end_at(text, q);
    match e {
        Some(n) => Some((p, n)),
        None => None,
    }
}

// The last name of a form, at an offset: the name's offset, and the offset past the closing bracket.
pub fn sole_name(text: &[u8], at: usize) -> Option<(usize, usize)>
    ensures { SoleName text.now at result }
{
    match part_at(text, at) {
        Part::Leaf(w, p, q) => sole_word(text, w, p, q),
        _ => None,
    }
}
