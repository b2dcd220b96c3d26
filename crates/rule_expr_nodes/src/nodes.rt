// A node of the code from its numbers, and constants.
// Kept (6): nodes and entries are numbers at the free place of the lent working list: fixed memory and no heap, as document 01 has it.
ghost use Rattle.code.specs.Layout.{lay as laid};
ghost use Rattle.rule_expr_nodes.specs.Nodes.{Makes, IsBits, node_made, literal_made};

use leaf_integers::in_range;
use leaf_sets::pattern;
use rule_faults::{Fault, Got, failed};
use table_list::lay;

// A node at the free place, with its kind and where the walk goes on.
pub fn node(work: &mut [u32], kind: u32, next: usize, top: u32, ns: &[u32]) -> Got
    ensures { Makes (node_made kind next (laid ns.now top work.old)) result work.new }
{
    let t = lay(work, top, ns);
    Got {
        fault: Fault::Clear,
        kind,
        place: top,
        next,
        top: t,
    }
}

// An integer of the language in 32 bits.
pub fn bits_of(z: i64) -> u32
    ensures { IsBits z result }
{
    if z < 0 {
        u32::MAX - pattern(-1 - z)
    } else {
        pattern(z)
    }
}

// A constant of a kind.
#[tactic(auto, using(crate::proofs::Making::literal_laws))]
pub fn literal(work: &mut [u32], kind: u32, z: i64, next: usize, top: u32) -> Got
    ensures { Makes (literal_made kind z next top work.old) result work.new }
{
    if in_range(z, -2147483648, 2147483647) {
        let ns = [code_ops::expr::LITERAL, bits_of(z)];
        node(work, kind, next, top, &ns)
    } else {
        failed(Fault::Kind, 0, next, top)
    }
}
