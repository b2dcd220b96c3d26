// The cells of a variable, and an end of a type: nodes and numbers that need no table.
// Kept (6): nodes and entries are numbers at the free place of the lent working list: fixed memory and no heap, as document 01 has it.
ghost use Rattle.std.specs.Prelude.{◌≡◌};
ghost use Rattle.rule_expr_nodes.specs.Nodes.{Makes};
ghost use Rattle.rule_expr_nodes.specs.Cells.{span_of, cells_made, end_bits};

use crate::nodes::node;
use rule_faults::Got;
use table_scope::Info;

// Cells below this, and as many of them, are told by one number of 32 bits.
const SPANNED: u32 = 65536;

// The first cell and the number of cells in one number.
#[tactic(auto, using(crate::proofs::CellsMaking::span_laws))]
fn span(base: u32, size: u32) -> u32
    ensures { result ≡ span_of base size }
{
    if base < SPANNED && size < SPANNED {
        base + code_ops::expr::CELLS_TIMES * size
    } else {
        0
    }
}

// So many cells of a kind, from a base on.
pub fn cells(work: &mut [u32], size: u32, kind: u32, base: u32, next: usize, top: u32) -> Got
    ensures { Makes (cells_made size kind base next top work.old) result work.new }
{
    if size == 1 {
        node(work, kind, next, top, &[code_ops::expr::LOAD_CELL, base])
    } else {
        let ns = [code_ops::expr::LOAD_CELLS, span(base, size)];
        node(work, kind, next, top, &ns)
    }
}

// A type's first or last value, in 32 bits.
#[tactic(auto, using(crate::proofs::CellsMaking::end_bits_laws))]
pub fn end_bits(last: bool, i: Info) -> u32
    ensures { result ≡ end_bits last i }
{
    if last { i.high } else { i.low }
}
