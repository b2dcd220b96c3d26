// Links of a chain: numbers laid at the free place, and the slot before them set to it.
// Kept (6): nodes and entries are numbers at the free place of the lent working list: fixed memory and no heap, as document 01 has it.
ghost use Rattle.code.specs.Layout.{lay as laid, link as linking};
ghost use Rattle.table_list.specs.Laid.{Laid};
ghost use Rattle.rule_expr_nodes.specs.Links.{linked};

use table_list::{lay, put};

// A link of so many numbers, and the slot before it; the free place then.
pub fn link(work: &mut [u32], slot: usize, ns: &[u32], top: u32) -> u32
    ensures { Laid (linking slot (laid ns.now top work.old)) result work.new }
{
    let t = lay(work, top, ns);
    put(work, slot, top);
    t
}

// A link to one place, and the slot before it; the free place then.
pub fn link_to(work: &mut [u32], slot: usize, place: u32, top: u32) -> u32
    ensures { Laid (linked slot place top work.old) result work.new }
{
    link(work, slot, &[place, 0], top)
}
