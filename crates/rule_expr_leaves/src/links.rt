// The nodes of `members`: the kind of its members, and the set.
ghost use Rattle.std.specs.Prelude.{◌≡◌};
ghost use Rattle.table_scope.specs.Descriptions.{info_of};
ghost use Rattle.table_scope.specs.Sides.{host_in};
ghost use Rattle.rule_expr_nodes.specs.Nodes.{Makes};
ghost use Rattle.rule_expr_leaves.specs.Links.{set_node, set_made};

use rule_expr_nodes::nodes::node;
use rule_faults::{Fault, Got, failed, is_clear, lowest};
use table_scope::{Info, describe, host_of};

// The kind of the members of a set of type t.
pub fn base_of(work: &[u32], types: &[u32], t: u32) -> u32
    ensures { result ≡ host_in work.now types.now (info_of work.now types.now t).element }
{
    let i = describe(work, types, t);
    host_of(work, types, i.element)
}

// A set whose members have no fault, of a type that i describes.
fn set_node(work: &mut [u32], i: Info, t: u32, chain: u32, m: Got) -> Got
    ensures { Makes (set_node i t chain m work.old) result work.new }
{
    if i.shape == 1 {
        let ns = [code_ops::expr::MAKE_SET, i.low, i.high, chain];
        node(work, t, m.next, m.top, &ns)
    } else {
        failed(Fault::Kind, 0, m.next, m.top)
    }
}

// A set of type t, whose name has the fault f.
pub fn set_of(work: &mut [u32], types: &[u32], f: Fault, t: u32, chain: u32, m: Got) -> Got
    ensures { Makes (set_made work.old types.now f t chain m) result work.new }
{
    let g = lowest(f, m.fault);
    if is_clear(g) {
        set_node(work, describe(work, types, t), t, chain, m)
    } else {
        failed(g, 0, m.next, m.top)
    }
}
