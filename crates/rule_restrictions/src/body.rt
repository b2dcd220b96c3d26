// The rules of a body.
ghost use Rattle.rule_restrictions.specs.Walks.{KeepsBody};

use crate::walk::{stmt, stmts};
use rule_stmt_nodes::last::{Next, next_at};
use table_scope::{Scope, no_loops};
use text_heads::DEPTH;
use text_skips::skip;

// All parts of a body, from an offset to the closing bracket.
pub fn body_kept(text: &[u8], work: &[u32], scope: Scope, at: usize) -> bool
    ensures { KeepsBody text.now work.now scope at result }
{
    let w = no_loops();
    let mut p = at;
    loop {
        let e = next_at(text, p);
        match e {
            Next::Past(_) => {
                return true;
            }
            Next::Handler(q) => {
                return stmts(text, work, scope, w, DEPTH, q);
            }
            Next::Stmt => {
                if stmt(text, work, scope, w, DEPTH, p) {
                    p = skip(text, p);
                } else {
                    return false;
                }
            }
        }
    }
}
