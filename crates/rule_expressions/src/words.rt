// Words as expressions and targets, and `first` and `last` of a type.
// Kept (6): nodes and entries are numbers at the free place of the lent working list: fixed memory and no heap, as document 01 has it.
ghost use Rattle.text_heads.specs.declared.ExprHead.TheVariants.{Bound};
ghost use Rattle.rule_expressions.specs.Walks.{GivesWord, GivesVar, GivesForm};

use crate::walk::Walk;
use leaf_words::words::Word;
use rule_atoms::type_name;
use rule_expr_leaves::words::{bound_of, flag, named, place};
use rule_expr_nodes::bracket::closing;
use rule_expr_nodes::nodes::{literal, node};
use rule_faults::{Fault, Got, failed};
use table_scope::meaning_of;
use text_heads::{Atom, atom_of};

impl<'a> Walk<'a> {
    // The word w at p, which ends at `next`, as an expression.
    // Kept: the kinds are closed and each has its own arm; closures or a table of functions would say the same twice.
    pub fn word(self, work: &mut [u32], w: Word, p: usize, next: usize, top: u32) -> Got
        ensures { GivesWord self.entry.text.now work.old self.entry.types.now self.entry.scope w p next top result work.new }
    {
        match atom_of(w) {
            Atom::Number(z) => literal(work, 0, z, next, top),
            Atom::Named => named(
                work,
                self.types,
                meaning_of(self.text, work, self.scope, p),
                next,
                top,
            ),
            Atom::Truth(b) => {
                let ns = [code_ops::expr::LITERAL, flag(b)];
                node(work, 1, next, top, &ns)
            }
            Atom::ErrorNumber => node(work, 0, next, top, &[code_ops::expr::LAST_NUMBER]),
            _ => failed(Fault::Form, 0, next, top),
        }
    }

    // The word w at p, which ends at `next`, as a target.
    pub fn variable(self, work: &mut [u32], w: Word, p: usize, next: usize, top: u32) -> Got
        ensures { GivesVar self.entry.text.now work.old self.entry.types.now self.entry.scope w p next top result work.new }
    {
        match atom_of(w) {
            Atom::Named => place(work, meaning_of(self.text, work, self.scope, p), next, top),
            _ => failed(Fault::Form, 0, next, top),
        }
    }

    // The parts of a form after `first` or `last`.
    pub fn bound(self, work: &mut [u32], last: bool, depth: usize, at: usize, top: u32) -> Got
        ensures { GivesForm self.entry.text.now work.old self.entry.types.now self.entry.scope (Bound last) depth at top result work.new }
    {
        let t = type_name(self.text, work, self.scope, at);
        let g = bound_of(work, self.types, last, t.fault, t.kind, t.next, top);
        closing(self.text, g)
    }
}
