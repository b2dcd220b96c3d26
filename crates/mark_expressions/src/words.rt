// Words as expressions and targets, and `first` and `last` of a type.
ghost use Rattle.text_heads.specs.declared.ExprHead.TheVariants.{Bound};
ghost use Rattle.mark_expressions.specs.Marks.{MarksName, MarksPlaceName, MarksWord, MarksVar, MarksForm};

use crate::tables::Tables;
use code_calc::words::{Store, truth_of};
use leaf_words::words::Word;
use mark_values::constants::{constant, end_of, error_number};
use mark_values::places::{Reached, place};
use mark_values::values::{Carried, STUCK, value};
use rule_atoms::type_name;
use table_scope::{Meaning, meaning_of};
use text_heads::{Atom, atom_of};

// A name as an expression, by its meaning.
fn named(work: &[u32], types: &[u32], store: &Store, m: Meaning) -> Carried
    ensures { MarksName work.now types.now store.now m result }
{
    match m {
        Meaning::Var(_, k, base) => place(k, i64::from(base)).load(work, types, store),
        Meaning::Value(k, n) => constant(work, types, k, i64::from(n)),
        _ => value(0, STUCK),
    }
}

// A name as a target, by its meaning.
fn named_place(m: Meaning) -> Reached
    ensures { MarksPlaceName m result }
{
    match m {
        Meaning::Var(_, k, base) => place(k, i64::from(base)),
        _ => place(0, STUCK),
    }
}

impl Tables<'_> {
    // The word w at p as an expression.
    // Kept: the kinds are closed and each has its own arm; closures or a table of functions would say the same twice.
    pub fn word(&self, store: &Store, w: Word, p: usize) -> Carried
        ensures { MarksWord self.now.text.now self.now.work.now self.now.types.now store.now self.now.scope w p result }
    {
        match atom_of(w) {
            Atom::Number(z) => constant(self.work, self.types, 0, z),
            Atom::Named => named(
                self.work,
                self.types,
                store,
                meaning_of(self.text, self.work, self.scope, p),
            ),
            Atom::Truth(b) => constant(self.work, self.types, 1, truth_of(b)),
            Atom::ErrorNumber => error_number(store),
            _ => value(0, STUCK),
        }
    }

    // The word w at p as a target.
    pub fn variable(&self, w: Word, p: usize) -> Reached
        ensures { MarksVar self.now.text.now self.now.work.now self.now.scope w p result }
    {
        match atom_of(w) {
            Atom::Named => named_place(meaning_of(self.text, self.work, self.scope, p)),
            _ => place(0, STUCK),
        }
    }

    // The parts of a form after `first` or `last`.
    pub fn bound(&self, store: &Store, last: bool, depth: usize, at: usize) -> Carried
        ensures { MarksForm self.now.text.now self.now.work.now self.now.types.now store.now self.now.scope (Bound last) depth at result }
    {
        let t = type_name(self.text, self.work, self.scope, at);
        end_of(self.work, self.types, last, t.kind)
    }
}
