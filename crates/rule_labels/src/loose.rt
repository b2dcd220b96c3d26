// Whether the labels of a `case` differ, be they of one kind or of several: kind and value make one number, its key.
ghost use Rattle.std.specs.Prelude.{◌≡◌};
ghost use Rattle.rule_labels.specs.Blocks.{ordinal_in};
ghost use Rattle.rule_labels.specs.Keys.{kind_in, key_by, key_at};
ghost use Rattle.rule_labels.specs.Differ.{Differs};

use crate::{By, Mark, differ_by, ordinal_in, truth_value};
use leaf_integers::in_range;
use table_scope::{Meaning, Scope, meaning_of};

// The kind of an enum name, 0 for what is none.
fn kind_in(m: Meaning) -> u32
    ensures { result ≡ kind_in m }
{
    match m {
        Meaning::Value(k, _) => k,
        _ => 0,
    }
}

// The key of a kind and a value, 0 for a value past the integers.
fn key(k: u32, z: i64) -> i64
    ensures { result ≡ key_by k z }
{
    if in_range(z, -2147483648, 2147483647) {
        (k as i64 - 2147483648) * 4294967296 + (z + 2147483648)
    } else {
        0
    }
}

// The key of an enum name.
#[tactic(auto, using(crate::proofs::KeyTelling::name_laws))]
fn name_key(m: Meaning) -> i64
    ensures { result ≡ key_by (kind_in m) (ordinal_in m) }
{
    key(kind_in(m), ordinal_in(m))
}

// The key of a label.
#[tactic(auto, using(crate::proofs::KeyTelling::mark_laws))]
pub fn key_of(text: &[u8], work: &[u32], scope: Scope, m: Mark) -> i64
    ensures { result ≡ key_at text.now work.now scope m }
{
    match m {
        Mark::Number(z) => key(0, z),
        Mark::Truth(b) => key(1, truth_value(b)),
        Mark::Named(p) => name_key(meaning_of(text, work, scope, p)),
    }
}

// Whether the labels of a case whose arms begin at an offset differ.
#[tactic(auto, using(crate::proofs::Finding::loose_arms))]
pub fn labels_differ(text: &[u8], work: &[u32], scope: Scope, at: usize) -> bool
    ensures { Differs text.now work.now scope at result }
{
    differ_by(text, work, scope, By::Key, at)
}
