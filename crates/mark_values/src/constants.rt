// Constants, `first` and `last` of a type, and `error_number`.
ghost use Rattle.std.specs.Prelude.{◌≡◌, neg_ℤ};
ghost use Rattle.mark_values.specs.Steps.{end_word, Constants, Ends, Latest};

use crate::values::{Carried, STUCK, value};
use code_calc::cells::latest;
use code_calc::words::{Store, signed_of};
use leaf_integers::{in_range, neg};
use table_scope::{Info, describe, host_of};

// A constant z of a kind, which must be one of that kind's ordinals.
#[tactic(auto, using(crate::proofs::Settling::constant_laws))]
pub fn constant(work: &[u32], types: &[u32], kind: u32, z: i64) -> Carried
    ensures { Constants work.now types.now kind z result }
{
    let i = describe(work, types, kind);
    if i.shape == 0 && in_range(z, signed_of(i.low), signed_of(i.high)) {
        value(kind, z)
    } else {
        value(0, STUCK)
    }
}

// The constant `(- z)`.
#[tactic(auto, using(crate::proofs::Settling::negative_laws))]
pub fn negative(work: &[u32], types: &[u32], z: i64) -> Carried
    ensures { Constants work.now types.now 0 (neg_ℤ z) result }
{
    let n = neg(z);
    match n {
        Ok(v) => constant(work, types, 0, v),
        Err(_) => value(0, STUCK),
    }
}

// A type's first or last value.
#[tactic(auto, using(crate::proofs::Settling::end_word_laws))]
fn end_word(last: bool, i: Info) -> i64
    ensures { result ≡ end_word last i }
{
    signed_of(if last { i.high } else { i.low })
}

// `first` or `last` of type t, which must be an ordinal.
#[tactic(auto, using(crate::proofs::Settling::end_of_laws))]
pub fn end_of(work: &[u32], types: &[u32], last: bool, t: u32) -> Carried
    ensures { Ends work.now types.now last t result }
{
    let i = describe(work, types, t);
    if i.shape == 0 {
        value(host_of(work, types, t), end_word(last, i))
    } else {
        value(0, STUCK)
    }
}

// The last exception's number.
#[tactic(auto, using(crate::proofs::Settling::latest_laws))]
pub fn error_number(store: &Store) -> Carried
    ensures { Latest store.now result }
{
    value(0, latest(store))
}
