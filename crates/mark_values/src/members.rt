// The members of a set.
ghost use Rattle.std.specs.Prelude.{◌≡◌, eqb};
ghost use Rattle.table_scope.specs.Descriptions.{info_of};
ghost use Rattle.mark_values.specs.Steps.{Admits};

use crate::values::Carried;
use code_calc::operators::test;
use code_calc::words::signed_of;
use table_scope::{describe, host_of};

// Whether t is a set.
pub fn is_set(work: &[u32], types: &[u32], t: u32) -> bool
    ensures { result ≡ eqb (info_of work.now types.now t).shape 1 }
{
    describe(work, types, t).shape == 1
}

impl Carried {
    // A member of a set of type t: its kind is met before it is tested against the base.
    #[tactic(auto, using(crate::proofs::Settling::member_laws))]
    pub fn member(self, work: &[u32], types: &[u32], t: u32) -> i64
        ensures { Admits work.now types.now t self result }
    {
        let i = describe(work, types, t);
        let w = self.wanted(host_of(work, types, i.element));
        test(w, signed_of(i.low), signed_of(i.high))
    }
}
