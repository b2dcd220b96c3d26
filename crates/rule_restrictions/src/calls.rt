// The arguments of a call: none has a constant past the integers, and there are as many as parameters.
ghost use Rattle.std.specs.Prelude.{◌≡◌};
ghost use Rattle.law.specs.Trees.{first};
ghost use Rattle.law_theorems.specs.Readings.{stack_at};
ghost use Rattle.rule_restrictions.specs.Calls.{count_by, plain_count, KeepsCall};

use rule_constants::plain_part;
use table_scope::frames::frame_of;
use table_scope::{Meaning, Scope, meaning_of};
use text_parts::{Part, end_at, part_at};
use text_skips::skip;

// How many parameters a procedure has by its name's meaning, 0 of any other.
fn parameters_of(work: &[u32], m: Meaning) -> u32
    ensures { result ≡ count_by work.now m }
{
    match m {
        Meaning::Proc(p) => frame_of(work, p).count,
        _ => 0,
    }
}

// Whether the parts from an offset on are n, with no constant past the integers.
// Kept: the form's end stops it and not the count, which is compared there; a `for` is no plainer.
fn plain_parts(text: &[u8], n: u32, at: usize) -> bool
    ensures { result ≡ plain_count n (first (stack_at text.now at)) }
{
    let mut left = n;
    let mut p = at;
    loop {
        let e = end_at(text, p);
        match e {
            Some(_) => {
                return left == 0;
            }
            None => {
                if left == 0 {
                    return false;
                }
                if plain_part(text, p) {
                    left -= 1;
                    p = skip(text, p);
                } else {
                    return false;
                }
            }
        }
    }
}

// The rules of a call, from past the head word on.
pub fn call_kept(text: &[u8], work: &[u32], scope: Scope, at: usize) -> bool
    ensures { KeepsCall text.now work.now scope at result }
{
    match part_at(text, at) {
        Part::Leaf(_, p, q) => {
            let m = meaning_of(text, work, scope, p);
            plain_parts(text, parameters_of(work, m), q)
        }
        _ => true,
    }
}
