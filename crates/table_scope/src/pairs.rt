// The pairs `(N T)` of a procedure's parameters, as they stand in the text: a name means the first pair that begins with it.
ghost use Rattle.std.specs.Prelude.{◌≡◌, map};
ghost use Rattle.leaf_bytes.specs.Bytes.{small};
ghost use Rattle.law.specs.Trees.{word_at};
ghost use Rattle.table_scope.specs.Pairs.{next_pair, Leads, FollowsLead, FindsPair};

use table_names::same_word;
use text_skips::past_form;
use text_words::sight::{Sight, look, word_end};

// Pairs are counted up to this, which is more than a text has room for.
pub(crate) const PAIR_NUMBERS: u32 = 65536;

// The last number of a pair.
const LAST_PAIR: u32 = PAIR_NUMBERS - 1;

// The offset of the word with which the parts at an offset begin; the text's end where they begin with none.
fn first_word(text: &[u8], at: usize) -> usize
    ensures { Leads text.now at result }
{
    match look(text, at) {
        Sight::Form(_) => text.len(),
        Sight::Leaf(p) => p,
        Sight::Shut(_) => text.len(),
    }
}

// Past the word with which the parts at an offset begin: where a pair's type stands.
pub(crate) fn type_word(text: &[u8], at: usize) -> usize
    ensures { FollowsLead text.now at result }
{
    word_end(text, first_word(text, at))
}

// The number after that of a pair; the last one is its own.
#[tactic(auto, using(crate::proofs::PairWays::next_laws))]
fn next_pair(j: u32) -> u32
    ensures { result ≡ next_pair j }
{
    if j < LAST_PAIR { j + 1 } else { j }
}

// The first pair from an offset on that begins with the word at another: how many pairs come before it, and the offset past its bracket.
pub(crate) fn find_pair(text: &[u8], at: usize, offset: usize) -> Option<(u32, usize)>
    ensures { FindsPair text.now at (map small (word_at text.now offset)) result }
{
    let mut p = at;
    let mut j = 0;
    loop {
        match look(text, p) {
            Sight::Form(q) => {
                if same_word(text, first_word(text, q), offset) {
                    return Some((j, q));
                }
                p = past_form(text, q);
                j = next_pair(j);
            }
            Sight::Leaf(_) => {
                return None;
            }
            Sight::Shut(_) => {
                return None;
            }
        }
    }
}
