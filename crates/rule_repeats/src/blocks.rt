// Names that differ: the keys of 256 of them at a time are kept, and each name after these is read once and its key looked for among them.
// Names themselves are compared where keys agree.
ghost use Rattle.std.specs.Prelude.{◌≡◌, ◌&&◌, length};
ghost use Rattle.rule_repeats.specs.Leads.{leads_at};
ghost use Rattle.rule_repeats.specs.Blocks.{apart, has_to, has_both_to, Listed, Meets, Fills, ComesAgain};

use crate::leads::{Lead, next_name};
use table_names::same_word;

// How many keys stand in a whole block.
const BLOCK: usize = 256;

// Half of each key of a block.
type Block = [u32; BLOCK];

// Whether a number stands in a block. The loop has no way out, so that the compiler compares several at once.
#[tactic(auto, using(crate::proofs::Meeting::have_laws))]
fn has(keys: &Block, a: u32) -> bool
    ensures { result ≡ has_to 256 a keys.now }
{
    let mut any = false;
    for i in 0..BLOCK {
        any = any | (keys[i] == a);
    }
    any
}

// Whether two numbers stand at the same place of two blocks.
#[tactic(auto, using(crate::proofs::Meeting::both_laws))]
fn has_both(lows: &Block, highs: &Block, a: u32, b: u32) -> bool
    ensures { result ≡ has_both_to 256 a b lows.now highs.now }
{
    let mut any = false;
    for i in 0..BLOCK {
        any = any | ((lows[i] == a) & (highs[i] == b));
    }
    any
}

// Whether a key stands in a block: few names have the low number of another.
#[tactic(auto, using(crate::proofs::Meeting::agree_none))]
fn agrees(lows: &Block, highs: &Block, x: Lead) -> bool
    ensures { result ≡ has_both_to 256 x.low x.high lows.now highs.now }
{
    has(lows, x.low) && has_both(lows, highs, x.low, x.high)
}

// Whether the word at x is one of the first n names from an offset on.
#[tactic(auto, using(crate::proofs::Meeting::list_laws))]
fn listed(text: &[u8], x: usize, from: usize, n: usize) -> bool
    ensures { Listed text.now x from n result }
{
    let mut p = from;
    for _k in 0..n {
        let Some((z, q)) = next_name(text, p) else {
            return false;
        };
        if same_word(text, z.at, x) {
            return true;
        }
        p = q;
    }
    false
}

// Whether a name is one of the first n from an offset on, whose keys stand in the block.
#[tactic(auto, using(crate::proofs::Meeting::meet_laws))]
fn meets(text: &[u8], lows: &Block, highs: &Block, from: usize, n: usize, x: Lead) -> bool
    ensures { Meets text.now lows.now highs.now from n x result }
{
    agrees(lows, highs, x) && listed(text, x.at, from, n)
}

// The keys of the names from an offset on, as many as a block holds, if these differ: how many stand in the block, and the offset after the last of
// them; `None` where a name has come again.
#[tactic(auto, using(crate::proofs::BlockByBlock::fill_laws))]
fn fill_block(text: &[u8], lows: &mut Block, highs: &mut Block, at: usize) -> Option<(usize, usize)>
    requires { (length lows.old ≡ 256) × (length highs.old ≡ 256) }
    ensures { Fills text.now at result lows.new highs.new }
{
    let mut p = at;
    for n in 0..BLOCK {
        let Some((x, q)) = next_name(text, p) else {
            return Some((n, p));
        };
        if meets(text, lows, highs, at, n, x) {
            return None;
        }
        lows[n] = x.low;
        highs[n] = x.high;
        p = q;
    }
    Some((BLOCK, p))
}

// Whether a name from an offset on is one of the n from another on, whose keys stand in the block.
#[tactic(auto, using(crate::proofs::BlockByBlock::seek_laws))]
fn comes_again(text: &[u8], lows: &Block, highs: &Block, from: usize, n: usize, at: usize) -> bool
    ensures { ComesAgain text.now lows.now highs.now from n at result }
{
    let mut p = at;
    while let Some((x, q)) = next_name(text, p) {
        if meets(text, lows, highs, from, n, x) {
            return true;
        }
        p = q;
    }
    false
}

// Whether the names from an offset on differ, block by block.
#[tactic(auto, using(crate::proofs::BlockByBlock::clear_laws))]
fn differ_from(text: &[u8], lows: &mut Block, highs: &mut Block, at: usize) -> bool
    requires { (length lows.old ≡ 256) × (length highs.old ≡ 256) }
    ensures { result ≡ apart (leads_at text.now at) }
{
    let mut p = at;
    while let Some((n, q)) = fill_block(text, lows, highs, p) {
        if n == 0 {
            return true;
        }
        if comes_again(text, lows, highs, p, n, q) {
            return false;
        }
        p = q;
    }
    false
}

// Whether the parts from an offset on begin with names that differ.
pub fn names_differ(text: &[u8], at: usize) -> bool
    ensures { result ≡ apart (leads_at text.now at) }
{
    let mut lows = [0u32; BLOCK];
    let mut highs = [0u32; BLOCK];
    differ_from(text, &mut lows, &mut highs, at)
}

// Whether that is so, and something else holds.
#[tactic(auto, using(crate::proofs::BlockByBlock::too_laws))]
pub fn differ_too(text: &[u8], at: usize, ok: bool) -> bool
    ensures { result ≡ (ok && apart (leads_at text.now at)) }
{
    ok && names_differ(text, at)
}
