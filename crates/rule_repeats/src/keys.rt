// The key of a word, two numbers of 32 bits: words whose keys differ are not the same.
ghost use Rattle.std.specs.Prelude.{◌≡◌};
ghost use Rattle.rule_repeats.specs.Keys.{key_with, low_factor, high_factor, keyed_by, KeyedAt};

use leaf_bytes::bytes::{Class, class_of, small_of};

// A word's key, and where the word ends.
#[derive(Clone, Copy)]
pub struct Keyed {
    pub low: u32,
    pub high: u32,
    pub next: usize,
}

// The low number with one more letter.
#[tactic(auto, using(crate::proofs::Spelling::low_more))]
fn low_with(k: u32, b: u8) -> u32
    ensures { result ≡ key_with low_factor k b }
{
    ((k as u64 * 75 + b as u64) % 4294967296) as u32
}

// The high number with one more letter.
#[tactic(auto, using(crate::proofs::Spelling::high_more))]
fn high_with(k: u32, b: u8) -> u32
    ensures { result ≡ key_with high_factor k b }
{
    ((k as u64 * 2654435769 + b as u64) % 4294967296) as u32
}

// A key from its numbers.
fn key_made(low: u32, high: u32, next: usize) -> Keyed
    ensures { result ≡ keyed_by low high next }
{
    Keyed { low, high, next }
}

// The key of the word that goes on at an offset, case ignored.
pub fn key_at(text: &[u8], at: usize) -> Keyed
    ensures { KeyedAt text.now at result }
{
    let mut low = 0;
    let mut high = 0;
    for p in at..text.len() {
        let Class::Visible = class_of(text[p]) else {
            return key_made(low, high, p);
        };
        let b = small_of(text[p]);
        low = low_with(low, b);
        high = high_with(high, b);
    }
    key_made(low, high, at.max(text.len()))
}
