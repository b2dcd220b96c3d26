// What stands at an offset of a line, and words.
ghost use Rattle.std.specs.Prelude.{◌≡◌, ◌-◌, ◌≤◌, take, drop, length};
ghost use Rattle.leaf_words.specs.Words.{word_of};
ghost use Rattle.law.specs.Trees.{word_at};
ghost use Rattle.law_theorems.specs.Readings.{rest_at, stack_at};
ghost use Rattle.text_words.specs.Sights.{Looks, Ends, Reads};

use leaf_bytes::bytes::{Class, class_of};
use leaf_words::words::{Word, word_of};

// What stands at an offset, spaces passed over: a form (the offset past its bracket), a word (its offset), or nothing more at this level
// (the offset past the closing bracket, or of the line's end).
// Kept: `Shut` has an offset, from which the walk goes on like the others; a Result is no plainer.
#[derive(Clone, Copy)]
pub enum Sight {
    Form(usize),
    Leaf(usize),
    Shut(usize),
}

// A word and the offset where it ends.
#[derive(Clone, Copy)]
pub struct Seen {
    pub word: Word,
    pub next: usize,
}

// What a byte is to a reader that looks for the next part.
pub fn look(text: &[u8], at: usize) -> Sight
    ensures { Looks text.now (stack_at text.now at) result }
{
    for p in at..text.len() {
        match class_of(text[p]) {
            Class::Space => {}
            Class::Open => {
                return Sight::Form(p + 1);
            }
            Class::Close => {
                return Sight::Shut(p + 1);
            }
            Class::Visible => {
                return Sight::Leaf(p);
            }
            Class::Feed => {
                return Sight::Shut(p);
            }
            Class::Refused => {
                return Sight::Shut(p);
            }
        }
    }
    Sight::Shut(at.max(text.len()))
}

// The offset where the word that goes on at `at` ends.
// Kept: p is the answer, also where `at` is past the text's end; a `for` is no plainer.
pub fn word_end(text: &[u8], at: usize) -> usize
    ensures { Ends text.now at result }
{
    let mut p = at;
    while p < text.len() {
        match class_of(text[p]) {
            Class::Visible => {
                p += 1;
            }
            _ => {
                return p;
            }
        }
    }
    p
}

// The word that goes on at `at`, and where it ends.
pub fn word_at(text: &[u8], at: usize) -> Seen
    ensures { Reads text.now at result }
{
    if at > text.len() {
        return Seen {
            word: Word::Unknown,
            next: at,
        };
    }
    let next = word_end(text, at);
    let word = word_of(&text[at..next]);
    Seen { word, next }
}
