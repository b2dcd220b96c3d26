// The parts of a form, read from the text.

#![tactic(auto)]

ghost use Rattle.std.specs.Prelude.{◌≡◌};
ghost use Rattle.text_parts.specs.Parts.{LeafStands, Stands, Shuts, past_part};

use leaf_words::words::Word;
use text_words::sight::{Sight, look, word_at};

// Document 01's reader: the lent text together with the offset it has reached.
#[derive(Clone, Copy)]
pub struct Reader<'a> {
    pub text: &'a [u8],
    pub at: usize,
}

// The next part of a form: a word (with its offset and its end), a form (the offset past its bracket), or none (past the closing bracket).
// Kept: `Shut` has an offset, from which the walk goes on like the others; a Result is no plainer.
#[derive(Clone, Copy)]
pub enum Part {
    Leaf(Word, usize, usize),
    Form(usize),
    Shut(usize),
}

// What a reader has read: a part, and the reader at the offset that it has reached, past that part.
#[derive(Clone, Copy)]
pub struct Read<'a> {
    pub part: Part,
    pub reader: Reader<'a>,
}

// A word that begins at p, as a part.
fn leaf(text: &[u8], p: usize) -> Part
    ensures { LeafStands text.now p result }
{
    let seen = word_at(text, p);
    Part::Leaf(seen.word, p, seen.next)
}

// The part at an offset of a text.
#[tactic(auto, using(crate::proofs::Steps::part_laws))]
fn stands_at(text: &[u8], at: usize) -> Part
    ensures { Stands text.now at result }
{
    match look(text, at) {
        Sight::Form(p) => Part::Form(p),
        Sight::Leaf(p) => leaf(text, p),
        Sight::Shut(p) => Part::Shut(p),
    }
}

// The offset past a part: inside a form, behind a word or a closing bracket.
fn past(p: Part) -> usize
    ensures { result ≡ past_part p }
{
    match p {
        Part::Leaf(_, _, q) | Part::Form(q) | Part::Shut(q) => q,
    }
}

// Whether the form ends at an offset of a text: the offset past its closing bracket, none where another part comes first.
#[tactic(auto, using(crate::proofs::Steps::end_laws))]
fn shuts_at(text: &[u8], at: usize) -> Option<usize>
    ensures { Shuts text.now at result }
{
    match look(text, at) {
        Sight::Shut(p) => Some(p),
        Sight::Form(_) | Sight::Leaf(_) => None,
    }
}

impl<'a> Reader<'a> {
    // A reader that has reached an offset.
    pub fn at(text: &'a [u8], at: usize) -> Reader<'a>
        ensures { (result.text ≡ text.entry) × (result.at ≡ at) }
    {
        Reader { text, at }
    }

    // The part at the offset that the reader has reached, and the reader past it.
    pub fn next_part(self) -> Read<'a>
        ensures { Stands self.entry.text.now self.entry.at result.part × (result.reader.text ≡ self.entry.text) × (result.reader.at ≡ past_part result.part) }
    {
        let part = stands_at(self.text, self.at);
        let at = past(part);
        Read {
            part,
            reader: Reader {
                text: self.text,
                at,
            },
        }
    }

    // Whether the form ends at the offset that the reader has reached; no word is read for it.
    pub fn next_end(self) -> Option<usize>
        ensures { Shuts self.entry.text.now self.entry.at result }
    {
        shuts_at(self.text, self.at)
    }
}

// The part at an offset, as the checker asks for it.
pub fn part_at(text: &[u8], at: usize) -> Part
    ensures { Stands text.now at result }
{
    Reader::at(text, at).next_part().part
}

// Whether the form ends at an offset, as the checker asks for it: the offset past its closing bracket, none where another part comes first.
pub fn end_at(text: &[u8], at: usize) -> Option<usize>
    ensures { Shuts text.now at result }
{
    Reader::at(text, at).next_end()
}
