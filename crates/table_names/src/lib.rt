// The names that a script has declared, as entries in the working list that point into the text.

// Kept (6): nodes and entries are numbers at the free place of the lent working list: fixed memory and no heap, as document 01 has it.

#![tactic(auto)]

pub mod blocks;
pub mod keys;
pub mod letters;
pub mod order;

ghost use Rattle.std.specs.Prelude.{◌≡◌, [], ◌∷◌, map, ◌&&◌, ◌-◌, ◌/◌, ◌%◌, eqb};
ghost use Rattle.leaf_bytes.specs.Bytes.{small, same};
ghost use Rattle.law.specs.Trees.{word_at};
ghost use Rattle.code.specs.Layout.{lay as laid};
ghost use Rattle.table_list.specs.Laid.{Laid};
ghost use Rattle.table_names.specs.Chain.{values_by, link_at, past_values, place_by, Seeks};

use crate::blocks::{find_value, first_value};
use crate::keys::{OFFSETS, key_of};
use crate::letters::{Meeting, meet};
use table_list::{at, lay};

// Whether the words at two offsets are the same, case ignored.
// Kept: two offsets that go on together up to where the words end, which no range knows before; a `for` is no plainer.
pub fn same_word(text: &[u8], a: usize, b: usize) -> bool
    ensures { result ≡ same (map small (word_at text.now a)) (map small (word_at text.now b)) }
{
    let mut p = a;
    let mut q = b;
    loop {
        match meet(text, p, q) {
            Meeting::Same => {
                p += 1;
                q += 1;
            }
            Meeting::End => {
                return true;
            }
            Meeting::Differ => {
                return false;
            }
        }
    }
}

// What is read of an entry: its first number, how many values stand behind it, and the place of the entry before.
#[derive(Clone, Copy)]
pub struct Link {
    pub first: u32,
    pub values: u32,
    pub next: u32,
}

// How many values stand behind an entry, by its second and third numbers: only a type's has any.
#[tactic(auto, using(crate::proofs::Names::values_by_laws))]
fn values_by(sort: u32, more: u32) -> u32
    ensures { result ≡ values_by sort more }
{
    if sort % 4 == 0 { more } else { 0 }
}

// The entry at a place: mostly the list holds all of it, which is seen at once.
fn link_at(work: &[u32], p: u32) -> Link
    ensures { result ≡ link_at work.now p }
{
    let i = p as usize;
    if i + 3 < work.len() {
        return Link {
            first: work[i],
            values: values_by(work[i + 1], work[i + 2]),
            next: work[i + 3],
        };
    }
    Link {
        first: at(work, i),
        values: values_by(at(work, i + 1), at(work, i + 2)),
        next: at(work, i + 3),
    }
}

// How many entries stand from one of them on, and its place.
#[derive(Clone, Copy)]
pub struct Spot {
    pub left: u32,
    pub place: u32,
}

// The first of so many entries from the newest on that has a key, or values behind it.
fn seek(work: &[u32], count: u32, newest: u32, key: u32) -> Spot
    ensures { Seeks work.now key count newest result }
{
    let mut n = count;
    let mut p = newest;
    // Kept: n counts down since it is answered, how many entries are left: no plainer with `for`.
    while n > 0 {
        let e = link_at(work, p);
        if e.first / OFFSETS == key {
            return Spot { left: n, place: p };
        }
        if e.values > 0 {
            return Spot { left: n, place: p };
        }
        p = e.next;
        n -= 1;
    }
    Spot { left: 0, place: 0 }
}

// Whether an entry with this first number has the name at an offset, whose key is given.
#[tactic(auto, using(crate::proofs::Names::called_laws))]
fn is_called(text: &[u8], first: u32, key: u32, offset: usize) -> bool
    ensures { result ≡ (eqb (first / 32768) key && same (map small (word_at text.now (first % 32768))) (map small (word_at text.now offset))) }
{
    first / OFFSETS == key && same_word(text, (first % OFFSETS) as usize, offset)
}

// What comes in the chain after the values behind the entry at a place, of so many entries from it on.
fn past_values(work: &[u32], left: u32, place: u32, values: u32) -> Spot
    ensures { result ≡ past_values work.now left place values }
{
    let last = first_value(place) as usize + 4 * values.saturating_sub(1) as usize;
    Spot {
        left: left.saturating_sub(1).saturating_sub(values),
        place: at(work, last + 3),
    }
}

// The place of the entry that the word at an offset names, among so many from the newest on; 0 if none does.
// Kept: 0 for none. An entry found at place 0 is none too (`place_by`, which names above stand on), so an Option would be asked for 0 besides: no plainer.
pub fn lookup(text: &[u8], work: &[u32], count: u32, newest: u32, offset: usize) -> u32
    ensures { result ≡ place_by text.now work.now count newest (map small (word_at text.now offset)) }
{
    let key = key_of(text, offset);
    let mut n = count;
    let mut p = newest;
    loop {
        let s = seek(work, n, p, key);
        if s.left == 0 {
            return 0;
        }
        let e = link_at(work, s.place);
        if is_called(text, e.first, key, offset) {
            return s.place;
        }
        if e.values == 0 {
            p = e.next;
            n = s.left - 1;
        } else {
            let q = find_value(text, work, s.place, e.values, key, offset);
            if q > 0 {
                return q;
            }
            let t = past_values(work, s.left, s.place, e.values);
            p = t.place;
            n = t.left;
        }
    }
}

// A new entry at the free place: its name's number, two numbers that say what it is, and the entry before it; the free place then.
pub fn declare(work: &mut [u32], top: u32, name: u32, sort: u32, more: u32, newest: u32) -> u32
    ensures { Laid (laid (name ∷ sort ∷ more ∷ newest ∷ []) top work.old) result work.new }
{
    lay(work, top, &[name, sort, more, newest])
}
