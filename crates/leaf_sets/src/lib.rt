// Sets of document 01: a 32-bit pattern, bit i standing for the ordinal i, tied to the list of its members.

#![tactic(auto)]

ghost use Rattle.std.specs.Prelude.{◌≡◌, length, pos};
ghost use Rattle.leaf_sets.specs.Sets.{members, value_of, pattern_of, least, greatest, holds, with, union_of, difference_of, intersection_of, within, equals, all_in, lies_in};

// The greatest ordinal that a set may have.
const LAST: i64 = 31;

// The pattern of a cell's value: its members among the ordinals 0 to 31.
#[tactic(auto, using(crate::proofs::Signed::pattern_laws))]
pub fn pattern(v: i64) -> u32
    ensures { result ≡ pattern_of v }
{
    if v < 0 { 0 } else { (v % 4294967296) as u32 }
}

// A set's value in a cell: the sum of 2 to each member.
#[tactic(auto, using(crate::proofs::Digits::value_read))]
pub fn value(s: u32) -> i64
    ensures { result ≡ pos (value_of (members s)) }
{
    s as i64
}

// How many members s has.
#[tactic(auto, using(crate::proofs::Counts::card_is))]
pub fn card(s: u32) -> u32
    ensures { result ≡ length (members s) }
{
    s.count_ones()
}

// The least member of s.
#[tactic(auto, using(crate::proofs::Counts::min_laws))]
pub fn setmin(s: u32) -> Option<u32>
    ensures { result ≡ least (members s) }
{
    if s == 0 {
        None
    } else {
        Some(s.trailing_zeros())
    }
}

// The greatest member of s.
#[tactic(auto, using(crate::proofs::Counts::max_laws))]
pub fn setmax(s: u32) -> Option<u32>
    ensures { result ≡ greatest (members s) }
{
    if s == 0 {
        None
    } else {
        Some(31 - s.leading_zeros())
    }
}

// Whether s has the ordinal i, which may be any: one outside 0 to 31 is in no set.
#[tactic(auto, using(crate::proofs::Operators::in_laws, crate::proofs::Signed::ordinal_laws))]
pub fn contains(s: u32, i: i64) -> bool
    ensures { result ≡ holds i (members s) }
{
    if i < 0 || i > LAST {
        return false;
    }
    (s >> (i as u32)) % 2 == 1
}

// s and the ordinal i besides; one outside 0 to 31 adds nothing.
#[tactic(auto, using(crate::proofs::Operators::insert_laws, crate::proofs::Signed::ordinal_laws))]
pub fn insert(s: u32, i: i64) -> u32
    ensures { result ≡ value_of (with i (members s)) }
{
    if i < 0 || i > LAST {
        return s;
    }
    s | (1 << (i as u32))
}

// The ordinals in s or in t.
#[tactic(auto, using(crate::proofs::Operators::union_is))]
pub fn union(s: u32, t: u32) -> u32
    ensures { result ≡ value_of (union_of (members s) (members t)) }
{
    s | t
}

// The ordinals in s and not in t.
#[tactic(auto, using(crate::proofs::Operators::difference_is))]
pub fn difference(s: u32, t: u32) -> u32
    ensures { result ≡ value_of (difference_of (members s) (members t)) }
{
    s ^ (s & t)
}

// The ordinals in s and in t.
#[tactic(auto, using(crate::proofs::Operators::intersection_is))]
pub fn intersection(s: u32, t: u32) -> u32
    ensures { result ≡ value_of (intersection_of (members s) (members t)) }
{
    s & t
}

// Whether s and t have the same members.
#[tactic(auto, using(crate::proofs::Operators::equal_is))]
pub fn equal(s: u32, t: u32) -> bool
    ensures { result ≡ equals (members s) (members t) }
{
    s == t
}

// Whether t holds all of s.
#[tactic(auto, using(crate::proofs::Operators::included_is))]
pub fn included(s: u32, t: u32) -> bool
    ensures { result ≡ within (members s) (members t) }
{
    s & t == s
}

// Whether every member of s lies in lo to hi: its least and its greatest do.
#[tactic(auto, using(crate::proofs::Ends::base_laws, crate::proofs::Counts::leading_le))]
fn within_base(s: u32, lo: i64, hi: i64) -> bool
    ensures { result ≡ all_in lo hi (members s) }
{
    s == 0 || lo <= s.trailing_zeros() as i64 && (31 - s.leading_zeros()) as i64 <= hi
}

// Whether a cell's value v is a set of ordinals in lo to hi, the base of its type.
#[tactic(auto, using(crate::proofs::Base::lies_laws, crate::proofs::Signed::ordinal_laws))]
pub fn lies_in(v: i64, lo: i64, hi: i64) -> bool
    ensures { result ≡ lies_in lo hi v }
{
    if v < 0 || v > 4294967295 {
        return false;
    }
    within_base(v as u32, lo, hi)
}
