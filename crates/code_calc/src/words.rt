// Words, which are values or faults, and numbers as such.
ghost use Rattle.std.specs.Prelude.{◌≡◌, min, pos};
ghost use Rattle.leaf_words.specs.Numbers.{signed};
ghost use Rattle.law.specs.Calculate.{truth};
ghost use Rattle.law.specs.Calculate.{nat_of};

// The greatest value, the greatest finite real's pattern; a greater word is a fault.
pub const GREATEST: i64 = 9218868437227405311;

// The exceptions' numbers, by document 01's names: Numeric_Error ..
const NUMERIC_ERROR: i64 = -101;

// .. System_Error ..
pub const SYSTEM_ERROR: i64 = -102;

// .. Range_Error ..
pub const RANGE_ERROR: i64 = -103;

// .. Undefined_Error ..
pub const UNDEFINED_ERROR: i64 = -104;

// .. and Case_Error.
pub const CASE_ERROR: i64 = -105;

// A fault's word is the exception's number above this one.
pub const FAULT: i64 = 9223372036854775807;

pub const NUMERIC: i64 = FAULT + NUMERIC_ERROR;

pub const RANGE: i64 = FAULT + RANGE_ERROR;

pub const UNDEFINED: i64 = FAULT + UNDEFINED_ERROR;

// The store's array: the cells' words, then the last exception's number and its statement; the rest is not used.
pub type Store = [i64; WORDS];

pub const WORDS: usize = 2184;

pub const CELLS: usize = 2176;

pub const LATEST: usize = CELLS;

pub const PLACE: usize = LATEST + 1;

// A number as an integer of 32 bits: with its top bit turned, less what that bit counts, for which the compiler has one instruction.
pub fn signed_of(n: u32) -> i64
    ensures { result ≡ signed n }
{
    let turned = std::num::wrapping_add_u32(n, 2147483648);
    turned as i64 - 2147483648
}

// A truth value's word.
#[tactic(auto, using(crate::proofs::Leaves::truth_laws))]
pub fn truth_of(b: bool) -> i64
    ensures { result ≡ truth b }
{
    if b { 1 } else { 0 }
}

// A number as a long one.
pub fn wide(n: u32) -> u64
    ensures { result ≡ n }
{
    n as u64
}

// The natural number that a word is, 0 of a negative one.
// Kept: the contract `nat_of` says 0 of a negative number.
#[tactic(auto, using(crate::proofs::Leaves::natural_laws, leaf_powers::proofs::Powers::raise_cast))]
pub fn natural(w: i64) -> u64
    ensures { result ≡ nat_of w }
{
    if w < 0 { 0 } else { w as u64 }
}

// The place that a word is: 0 of a negative one, and none past the greatest place.
// Kept: the contract says `min (nat_of z) 4294967295`, and these are its three cases; a `clamp` and a cast are no plainer.
pub fn reach(z: i64) -> u64
    ensures { result ≡ min (nat_of z) 4294967295 }
{
    if z < 0 {
        return 0;
    }
    if z > 4294967295 {
        return 4294967295;
    }
    z as u64
}

// A place's word: no store has a cell past the greatest.
pub fn capped(a: u64) -> i64
    ensures { result ≡ pos (min a 4294967295) }
{
    if a > 4294967295 {
        return 4294967295;
    }
    a as i64
}
