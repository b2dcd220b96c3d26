// The fixed table of reserved words and operators, and the place of a word in it.
ghost use Rattle.std.specs.Prelude.{◌≡◌, [], ◌<◌, ◌≤◌, length, get_or, MatchOption};
ghost use Rattle.leaf_reserved.specs.Table.{rows, is_fixed, place_of};
ghost use Rattle.leaf_reserved.specs.Slots.{has_letters};

use crate::slots::{guess_at, slot_of};
use leaf_bytes::bytes::small_of;

// How many reserved words there are, and how many words in the table.
pub const RESERVED: usize = 46;

pub const FIXED: usize = 57;

// How many letters a row has room for.
const LONGEST: usize = 12;

// The reserved words in small letters, then the operators, each filled up with zeros.
const TABLE: [[u8; 12]; 57] = [
    [116, 121, 112, 101, 0, 0, 0, 0, 0, 0, 0, 0], // type
    [118, 97, 114, 0, 0, 0, 0, 0, 0, 0, 0, 0], // var
    [112, 114, 111, 99, 0, 0, 0, 0, 0, 0, 0, 0], // proc
    [109, 97, 105, 110, 0, 0, 0, 0, 0, 0, 0, 0], // main
    [101, 120, 99, 101, 112, 116, 105, 111, 110, 0, 0, 0], // exception
    [101, 110, 117, 109, 0, 0, 0, 0, 0, 0, 0, 0], // enum
    [114, 97, 110, 103, 101, 0, 0, 0, 0, 0, 0, 0], // range
    [97, 114, 114, 97, 121, 0, 0, 0, 0, 0, 0, 0], // array
    [114, 101, 99, 111, 114, 100, 0, 0, 0, 0, 0, 0], // record
    [115, 101, 116, 111, 102, 0, 0, 0, 0, 0, 0, 0], // setof
    [98, 101, 103, 105, 110, 0, 0, 0, 0, 0, 0, 0], // begin
    [105, 102, 0, 0, 0, 0, 0, 0, 0, 0, 0, 0], // if
    [119, 104, 105, 108, 101, 0, 0, 0, 0, 0, 0, 0], // while
    [102, 111, 114, 0, 0, 0, 0, 0, 0, 0, 0, 0], // for
    [99, 97, 115, 101, 0, 0, 0, 0, 0, 0, 0, 0], // case
    [97, 114, 109, 0, 0, 0, 0, 0, 0, 0, 0, 0], // arm
    [101, 108, 115, 101, 0, 0, 0, 0, 0, 0, 0, 0], // else
    [99, 97, 108, 108, 0, 0, 0, 0, 0, 0, 0, 0], // call
    [114, 97, 105, 115, 101, 0, 0, 0, 0, 0, 0, 0], // raise
    [97, 116, 0, 0, 0, 0, 0, 0, 0, 0, 0, 0], // at
    [100, 111, 116, 0, 0, 0, 0, 0, 0, 0, 0, 0], // dot
    [109, 101, 109, 98, 101, 114, 115, 0, 0, 0, 0, 0], // members
    [110, 111, 116, 0, 0, 0, 0, 0, 0, 0, 0, 0], // not
    [97, 98, 115, 0, 0, 0, 0, 0, 0, 0, 0, 0], // abs
    [115, 113, 114, 0, 0, 0, 0, 0, 0, 0, 0, 0], // sqr
    [111, 100, 100, 0, 0, 0, 0, 0, 0, 0, 0, 0], // odd
    [111, 114, 100, 0, 0, 0, 0, 0, 0, 0, 0, 0], // ord
    [112, 114, 101, 100, 0, 0, 0, 0, 0, 0, 0, 0], // pred
    [115, 117, 99, 99, 0, 0, 0, 0, 0, 0, 0, 0], // succ
    [99, 97, 114, 100, 0, 0, 0, 0, 0, 0, 0, 0], // card
    [115, 101, 116, 109, 105, 110, 0, 0, 0, 0, 0, 0], // setmin
    [115, 101, 116, 109, 97, 120, 0, 0, 0, 0, 0, 0], // setmax
    [102, 105, 114, 115, 116, 0, 0, 0, 0, 0, 0, 0], // first
    [108, 97, 115, 116, 0, 0, 0, 0, 0, 0, 0, 0], // last
    [100, 105, 118, 0, 0, 0, 0, 0, 0, 0, 0, 0], // div
    [109, 111, 100, 0, 0, 0, 0, 0, 0, 0, 0, 0], // mod
    [105, 110, 0, 0, 0, 0, 0, 0, 0, 0, 0, 0], // in
    [97, 110, 100, 0, 0, 0, 0, 0, 0, 0, 0, 0], // and
    [111, 114, 0, 0, 0, 0, 0, 0, 0, 0, 0, 0], // or
    [97, 110, 100, 95, 116, 104, 101, 110, 0, 0, 0, 0], // and_then
    [111, 114, 95, 101, 108, 115, 101, 0, 0, 0, 0, 0], // or_else
    [105, 110, 116, 101, 103, 101, 114, 0, 0, 0, 0, 0], // integer
    [98, 111, 111, 108, 101, 97, 110, 0, 0, 0, 0, 0], // boolean
    [116, 114, 117, 101, 0, 0, 0, 0, 0, 0, 0, 0], // true
    [102, 97, 108, 115, 101, 0, 0, 0, 0, 0, 0, 0], // false
    [101, 114, 114, 111, 114, 95, 110, 117, 109, 98, 101, 114], // error_number
    [58, 61, 0, 0, 0, 0, 0, 0, 0, 0, 0, 0], // :=
    [43, 0, 0, 0, 0, 0, 0, 0, 0, 0, 0, 0], // +
    [45, 0, 0, 0, 0, 0, 0, 0, 0, 0, 0, 0], // -
    [42, 0, 0, 0, 0, 0, 0, 0, 0, 0, 0, 0], // *
    [42, 42, 0, 0, 0, 0, 0, 0, 0, 0, 0, 0], // **
    [61, 0, 0, 0, 0, 0, 0, 0, 0, 0, 0, 0], // =
    [60, 62, 0, 0, 0, 0, 0, 0, 0, 0, 0, 0], // <>
    [60, 0, 0, 0, 0, 0, 0, 0, 0, 0, 0, 0], // <
    [60, 61, 0, 0, 0, 0, 0, 0, 0, 0, 0, 0], // <=
    [62, 0, 0, 0, 0, 0, 0, 0, 0, 0, 0, 0], // >
    [62, 61, 0, 0, 0, 0, 0, 0, 0, 0, 0, 0], // >=
];

// The row k of the table, for `is_fixed`. Each row is named by its number: the compiler knows it then, and lays that row alone
// on the stack. For a number that it does not know it would lay the whole table there for each word.
// Kept: `TABLE[k]` was tried, and misses the bar of speed, by that copy of the table.
fn row_of(k: usize) -> [u8; 12]
    requires { k < 57 }
    ensures { result ≡ get_or rows k [] }
{
    let table = TABLE;
    match k {
        0 => table[0],
        1 => table[1],
        2 => table[2],
        3 => table[3],
        4 => table[4],
        5 => table[5],
        6 => table[6],
        7 => table[7],
        8 => table[8],
        9 => table[9],
        10 => table[10],
        11 => table[11],
        12 => table[12],
        13 => table[13],
        14 => table[14],
        15 => table[15],
        16 => table[16],
        17 => table[17],
        18 => table[18],
        19 => table[19],
        20 => table[20],
        21 => table[21],
        22 => table[22],
        23 => table[23],
        24 => table[24],
        25 => table[25],
        26 => table[26],
        27 => table[27],
        28 => table[28],
        29 => table[29],
        30 => table[30],
        31 => table[31],
        32 => table[32],
        33 => table[33],
        34 => table[34],
        35 => table[35],
        36 => table[36],
        37 => table[37],
        38 => table[38],
        39 => table[39],
        40 => table[40],
        41 => table[41],
        42 => table[42],
        43 => table[43],
        44 => table[44],
        45 => table[45],
        46 => table[46],
        47 => table[47],
        48 => table[48],
        49 => table[49],
        50 => table[50],
        51 => table[51],
        52 => table[52],
        53 => table[53],
        54 => table[54],
        55 => table[55],
        _ => table[56],
    }
}

// Whether a row has n letters and then zeros. `is_fixed` passes the length of a word that a row has room for.
#[tactic(auto, using(crate::proofs::Rows::has_laws))]
fn has_letters(row: &[u8; 12], n: usize) -> bool
    requires { (0 < n) × (n ≤ 12) }
    ensures { result ≡ has_letters row.now n }
{
    row[n - 1] != 0 && (n == LONGEST || row[n] == 0)
}

// Whether w is the word k of the table, case ignored. `place_of` has a k below 57 and a word that a row has room for.
// Kept: the guard says what rows are looked at, the loop what their letters are; a chain is no plainer.
#[tactic(auto, using(crate::proofs::Places::fixed_laws))]
fn is_fixed(w: &[u8], k: usize) -> bool
    requires { (k < 57) × (0 < length w.now) × (length w.now ≤ 12) }
    ensures { result ≡ is_fixed w.now k }
{
    let n = w.len();
    let row = row_of(k);
    if !has_letters(&row, n) {
        return false;
    }
    for i in 0..n {
        if small_of(w[i]) != row[i] {
            return false;
        }
    }
    true
}

// The place of w in the table, case ignored, if it is there: at most one row is compared with it, that of its slot.
#[tactic(auto, using(crate::proofs::Places::place_laws))]
pub fn place_of(w: &[u8]) -> Option<usize>
    ensures { MatchOption result (place_of w.now ≡ 57) (λ k. (k < 57) × (k ≡ place_of w.now)) }
{
    if w.is_empty() || w.len() > LONGEST {
        return None;
    }
    let k = guess_at(slot_of(w));
    if k < FIXED && is_fixed(w, k) {
        Some(k)
    } else {
        None
    }
}
