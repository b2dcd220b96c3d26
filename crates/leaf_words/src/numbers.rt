// What a number spells, in decimal and in hexadecimal.
ghost use Rattle.std.specs.Prelude.{◌≡◌, ◌≤◌};
ghost use Rattle.leaf_words.specs.Numbers.{numeral, signed, decimal_of, hex_of, number_of};

use crate::words::Word;
use leaf_bytes::bytes::digit_of;

// The greatest integer.
const GREATEST: u64 = 2147483647;

// The number that w spells in a base of at most 16, if it is not above `most`. `decimal_of` and `hex_of` ask it of literals.
#[tactic(auto, using(crate::proofs::Digits::numeral_laws, crate::proofs::Digits::numeral_start, crate::proofs::Digits::fits_laws))]
fn numeral_of(w: &[u8], base: u64, most: u64) -> Option<u64>
    requires { (1 ≤ base) × (base ≤ 16) × (most ≤ 4294967295) }
    ensures { result ≡ numeral base most w.now }
{
    let mut sum: u64 = 0;
    for b in w {
        let d = digit_of(*b);
        if d >= base {
            return None;
        }
        sum = sum * base + d;
        if sum > most {
            return None;
        }
    }
    Some(sum)
}

// A number as a 32-bit pattern: with the top bit set it means the value less 4294967296. `hex_of` asks `numeral_of` for no more.
#[tactic(auto, using(crate::proofs::DecimalHex::signed_laws))]
fn signed_of(n: u64) -> i64
    requires { n ≤ 4294967295 }
    ensures { result ≡ signed n }
{
    if n <= GREATEST {
        n as i64
    } else {
        n as i64 - 4294967296
    }
}

// A decimal number, 0 to 2147483647.
#[tactic(auto, using(crate::proofs::DecimalHex::decimal_laws))]
fn decimal_of(w: &[u8]) -> Word
    ensures { result ≡ decimal_of w.now }
{
    match numeral_of(w, 10, GREATEST) {
        Some(v) => Word::Number(v as i64),
        None => Word::Unknown,
    }
}

// A hexadecimal number of 1 to 8 digits.
#[tactic(auto, using(crate::proofs::DecimalHex::hex_laws))]
fn hex_of(w: &[u8]) -> Word
    ensures { result ≡ hex_of w.now }
{
    if w.is_empty() || w.len() > 8 {
        return Word::Unknown;
    }
    match numeral_of(w, 16, 4294967295) {
        Some(v) => Word::Number(signed_of(v)),
        None => Word::Unknown,
    }
}

// The number that w is, or Unknown.
#[tactic(auto, using(crate::proofs::DecimalHex::number_laws))]
pub fn number_of(w: &[u8]) -> Word
    ensures { result ≡ number_of w.now }
{
    if w.is_empty() {
        Word::Unknown
    } else if w[0] == b'#' {
        hex_of(&w[1..])
    } else {
        decimal_of(w)
    }
}
