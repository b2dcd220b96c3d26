// The classes of a byte; letters and digits.
ghost use Rattle.std.specs.Prelude.{◌≡◌};
ghost use Rattle.leaf_bytes.specs.Bytes.{class_of, small, is_letter, is_alnum, digit_of};

// The class of a byte of the text.
#[derive(Clone, Copy, PartialEq, Eq)]
pub enum Class {
    Feed,
    Space,
    Open,
    Close,
    Visible, // any other visible byte: part of a word
    Refused,
}

// The class of b.
#[tactic(auto, using(crate::proofs::Letters::class_laws))]
pub fn class_of(b: u8) -> Class
    ensures { result ≡ class_of b }
{
    match b {
        b'\n' => Class::Feed,
        b' ' => Class::Space,
        b'(' => Class::Open,
        b')' => Class::Close,
        33..=126 => Class::Visible,
        _ => Class::Refused,
    }
}

// The small letter of a capital letter; any other byte is itself.
#[tactic(auto, using(crate::proofs::Letters::small_laws))]
pub fn small_of(b: u8) -> u8
    ensures { result ≡ small b }
{
    if b < b'A' || b > b'Z' { b } else { b + 32 }
}

// Whether b is a letter.
#[tactic(auto, using(crate::proofs::Letters::letter_laws))]
pub(crate) fn is_letter(b: u8) -> bool
    ensures { result ≡ is_letter b }
{
    let c = small_of(b);
    b'a' <= c && c <= b'z'
}

// Whether b is a letter or a decimal digit.
#[tactic(auto, using(crate::proofs::Letters::alnum_laws))]
pub(crate) fn is_alnum(b: u8) -> bool
    ensures { result ≡ is_alnum b }
{
    is_letter(b) || b'0' <= b && b <= b'9'
}

// The value of b as a hexadecimal digit, 16 if it is none.
// Kept: 16 is no digit of any base, so the one test against the base serves; an Option would need two, and is no plainer.
#[tactic(auto, using(crate::proofs::Letters::digit_laws))]
pub fn digit_of(b: u8) -> u64
    ensures { result ≡ digit_of b }
{
    if b < b'0' {
        return 16;
    }
    if b <= b'9' {
        return (b - b'0') as u64;
    }
    let c = small_of(b);
    if c < b'a' || c > b'f' {
        return 16;
    }
    (c - 87) as u64
}
