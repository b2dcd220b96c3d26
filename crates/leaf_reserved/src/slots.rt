// Where a word may stand in the table: its slot, a number of its length and of three of its letters, and the one word that has it.
// A new word: its row in TABLE and its arms in `row_of` and `guess_at`; `tools/word-slots` prints these, or other factors for
// `slot_of` where two words would share a slot. The check refuses a slot that is wrong or that two words share.
ghost use Rattle.std.specs.Prelude.{◌≡◌, ◌<◌, ◌≤◌, length};
ghost use Rattle.leaf_reserved.specs.Slots.{slot_of, guess};

// A byte as a number of the machine's width; how large it can be is said for the sum of `slot_of`.
fn wide(b: u8) -> usize
    ensures { (result ≡ b) × (result < 256) }
{
    b as usize
}

// The slot of w: the factors of the letters times 32 are 0 modulo 256, so case makes no difference. `place_of` passes no other lengths.
// Kept: the digits in it are factors of the slot and no text.
pub(crate) fn slot_of(w: &[u8]) -> usize
    requires { (0 < length w.now) × (length w.now ≤ 12) }
    ensures { result ≡ slot_of w.now }
{
    let n = w.len();
    (24 * wide(w[0]) + 32 * wide(w[n / 2]) + 48 * wide(w[n - 1]) + 5 * n) % 256
}

// The place in the table of the word whose slot is h, or 57.
// Kept: an Option is no plainer, 57 times `Some`; `tools/word-slots` prints these arms.
pub(crate) fn guess_at(h: usize) -> usize
    ensures { result ≡ guess h }
{
    match h {
        228 => 0, // type
        159 => 1, // var
        4 => 2, // proc
        12 => 3, // main
        69 => 4, // exception
        156 => 5, // enum
        121 => 6, // range
        33 => 7, // array
        110 => 8, // record
        129 => 9, // setof
        201 => 10, // begin
        194 => 11, // if
        81 => 12, // while
        223 => 13, // for
        172 => 14, // case
        215 => 15, // arm
        220 => 16, // else
        28 => 17, // call
        217 => 18, // raise
        98 => 19, // at
        15 => 20, // dot
        43 => 21, // members
        255 => 22, // not
        247 => 23, // abs
        87 => 24, // sqr
        183 => 25, // odd
        119 => 26, // ord
        244 => 27, // pred
        204 => 28, // succ
        92 => 29, // card
        38 => 30, // setmin
        6 => 31, // setmax
        169 => 32, // first
        84 => 33, // last
        175 => 34, // div
        231 => 35, // mod
        66 => 36, // in
        167 => 37, // and
        18 => 38, // or
        96 => 39, // and_then
        27 => 40, // or_else
        251 => 41, // integer
        115 => 42, // boolean
        132 => 43, // true
        25 => 44, // false
        212 => 45, // error_number
        138 => 46, // :=
        125 => 47, // +
        77 => 48, // -
        21 => 49, // *
        26 => 50, // **
        205 => 51, // =
        10 => 52, // <>
        101 => 53, // <
        186 => 54, // <=
        53 => 55, // >
        234 => 56, // >=
        _ => 57,
    }
}
