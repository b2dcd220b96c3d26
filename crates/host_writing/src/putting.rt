// Bytes and numbers written into a list from a place on, as far as the list reaches; each answers the place after.
ghost use Rattle.std.specs.Prelude.{◌≡◌, [], ◌∷◌, map, ◌+◌, ◌%◌};
ghost use Rattle.leaf_bytes.specs.Bytes.{small};
ghost use Rattle.law.specs.Print.{decimal_of, signed_of};
ghost use Rattle.law.specs.Print.{decimal as decimal_by};
ghost use Rattle.host_writing.specs.Written.{natural_of, turn_of};
ghost use Rattle.law_answers.specs.Written.{Puts};

use leaf_bytes::bytes::small_of;

// A byte.
pub fn put(out: &mut [u8], at: usize, b: u8) -> usize
    ensures { Puts (b ∷ []) out.old at result out.new }
{
    if at < out.len() {
        out[at] = b;
        return at + 1;
    }
    at
}

// Bytes.
pub fn put_all(out: &mut [u8], at: usize, bytes: &[u8]) -> usize
    ensures { Puts bytes.now out.old at result out.new }
{
    let mut p = at;
    for b in bytes {
        p = put(out, p, *b);
    }
    p
}

// Bytes, capital letters as small ones.
pub fn put_small(out: &mut [u8], at: usize, bytes: &[u8]) -> usize
    ensures { Puts (map small bytes.now) out.old at result out.new }
{
    let mut p = at;
    for b in bytes {
        p = put(out, p, small_of(*b));
    }
    p
}

// The last digit of a number.
// Kept: the list is lent and there is no heap: a number is put there digit by digit, as the contract `Puts` says.
fn digit(n: u64) -> u8
    ensures { result ≡ 48 + n % 10 }
{
    48 + (n % 10) as u8
}

// The last digits of a number, at most so many.
fn digits(out: &mut [u8], at: usize, n: u64, most: u32) -> usize
    ensures { Puts (decimal_by most n []) out.old at result out.new }
{
    if most == 0 {
        return at;
    }
    if n < 10 {
        return put(out, at, digit(n));
    }
    let p = digits(out, at, n / 10, most - 1);
    put(out, p, digit(n))
}

// A number in decimal digits.
pub fn decimal(out: &mut [u8], at: usize, n: u64) -> usize
    ensures { Puts (decimal_of n) out.old at result out.new }
{
    digits(out, at, n, 20)
}

// The natural number that z is, 0 of a negative one.
// Kept: the definition `natural_of` of its contract says 0 of a negative number.
fn natural(z: i64) -> u64
    ensures { result ≡ natural_of z }
{
    if z < 0 {
        return 0;
    }
    z as u64
}

// The number as far below -1 as z is above 0.
fn turned(z: i64) -> i64
    ensures { result ≡ turn_of z }
{
    -1 - z
}

// How far a negative number is below 0.
fn below(z: i64) -> u64
    ensures { result ≡ natural_of (turn_of z) + 1 }
{
    natural(turned(z)) + 1
}

// An integer in decimal digits.
pub fn signed(out: &mut [u8], at: usize, z: i64) -> usize
    ensures { Puts (signed_of z) out.old at result out.new }
{
    if z < 0 {
        let p = put(out, at, 45);
        return decimal(out, p, below(z));
    }
    decimal(out, at, natural(z))
}
