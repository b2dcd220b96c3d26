// Exact integers of document 01, "Arithmetic": each function gives the exact result for every two i64, or says why there is none.

#![tactic(auto)]

ghost use Rattle.std.specs.Prelude.{◌≡◌, ℤ, pos, neg_ℤ, nat_abs, ◌+ℤ◌, ◌-ℤ◌, ◌*ℤ◌, Ok, Err};
ghost use Rattle.leaf_integers.specs.Integers.{pick, is_zero, inside, exact, quotient, modulus, is_odd, next, previous};
ghost use Rattle.leaf_integers.specs.declared.Fault.TheVariants.{Overflow};

// Why an operation on integers gives no value. Which exception this becomes is for `law` to say.
#[derive(Clone, Copy, PartialEq, Eq)]
pub enum Fault {
    Overflow, // the exact result is not an integer of the range
    Divisor, // `div` by 0, `mod` by 0 or less
    Exponent, // a negative exponent, or 0 to the power 0
    Bound, // `pred` or `succ` past the host type
}

// Whether z lies in lo to hi: the range test of every ordinal type.
#[tactic(auto, using(crate::proofs::RangeTests::range_laws))]
pub fn in_range(z: i64, lo: i64, hi: i64) -> bool
    ensures { result ≡ inside lo hi z }
{
    lo <= z && z <= hi
}

// z where it is an integer, that is in -2147483648 to 2147483647.
#[tactic(auto, using(crate::proofs::RangeTests::fit_laws))]
pub fn fit(z: i64) -> Result<i64, Fault>
    ensures { result ≡ exact z }
{
    if in_range(z, -2147483648, 2147483647) {
        Ok(z)
    } else {
        Err(Fault::Overflow)
    }
}

// x + y. A sum past i64 is past the integers too.
#[tactic(auto, using(crate::proofs::Sums::past_out))]
pub fn add(x: i64, y: i64) -> Result<i64, Fault>
    ensures { result ≡ exact (x +ℤ y) }
{
    let Some(z) = x.checked_add(y) else {
        return Err(Fault::Overflow);
    };
    fit(z)
}

// x - y.
// Kept: two statements around the operation that the contract names; a shared function of the Option is no plainer.
#[tactic(auto, using(crate::proofs::Sums::past_out))]
pub fn sub(x: i64, y: i64) -> Result<i64, Fault>
    ensures { result ≡ exact (x -ℤ y) }
{
    let Some(z) = x.checked_sub(y) else {
        return Err(Fault::Overflow);
    };
    fit(z)
}

// The product of k and a factor above 2147483648 in size: 0, or past the integers.
#[tactic(auto, using(crate::proofs::Products::large_laws))]
fn times_large(k: i64) -> Result<i64, Fault>
    ensures { result ≡ pick (is_zero k) (Ok (pos 0)) (Err Overflow) }
{
    if k == 0 { Ok(0) } else { Err(Fault::Overflow) }
}

// x * y. Factors up to 2147483648 in size have a product that an i64 holds.
// Kept: no `checked_mul`, which multiplies in 128 bits; `tools/cross` takes no module with these, since not every machine has them.
#[tactic(auto, using(crate::proofs::Products::mul_laws))]
pub fn mul(x: i64, y: i64) -> Result<i64, Fault>
    ensures { result ≡ exact (x *ℤ y) }
{
    if in_range(x, -2147483648, 2147483648) {
        if in_range(y, -2147483648, 2147483648) {
            return fit(x * y);
        }
        return times_large(x);
    }
    times_large(y)
}

// One-sided `-`.
#[tactic(auto, using(crate::proofs::Sums::opposite_is))]
pub fn neg(x: i64) -> Result<i64, Fault>
    ensures { result ≡ exact (neg_ℤ x) }
{
    sub(0, x)
}

// The size of x.
#[tactic(auto, using(crate::proofs::Products::abs_laws))]
pub fn abs(x: i64) -> Result<i64, Fault>
    ensures { result ≡ exact (pos (nat_abs x)) }
{
    if x < 0 { neg(x) } else { fit(x) }
}

// The square of x.
#[tactic(auto, using(crate::proofs::Products::square_is))]
pub fn sqr(x: i64) -> Result<i64, Fault>
    ensures { result ≡ exact (x *ℤ x) }
{
    mul(x, x)
}

// `div`: truncated towards zero.
#[tactic(auto, using(crate::proofs::Division::div_laws, crate::proofs::Division::div_fits))]
pub fn div(x: i64, y: i64) -> Result<i64, Fault>
    ensures { result ≡ quotient x y }
{
    if y == 0 {
        return Err(Fault::Divisor);
    }
    if y == -1 {
        return neg(x);
    }
    fit(x / y)
}

// `mod`: in 0 to y - 1, whatever the sign of x.
// Kept: no `rem_euclid`, which divides unsigned numbers: on machines of 32 bits the archive would need one more function from outside.
#[tactic(auto, using(crate::proofs::Division::mod_laws, crate::proofs::Division::mod_safe))]
pub fn modulo(x: i64, y: i64) -> Result<i64, Fault>
    ensures { result ≡ modulus x y }
{
    if y <= 0 {
        return Err(Fault::Divisor);
    }
    let r = x % y;
    if r < 0 {
        return Ok(r + y);
    }
    Ok(r)
}

// Whether x is odd.
#[tactic(auto, using(crate::proofs::Division::odd_laws))]
pub fn odd(x: i64) -> bool
    ensures { result ≡ is_odd x }
{
    x % 2 != 0
}

// `succ` in a host type of the ordinals lo to hi.
#[tactic(auto, using(crate::proofs::RangeTests::succ_laws))]
pub fn succ(x: i64, lo: i64, hi: i64) -> Result<i64, Fault>
    ensures { result ≡ next lo hi x }
{
    if x >= hi || x + 1 < lo {
        return Err(Fault::Bound);
    }
    Ok(x + 1)
}

// `pred` in a host type of the ordinals lo to hi.
#[tactic(auto, using(crate::proofs::RangeTests::pred_laws))]
pub fn pred(x: i64, lo: i64, hi: i64) -> Result<i64, Fault>
    ensures { result ≡ previous lo hi x }
{
    if x <= lo || x - 1 > hi {
        return Err(Fault::Bound);
    }
    Ok(x - 1)
}
