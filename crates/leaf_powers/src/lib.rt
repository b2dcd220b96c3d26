// Exact powers of document 01, "Arithmetic", worked by halving the exponent.

#![tactic(auto)]

ghost use Rattle.std.specs.Prelude.{◌≡◌};
ghost use Rattle.leaf_integers.specs.Integers.{exact};
ghost use Rattle.leaf_powers.specs.Powers.{pow_z, power};

use leaf_integers::{Fault, mul};

// x to the power n, by half the exponent: the square of that power, and once more x where n is odd.
// A half or a square that is past the integers means that the whole power is.
#[tactic(auto, using(crate::proofs::Powers::halved_laws))]
pub fn halved(x: i64, n: u64) -> Result<i64, Fault>
    ensures { result ≡ exact (pow_z x n) }
{
    if n == 0 {
        return Ok(1);
    }
    let half = halved(x, n / 2)?;
    let square = mul(half, half)?;
    if n % 2 == 0 {
        Ok(square)
    } else {
        mul(square, x)
    }
}

// `**`.
#[tactic(auto, using(crate::proofs::Powers::raise_laws))]
pub fn raise(x: i64, n: i64) -> Result<i64, Fault>
    ensures { result ≡ power x n }
{
    if n < 0 || n == 0 && x == 0 {
        return Err(Fault::Exponent);
    }
    halved(x, n as u64)
}
