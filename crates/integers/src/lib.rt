// The integers: definitions (specs/) and laws (proofs/) that other crates cite, the absolute value of any
// i64, and the test of a limit.
#![tactic(auto)]

ghost use Rattle.std.specs.Prelude.{◌≡◌, nat_abs};
ghost use Rattle.integers.specs.Test.{within, all};

// The largest number of 64 bits with a sign.
const LARGEST: u64 = 9223372036854775807;

// The absolute value, in the words of specs/, by which callers have it; that of the least number is one more than the largest number of 64 bits with a sign.
pub fn magnitude(v: i64) -> u64
    ensures { result ≡ nat_abs v }
{
    v.unsigned_abs()
}

// Whether a number is at most `limit` in absolute value. Two comparisons, and no absolute value: it is asked
// of every number of a net.
pub fn is_within(v: i64, limit: u64) -> bool
    ensures { result ≡ within limit v }
{
    if LARGEST < limit {
        return true;
    }
    let top = limit as i64;
    if v < -top {
        return false;
    }
    v <= top
}

// Whether every number is.
pub fn all_within(xs: &[i64], limit: u64) -> bool
    ensures { result ≡ all (within limit) xs.now }
{
    xs.iter().all(|&x| is_within(x, limit))
}
