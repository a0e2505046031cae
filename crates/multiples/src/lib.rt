// The greatest common divisor and the least common multiple.
#![tactic(auto)]

ghost use Rattle.std.specs.Bool.{then_some};
ghost use Rattle.std.specs.Prelude.{◌≡◌, leb};
ghost use Rattle.multiples.specs.Gcd.{gcd, lcm};

// By Euclid: the second argument, a remainder, falls at each call.
pub fn gcd(a: u32, b: u32) -> u32
    ensures { result ≡ gcd a b }
{
    if b == 0 {
        return a;
    }
    gcd(b, a % b)
}

// The least common multiple, where it is at most `most`.
pub fn lcm_within(a: u32, b: u32, most: u32) -> Option<u32>
    ensures { result ≡ then_some (leb (lcm a b) most) (lcm a b) }
{
    if a == 0 {
        return Some(0);
    }
    let multiple = (a / gcd(a, b)).checked_mul(b)?;
    (multiple <= most).then_some(multiple)
}
