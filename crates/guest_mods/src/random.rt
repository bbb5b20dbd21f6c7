ghost use Rattle.std.specs.Prelude.{◌≡◌, ◌+◌, ◌<◌, ◌≤◌};
ghost use Rattle.guest_mods.specs.Random.{random, random_after, drawn_by};

/// The factor by which a random number is multiplied to make the next one.
const MULTIPLIER: u64 = 1_103_515_245;

/// The number that is then added.
const INCREMENT: u64 = 12_345;

/// The random numbers are below this one.
const MODULUS: u64 = 2_147_483_648;

/// The random number after this one.
pub fn next_random(x: u32) -> u32
    requires { x < 2147483648 }
    ensures after { result ≡ random_after x }
    ensures below { result < 2147483648 }
{
    ((MULTIPLIER * u64::from(x) + INCREMENT) % MODULUS) as u32
}

/// The random number of a seed at a place; the seed itself is at place 0.
pub fn random_at(seed: u32, place: u32) -> u32
    requires { seed < 2147483648 }
    ensures random { result ≡ random seed place }
    ensures below { result < 2147483648 }
{
    let mut x = seed;
    for _i in 0..place {
        x = next_random(x);
    }
    x
}

/// The number from 1 to `most` that a random number draws.
pub fn draw(most: u32, x: u32) -> u32
    requires some { 0 < most }
    requires few { most ≤ 65536 }
    ensures drawn { result ≡ drawn_by most x }
    ensures most { result ≤ most }
{
    1 + x / 65_536 % most
}
