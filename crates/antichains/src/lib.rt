// How many sets there can be of which none lies within another. Sperner's theorem (specs/) says: at
// most as many as there are ways to choose half of the things.

#![tactic(auto)]

ghost use Rattle.std.specs.Prelude.{◌≡◌, ◌/◌, ◌≤◌};
ghost use Rattle.antichains.specs.Antichains.{choose};

// The most sets of an antichain over 14 things (document 02, point 10).
pub const MOST_SETS: usize = 3432;

// The numbers of ways to choose n / 2, rounded down, of n things, for n up to 14.
const WAYS: [u64; 15] = [
    1,
    1,
    2,
    3,
    6,
    10,
    20,
    35,
    70,
    126,
    252,
    462,
    924,
    1716,
    MOST_SETS as u64,
];

// The number of ways to choose n / 2, rounded down, of n things.
pub fn choose_half(n: usize) -> u64
    requires { n ≤ 14 }
    ensures { result ≡ choose n (n / 2) }
{
    WAYS[n]
}
