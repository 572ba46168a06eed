#![tactic(auto)]

ghost use Rattle.std.specs.Prelude.{◌≡◌, min, max};
ghost use Rattle.numbers.specs.Limits.{within};
ghost use Rattle.numbers.specs.BothEnds.{rounded};
ghost use Rattle.numbers.specs.Rounding.{rounded_up};

// The middle of three numbers: the first, raised to the smaller of the others and lowered to the larger of them.
pub fn middle(a: u64, b: u64, c: u64) -> u64
    ensures { result ≡ min (max a (min b c)) (max b c) }
{
    a.max(b.min(c)).min(b.max(c))
}

// x / y, rounded up; 0 where y is 0. Nothing is added to x, so it may be any number.
pub fn rounded_up(x: u64, y: u64) -> u64
    ensures { result ≡ rounded_up x y }
{
    if y == 0 { 0 } else { x.div_ceil(y) }
}

// Two whole numbers between which an exact figure lies: the low end is never above it, the high end never below.
#[derive(Clone, Copy, Debug, PartialEq, Eq)]
pub struct Ends {
    pub low: u64,
    pub high: u64,
}

// x / y, rounded down and rounded up; both 0 where y is 0.
pub fn rounded(x: u64, y: u64) -> Ends
    ensures { result ≡ rounded x y }
{
    if y == 0 {
        Ends { low: 0, high: 0 }
    } else {
        Ends {
            low: x / y,
            high: rounded_up(x, y),
        }
    }
}

// Whether a number is within limits, these included.
pub fn within(least: u64, most: u64, n: u64) -> bool
    ensures { result ≡ within least most n }
{
    least <= n && n <= most
}
