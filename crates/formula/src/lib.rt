#![tactic(auto)]

ghost use Rattle.std.specs.Prelude.{◌≡◌, ◌+◌, ◌-◌, ◌/◌, ◌^◌, ◌≤◌, ◌<◌};
ghost use Rattle.series.specs.DecayTable.{DecayEntry};
ghost use Rattle.formula.specs.Formula.{numbers_of, IsRawWeight};
ghost use Rattle.series.specs.TableEntry.{entry};
ghost use Rattle.formula.specs.FixedPoint.{coarse_decay, fine_decay, from_above, decay, mean_decay, product, units, formula_weight, within_limits, raw_weight};
ghost use Rattle.formula.specs.StepEnds.{DecayEnds, MeanDecayEnds, ProductEnds};

mod tables;

use numbers::{Ends, rounded_up};
use tables::{DECAY, FINE_LOSS, SIXTEENTH_LOSS, WHOLE_LOSS};

// 1 in the units of exponents and decays, 2^−32.
const ONE: u64 = 4294967296;

// 1 in the units of mean decays and of their products, 2^−27.
const MEAN_ONE: u64 = 134217728;

// 1/16, the step of the coarse decays, in units of 2^−32.
const STEP: u64 = 268435456;

// 1/1024, the step of the fine entries, in units of 2^−32.
const FINE_STEP: u64 = 4194304;

// How far the ends of a decay, of a mean decay and of their product may lie apart.
const DECAY_DISTANCE: u64 = 12;

const MEAN_DECAY_DISTANCE: u64 = 241;

const PRODUCT_DISTANCE: u64 = 243;

// 1/512 in units of 2^−32: an exponent below it is small.
const SMALL: u64 = 8388608;

// 1 in the units of the points, the charge and the parameter, millionths.
const MILLION: u64 = 1000000;

// The decay table's entry; 0 from 355 on.
pub fn decay_entry(n: u64) -> u64
    ensures value { result ≡ entry n 16 }
    ensures decay_entry { DecayEntry n result }
{
    if n < 355 { DECAY[n as usize] } else { 0 }
}

// The entry of the whole exponent n: the whole part of 2^32 × e^(−n), which is 0 from 23 on.
fn whole_entry(n: u64) -> u64
    ensures { result ≡ entry n 1 }
{
    if n < 23 {
        ONE - u64::from(WHOLE_LOSS[n as usize])
    } else {
        0
    }
}

// 2^32 less the entry of n sixteenths, for exponents between two whole ones.
fn sixteenth_loss(n: u64) -> u64
    requires { n < 16 }
    ensures { result + entry n 16 ≡ 2 ^ 32 }
{
    u64::from(SIXTEENTH_LOSS[n as usize])
}

// The entry of m 1024ths, for exponents between two sixteenths.
fn fine_entry(m: u64) -> u64
    requires { m < 64 }
    ensures { result ≡ entry m 1024 }
{
    ONE - u64::from(FINE_LOSS[m as usize])
}

// e^(−n/16) from below: the entry of the whole exponent times that of the sixteenths. Both may be 2^32, and 2^64 does
// not fit 64 bits, so what the sixteenths take off the whole exponent's entry is subtracted, rounded up.
fn coarse_decay(n: u64) -> u64
    ensures { result ≡ coarse_decay n }
{
    let t = whole_entry(n / 16);
    t - (t * sixteenth_loss(n % 16)).div_ceil(ONE)
}

// e^−(m/1024 + r) from below, with r = j/2^32: the fine entry times 1 − r + r²/2, less 4 so that rounding never takes
// it above.
fn fine_decay(m: u64, j: u64) -> u64
    requires { (m < 64) × (j < 2 ^ 22) }
    ensures { result ≡ fine_decay m j }
{
    let t = fine_entry(m);
    t - t * (j - j * j / (2 * ONE)) / ONE - 4
}

// e^(−x) from both sides: x is cut into sixteenths, 1024ths and a rest, and the coarse decay of the first is multiplied
// by the fine decay of the others, which gives the low end; the high end is that with what it may be short of added
// back, and at most 1.
fn decay(x: u64) -> Ends
    ensures value { result ≡ decay x }
    ensures decay_ends { DecayEnds x result }
{
    let rest = x % STEP;
    let fine = fine_decay(rest / FINE_STEP, rest % FINE_STEP);
    let low = coarse_decay(x / STEP) * fine / ONE;
    Ends {
        low,
        high: (low + DECAY_DISTANCE).min(ONE),
    }
}

// A number from above with the one that lies a distance below it, or 0.
fn from_above(high: u64, distance: u64) -> Ends
    ensures { result ≡ from_above high distance }
{
    Ends {
        low: high.saturating_sub(distance),
        high,
    }
}

// The mean decay (1 − e^(−x)) / x from both sides, at most 1, in units of 2^−27. For a small x, where the quotient is
// too coarse (or x is 0), its high end is 1 − x/2 and 171 units more.
fn mean_decay(x: u64) -> Ends
    ensures value { result ≡ mean_decay x }
    ensures mean_decay_ends { MeanDecayEnds x result }
{
    let high = if x < SMALL {
        MEAN_ONE + 171 - x / 64
    } else {
        (ONE + 1 - decay(x).low) * MEAN_ONE / x + 1
    };
    from_above(MEAN_ONE.min(high), MEAN_DECAY_DISTANCE)
}

// a / b in units of 2^−32, rounded down. a × 2^32 may not fit 64 bits, so the division is done in two steps of 16 bits
// each.
fn units(a: u64, b: u64) -> u64
    requires { (a ≤ 1000000000000) × (300000 ≤ b) × (b ≤ 5000000000000) }
    ensures { result ≡ units a b }
{
    let high = a * 65536;
    let rest = high % b;
    high / b * 65536 + rest * 65536 / b
}

// e^(−l) times the mean decay of x, from both sides, in units of 2^−27.
fn product(l: u64, x: u64) -> Ends
    ensures value { result ≡ product l x }
    ensures product_ends { ProductEnds l x result }
{
    let first = decay(l);
    let second = mean_decay(x);
    from_above((first.high * second.high).div_ceil(ONE), PRODUCT_DISTANCE)
}

// (x − less) / y, rounded down, from the quotient of x, so that one division serves both ends of a weight.
fn quotient_less(x: u64, y: u64, less: u64) -> u64
    requires { (0 < y) × (less ≤ x) × (less ≤ y) }
    ensures { result ≡ (x - less) / y }
{
    let quotient = x / y;
    if x - quotient * y < less {
        quotient - 1
    } else {
        quotient
    }
}

// The formula's weight, 125,000 × (max(k − a, 0) + v × product) / (d − a), where v is the tranche's part above both a
// and k, and the product is in units of 2^−27: with its low end rounded down, with its high end rounded up.
fn formula_weight(a: u64, d: u64, k: u64, p: u64) -> Ends
    requires { (a < d) × (k < d) × (1 ≤ k) × (d ≤ 1000000) × (300000 ≤ p) × (p < 5000000) }
    ensures { result ≡ formula_weight a d k p }
{
    let v = d - a.max(k);
    let s = p * k;
    let l = units(a.saturating_sub(k) * MILLION, s);
    let x = units(v * MILLION, s);
    let ends = product(l, x);
    let top = 125000 * (k.saturating_sub(a) * MEAN_ONE + v * ends.high);
    let bottom = (d - a) * MEAN_ONE;
    let less = 125000 * (v * (ends.high - ends.low));
    Ends {
        low: quotient_less(top, bottom, less),
        high: rounded_up(top, bottom),
    }
}

// Whether the points and the charge are at most 1, and the parameter is from 0.3 to below 5. They stay four numbers, as
// in the formula and in the promise of `raw_weight`.
fn within_limits(a: u64, d: u64, k: u64, p: u64) -> bool
    ensures { result ≡ within_limits a d k p }
{
    a <= MILLION && d <= MILLION && k <= MILLION && (300000..5000000).contains(&p)
}

// Why there is no raw weight: the formula needs a below d (refusal 13 at a = d), and no deal sheet has inputs outside
// the limits.
#[derive(Clone, Copy, Debug, PartialEq, Eq)]
pub enum NoRawWeight {
    NoThickness,
    OutsideLimits,
}

// The raw weight of a tranche from a to d, for the pool charge k and the supervisory parameter p, these four in
// millionths: its high number, which is never below the exact value, and its low number, which is never above it. Where
// k is at least 1, d above k and a below d, 01 leaves the first open within demand 3, and 02 the second within S-6;
// raw_weight settles both. `numbers_of` gives 01's numbers for each case.
pub fn raw_weight(a: u64, d: u64, k: u64, p: u64) -> Result<Ends, NoRawWeight>
    ensures result_value { numbers_of result ≡ raw_weight a d k p }
    ensures raw_weight { IsRawWeight a d k p (numbers_of result) }
{
    if !within_limits(a, d, k, p) {
        return Err(NoRawWeight::OutsideLimits);
    }
    if d <= k {
        return Ok(Ends {
            low: 125000,
            high: 125000,
        });
    }
    if k == 0 {
        return Ok(Ends { low: 0, high: 0 });
    }
    if d <= a {
        return Err(NoRawWeight::NoThickness);
    }
    Ok(formula_weight(a, d, k, p))
}
