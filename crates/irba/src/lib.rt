// SEC-IRBA (02, S-5): the figures that a pool with an IRB charge adds to a sheet, whether the approach applies to a
// deal, and its supervisory parameter. Functions of numbers alone, open to all inputs.
#![tactic(auto)]

ghost use Rattle.std.specs.Prelude.{true, ◌≡◌, ◌*◌, ◌≤◌, ◌<◌, pos, ◌+ℤ◌, ◌*ℤ◌};
ghost use Rattle.std.specs.Int.Signed.{mag};
ghost use Rattle.irba.specs.IrbaDeals.{covers_pool, irba_applies};
ghost use Rattle.irba.specs.Parameter.{wholesale_senior, wholesale_non_senior, retail_pool, coefficients, signed_sum, denominator, signed_rounded_up, raised_to, within_limits, parameter};
ghost use Rattle.irba.specs.SmallCoefficients.{SmallTerm, SmallCoefficients};

use numbers::{rounded_up, within};

// The six words of a sheet's fourth section: the IRB charge and the average loss given default in millionths, the
// effective number of loans, whether the pool is retail, the share of exposure with an IRB charge in millionths, and
// the average risk weight by IRB, SA loans at SA weights, in hundredths of a percent.
#[derive(Clone, Copy, Debug, PartialEq, Eq)]
pub struct IrbFigures {
    pub charge: u64,
    pub loss: u64,
    pub loans: u64,
    pub retail: bool,
    pub share: u64,
    pub average: u64,
}

impl IrbFigures {
    // The figures of a sheet without the section.
    pub const NONE: IrbFigures = IrbFigures {
        charge: 0,
        loss: 0,
        loans: 0,
        retail: false,
        share: 0,
        average: 0,
    };
}

// The coefficients of the parameter's sum, in hundredths: a constant, per 1/number of loans, per charge, per loss given
// default, per year of tranche maturity.
#[derive(Clone, Copy)]
struct Coefficients {
    constant: i64,
    number: i64,
    charge: i64,
    loss: i64,
    year: i64,
}

// 1 in the units of shares, charges and losses, millionths.
const MILLION: u64 = 1000000;

// SEC-IRBA covers a mixed pool from this share on.
const LEAST_SHARE: u64 = 950000;

// A pool of fewer loans has coefficients of its own.
const MANY_LOANS: u64 = 25;

// The least parameter.
const LEAST: i64 = 300000;

// The highest parameter that the formula takes.
const HIGHEST: u64 = 4999999;

// Whether SEC-IRBA covers the pool: kind 1, or kind 2 with a share that is large enough.
fn covers_pool(kind: u64, share: u64) -> bool
    ensures { result ≡ covers_pool kind share }
{
    kind == 1 || kind == 2 && LEAST_SHARE <= share
}

// Whether SEC-IRBA applies to a deal: due diligence is held, it is no re-securitisation, and SEC-IRBA covers its pool.
// The kind stays a number: the promise is of any word.
pub fn applies(diligence: bool, resecuritised: bool, kind: u64, share: u64) -> bool
    ensures { result ≡ irba_applies diligence resecuritised kind share }
{
    diligence && !resecuritised && covers_pool(kind, share)
}

impl Coefficients {
    // The coefficients for the senior class of a wholesale pool, by whether its loans are few. Each row of CRE44 stands
    // for itself: what the next function has in common with this one is the form alone.
    fn wholesale_senior(few: bool) -> Self
        ensures { result ≡ wholesale_senior few }
    {
        if few {
            Coefficients {
                constant: 11,
                number: 261,
                charge: -291,
                loss: 68,
                year: 7,
            }
        } else {
            Coefficients {
                constant: 0,
                number: 356,
                charge: -185,
                loss: 55,
                year: 7,
            }
        }
    }

    // The coefficients for the other classes of a wholesale pool, by whether its loans are few.
    fn wholesale_non_senior(few: bool) -> Self
        ensures { result ≡ wholesale_non_senior few }
    {
        if few {
            Coefficients {
                constant: 22,
                number: 235,
                charge: -246,
                loss: 48,
                year: 7,
            }
        } else {
            Coefficients {
                constant: 16,
                number: 287,
                charge: -103,
                loss: 21,
                year: 7,
            }
        }
    }

    // The coefficients of a retail pool, for the senior class and for the others; the number of its loans does not
    // enter.
    fn retail_pool(senior: bool) -> Self
        ensures { result ≡ retail_pool senior }
    {
        if senior {
            Coefficients {
                constant: 0,
                number: 0,
                charge: -748,
                loss: 71,
                year: 24,
            }
        } else {
            Coefficients {
                constant: 0,
                number: 0,
                charge: -578,
                loss: 55,
                year: 27,
            }
        }
    }

    // The coefficients of a pool, by class, number of loans and whether it is retail.
    fn of_pool(senior: bool, few: bool, retail: bool) -> Self
        ensures { result ≡ coefficients senior few retail }
    {
        if retail {
            Self::retail_pool(senior)
        } else if senior {
            Self::wholesale_senior(few)
        } else {
            Self::wholesale_non_senior(few)
        }
    }

    // The parameter's sum, signed, over the common denominator. The second coefficient is per 1/number, so that its
    // term has no factor for the loans.
    fn signed_sum(self, charge: u64, fifths: u64, f: IrbFigures) -> i64
        requires { SmallCoefficients self × (within_limits charge fifths f ≡ true) }
        ensures { result ≡ signed_sum self charge fifths f }
    {
        total(
            term(self.constant, 3000000, 1, f.loans),
            term(self.number, 3000000, 1, 1),
            term(self.charge, 3, charge, f.loans),
            term(self.loss, 3, f.loss, f.loans),
            term(self.year, 50000, fifths, f.loans),
        )
    }
}

// A term of the sum: a coefficient times a figure, which is counted in units of the sum, times the number of loans.
fn term(coefficient: i64, unit: u64, figure: u64, loans: u64) -> i64
    requires { (mag coefficient < 1000) × (unit * figure ≤ 15000000) × (loans ≤ 1000000) }
    ensures value { result ≡ coefficient *ℤ pos (unit * figure * loans) }
    ensures small_term { SmallTerm result }
{
    coefficient * (unit * figure * loans) as i64
}

// The sum of five terms.
fn total(v: i64, w: i64, x: i64, y: i64, z: i64) -> i64
    requires { SmallTerm v × SmallTerm w × SmallTerm x × SmallTerm y × SmallTerm z }
    ensures { result ≡ v +ℤ w +ℤ x +ℤ y +ℤ z }
{
    v + w + x + y + z
}

// What the sum is over: for an STC deal twice as much, which halves it.
fn denominator(stc: bool, loans: u64) -> u64
    requires { loans ≤ 1000000 }
    ensures { result ≡ denominator stc loans }
{
    if stc { 600 * loans } else { 300 * loans }
}

// A signed number over a positive one, rounded up. Division cuts off the fraction: below 0 that is upward.
fn signed_rounded_up(sum: i64, d: u64) -> i64
    requires { (0 < d) × (d ≤ 600000000) }
    ensures { result ≡ signed_rounded_up sum d }
{
    if sum < 0 {
        sum / d as i64
    } else {
        rounded_up(sum as u64, d) as i64
    }
}

// A signed number raised to the least parameter.
fn raised(p: i64) -> u64
    ensures { result ≡ raised_to 300000 p }
{
    p.max(LEAST) as u64
}

// Whether the figures are within the limits under which nothing overflows. Charge and maturity are the deal's and the
// tranche's, the figures the section's: they stay apart, as in the promise of `parameter`.
fn within_limits(charge: u64, fifths: u64, f: IrbFigures) -> bool
    ensures { result ≡ within_limits charge fifths f }
{
    charge <= MILLION && fifths <= 300 && f.loss <= MILLION && within(1, MILLION, f.loans)
}

// The supervisory parameter of SEC-IRBA in millionths, from the class, the pool's charge, the tranche's maturity in
// fifths of a month and the pool's figures; the highest where these are outside their limits, which those of no sheet
// with an IRB section are, so that no caller gets one that is too low.
pub fn parameter(senior: bool, stc: bool, charge: u64, fifths: u64, f: IrbFigures) -> u64
    ensures { result ≡ parameter senior stc charge fifths f }
{
    if !within_limits(charge, fifths, f) {
        return HIGHEST;
    }
    let c = Coefficients::of_pool(senior, f.loans < MANY_LOANS, f.retail);
    let sum = c.signed_sum(charge, fifths, f);
    raised(signed_rounded_up(sum, denominator(stc, f.loans)))
}
