// Approach and weight of one tranche, from what it is weighed by and what the deal's tranches share.
#![tactic(auto)]

ghost use Rattle.std.specs.Prelude.{true, ◌≡◌};
ghost use Rattle.numbers.specs.BothEnds.{at_both};
ghost use Rattle.weights.specs.Approaches.{number_of};
ghost use Rattle.weights.specs.ApproachFloorCap.{approach, by_formula, parameter, floor, cap_applies, after_floor_and_cap, formula_raw_weight, table_weight, weight, WeightByFormula, thin};

mod approaches;

pub use approaches::Approach;
use irba::IrbFigures;
use numbers::Ends;
use rating_codes::Ratings;

// What the tranches of a deal share: whether due diligence is held, whether it is a re-securitisation, whether it is
// simple, transparent and comparable (STC), whether the pool's composition is known, whether SEC-IRBA applies, whether the
// status of the pool's rows is known but for up to 5% of exposure, its charge in millionths, its average risk weight, and
// the figures of its IRB section.
#[derive(Clone, Copy, Debug, PartialEq, Eq)]
pub struct Terms {
    pub diligence: bool,
    pub resecuritisation: bool,
    pub stc: bool,
    pub composition: bool,
    pub irba: bool,
    pub known: bool,
    pub charge: u64,
    pub average: u64,
    pub irb: IrbFigures,
}

// What a tranche is weighed by: its points, whether it is of the senior class, its months to maturity, the amount held and
// the ratings that count for it, its own or inferred ones. A tranche and the terms stay two values: a deal has one set of
// terms for all its tranches, and each definition takes the two.
#[derive(Clone, Copy, Debug, PartialEq, Eq)]
pub struct Tranche {
    pub attachment: u64,
    pub detachment: u64,
    pub senior: bool,
    pub months: u64,
    pub held: u64,
    pub ratings: Ratings,
}

// The kinds of deal, with supervisory parameter in millionths and floor in hundredths of a percent; class 1 of an STC deal
// has a floor of its own.
struct Ordinary;

impl Ordinary {
    const PARAMETER: u64 = 1000000;

    const FLOOR: u64 = 1500;
}

struct Stc;

impl Stc {
    const PARAMETER: u64 = 500000;

    const SENIOR_FLOOR: u64 = 1000;

    const FLOOR: u64 = 1500;
}

struct Resecuritisation;

impl Resecuritisation {
    const PARAMETER: u64 = 1500000;

    const FLOOR: u64 = 10000;
}

// 1250%, the highest weight and that of the fallback, at both ends.
const HIGHEST: Ends = Ends {
    low: 125000,
    high: 125000,
};

// The approach that applies to a tranche.
pub fn approach(t: Tranche, d: Terms) -> Approach
    ensures { number_of result ≡ approach t d }
{
    if !d.diligence {
        Approach::Fallback
    } else if d.resecuritisation {
        Approach::Sa
    } else if d.irba {
        Approach::Irba
    } else if t.ratings.any_present() {
        Approach::Erba
    } else if d.known {
        Approach::Sa
    } else {
        Approach::Fallback
    }
}

// The supervisory parameter: under SEC-IRBA worked out for the tranche, else by the deal's kind.
fn parameter(t: Tranche, d: Terms) -> u64
    ensures { result ≡ parameter t d }
{
    if d.resecuritisation {
        Resecuritisation::PARAMETER
    } else if d.irba {
        let fifths = ratings::maturity_fifths(t.months);
        irba::parameter(t.senior, d.stc, d.charge, fifths, d.irb)
    } else if d.stc {
        Stc::PARAMETER
    } else {
        Ordinary::PARAMETER
    }
}

// The floor, by the deal's kind, and in an STC deal by the class.
fn floor(t: Tranche, d: Terms) -> u64
    ensures { result ≡ floor t d }
{
    if d.resecuritisation {
        Resecuritisation::FLOOR
    } else if !d.stc {
        Ordinary::FLOOR
    } else if t.senior {
        Stc::SENIOR_FLOOR
    } else {
        Stc::FLOOR
    }
}

// Whether the senior cap applies.
fn cap_applies(t: Tranche, d: Terms) -> bool
    ensures { result ≡ cap_applies t d }
{
    t.senior && !d.resecuritisation && d.composition
}

// Both ends of a weight raised to the floor, then lowered to the cap.
fn after_floor_and_cap(t: Tranche, d: Terms, w: Ends) -> Ends
    ensures { result ≡ at_both (after_floor_and_cap t d) w }
{
    let least = floor(t, d);
    let capped = cap_applies(t, d);
    let limited = |end: u64| {
        let raised = end.max(least);
        if capped {
            raised.min(d.average)
        } else {
            raised
        }
    };
    Ends {
        low: limited(w.low),
        high: limited(w.high),
    }
}

// The formula's raw weight, both its numbers; the highest weight where there is none, which no accepted sheet meets, so
// that no caller gets one that is too low.
#[tactic(auto, unfolding(crate::specs::ApproachFloorCap::formula_raw_weight))]
fn formula_raw_weight(t: Tranche, d: Terms) -> Ends
    ensures { result ≡ formula_raw_weight t d }
{
    formula::raw_weight(t.attachment, t.detachment, d.charge, parameter(t, d)).unwrap_or(HIGHEST)
}

// The weight by the rating table of the deal's kind, and its low end.
#[tactic(auto, unfolding(crate::specs::ApproachFloorCap::table_weight))]
fn table_weight(t: Tranche, d: Terms) -> Ends
    ensures { result ≡ table_weight t d }
{
    let thickness = t.detachment.saturating_sub(t.attachment);
    ratings::weight_by_ratings(d.stc, t.ratings, t.senior, t.months, thickness)
}

// The tranche's weight, which is its high end, and the low end, than which the weight is certainly no lower. By the formula
// they are the two numbers of a raw weight after floor and cap; where the rules leave these open, the second promise limits
// them.
#[tactic(auto, unfolding(crate::specs::ApproachFloorCap::weight))]
pub fn weight(t: Tranche, d: Terms) -> Ends
    ensures value { result ≡ weight t d }
    ensures weight_by_formula { by_formula t d ≡ true → WeightByFormula t d result }
{
    match approach(t, d) {
        Approach::Fallback => HIGHEST,
        by if by.is_by_formula() => after_floor_and_cap(t, d, formula_raw_weight(t, d)),
        _ => after_floor_and_cap(t, d, table_weight(t, d)),
    }
}

// Whether the formula applies to a tranche of no thickness above the pool charge. The thickness is asked first: most
// tranches have one, and need no approach here.
#[tactic(auto, unfolding(crate::specs::ApproachFloorCap::thin))]
pub fn is_thin(t: Tranche, d: Terms) -> bool
    ensures { result ≡ thin t d }
{
    t.attachment == t.detachment && d.charge < t.detachment && approach(t, d).is_by_formula()
}
