// The charge of a pool and its average risk weight, from the pool's sums and, under SEC-IRBA, from the figures of its
// IRB section.
#![tactic(auto)]

ghost use Rattle.std.specs.Prelude.{◌≡◌, ◌+◌, ◌*◌, ◌≤◌};
ghost use Rattle.numbers.specs.Rounding.{rounded_up};
ghost use Rattle.charge.specs.PoolCharge.{base_charge, late_share, known_charge, unknown_exposure, mostly_known, pool_charge, mixed_charge, pool_average};
ghost use Rattle.charge.specs.SumLimits.{TotalsLimits, sums_within, irb_within, IrbLimits};
ghost use Rattle.charge.specs.Figures.{highest_figures, figures, irba_figures};

mod bounded;

use bounded::BoundedSums;
use irba::IrbFigures;
use numbers::rounded_up;

// Sums over rows of a pool: exposure, nominal, and exposure × risk weight, the risk weight in hundredths of a percent.
#[derive(Clone, Copy, Debug, PartialEq, Eq)]
pub struct Totals {
    pub exposure: u64,
    pub nominal: u64,
    pub weighted: u64,
}

// A pool's seven sums: over all rows, over the rows with known status, and the nominal of delinquent rows.
#[derive(Clone, Copy, Debug, PartialEq, Eq)]
pub struct Sums {
    pub all: Totals,
    pub known: Totals,
    pub late: u64,
}

impl Totals {
    // Totals over no rows.
    pub const NONE: Totals = Totals {
        exposure: 0,
        nominal: 0,
        weighted: 0,
    };
}

impl Sums {
    // Sums over no rows.
    pub const NONE: Sums = Sums {
        all: Totals::NONE,
        known: Totals::NONE,
        late: 0,
    };
}

// What a deal reads of its pool: whether unknown rows are at most 5% of exposure, the pool charge in millionths, and
// the average risk weight in hundredths of a percent, which is the senior cap.
#[derive(Clone, Copy, Debug, PartialEq, Eq)]
pub struct Figures {
    pub known: bool,
    pub charge: u64,
    pub average: u64,
}

// 1 in the units of shares and charges, millionths. It is also the highest charge.
const MILLION: u64 = 1000000;

// One half, the charge of the late share.
const LATE_CHARGE: u64 = 500000;

// The largest sum of amounts: 1,000 rows of 10^10.
const LARGEST_SUM: u64 = 10000000000000;

// 1250%, the highest risk weight of a row and the highest average, in hundredths of a percent.
const HIGHEST_WEIGHT: u64 = 125000;

// The charge of a risk weight of one unit: 8% of a hundredth of a percent, in millionths.
const UNIT_CHARGE: u64 = 8;

// The highest figures, for sums that no sheet has, so that no caller gets one that is too low.
const HIGHEST_FIGURES: Figures = Figures {
    known: false,
    charge: MILLION,
    average: HIGHEST_WEIGHT,
};

// Whether the sums are within the limits under which nothing overflows. The first two tests keep the products of the
// next two small.
#[tactic(auto, unfolding(crate::specs::SumLimits::sums_within))]
fn sums_within(q: Sums) -> bool
    ensures { result ≡ sums_within q }
{
    q.all.exposure <= LARGEST_SUM
        && q.known.exposure <= q.all.exposure
        && q.all.weighted <= HIGHEST_WEIGHT * q.all.exposure
        && q.known.weighted <= HIGHEST_WEIGHT * q.known.exposure
        && q.known.nominal <= LARGEST_SUM
        && q.late <= q.known.nominal
}

// The base charge of some rows: 8% of their average risk weight, rounded up.
fn base_charge(t: Totals) -> u64
    requires { TotalsLimits t }
    ensures { result ≡ base_charge t }
{
    rounded_up(UNIT_CHARGE * t.weighted, t.exposure)
}

impl BoundedSums {
    // The share of delinquent nominal in the nominal of the rows with known status, rounded up.
    fn late_share(self) -> u64
        ensures { result ≡ late_share self.sums }
    {
        rounded_up(self.sums.late * MILLION, self.sums.known.nominal)
    }

    // The charge of the rows with known status: one half for the late share, the base charge for the rest.
    #[tactic(auto, using(crate::proofs::PoolLaws::known_parts_at_most), unfolding(crate::specs::PoolCharge::known_charge))]
    fn known_charge(self) -> u64
        ensures { result ≡ known_charge self.sums }
    {
        let base = base_charge(self.sums.known);
        let late = self.late_share();
        rounded_up((MILLION - late) * base + LATE_CHARGE * late, MILLION)
    }

    // Whether unknown rows are up to 5% of all exposure.
    fn mostly_known(self) -> bool
        ensures { result ≡ mostly_known self.sums }
    {
        20 * (self.sums.all.exposure - self.sums.known.exposure) <= self.sums.all.exposure
    }

    // The charge of all rows from that of the rows with known status: the others are charged in full. Where there are
    // none, as in most pools, nothing is divided.
    fn with_unknown(self, charge: u64) -> u64
        requires { charge ≤ 1000000 }
        ensures { result ≡ rounded_up (self.sums.known.exposure * charge + unknown_exposure self.sums * 1000000) self.sums.all.exposure }
    {
        let exposure = self.sums.all.exposure;
        let unknown = exposure - self.sums.known.exposure;
        if unknown == 0 {
            return if exposure == 0 { 0 } else { charge };
        }
        rounded_up(
            self.sums.known.exposure * charge + unknown * MILLION,
            exposure,
        )
    }

    // The pool charge: unknown rows up to 5% are charged in full; above that the whole pool is.
    #[tactic(auto, using(crate::proofs::PoolLaws::known_charge_at_most_million), unfolding(crate::specs::PoolCharge::pool_charge))]
    fn pool_charge(self) -> u64
        ensures { result ≡ pool_charge self.sums }
    {
        if !self.mostly_known() {
            return MILLION;
        }
        self.with_unknown(self.known_charge())
    }

    // The average risk weight of all rows, which is the senior cap.
    fn pool_average(self) -> u64
        ensures { result ≡ pool_average self.sums }
    {
        rounded_up(self.sums.all.weighted, self.sums.all.exposure)
    }

    // The charge under SEC-IRBA: the IRB charge for its share of exposure, and for the rest the base charge of all
    // rows. The limits of the figures are a clause of this one alone.
    #[tactic(auto, unfolding(crate::specs::PoolCharge::mixed_charge))]
    fn mixed_charge(self, f: IrbFigures) -> u64
        requires { IrbLimits f }
        ensures { result ≡ mixed_charge f self.sums.all }
    {
        let base = base_charge(self.sums.all);
        rounded_up(f.share * f.charge + (MILLION - f.share) * base, MILLION)
    }
}

// The figures of a pool with these sums; the highest where the sums are outside their limits, which no sheet's are, so
// that no caller gets one that is too low.
#[tactic(auto, using(crate::proofs::SumLimitsLaw::limits_of_test), unfolding(crate::specs::Figures::figures))]
pub fn figures_of(q: Sums) -> Figures
    ensures { result ≡ figures q }
{
    if !sums_within(q) {
        return HIGHEST_FIGURES;
    }
    let sums = BoundedSums { sums: q };
    Figures {
        known: sums.mostly_known(),
        charge: sums.pool_charge(),
        average: sums.pool_average(),
    }
}

// Whether the figures of an IRB section are within the limits under which nothing overflows.
#[tactic(auto, unfolding(crate::specs::SumLimits::irb_within))]
fn irb_within(f: IrbFigures) -> bool
    ensures { result ≡ irb_within f }
{
    f.share <= MILLION && f.charge <= MILLION && f.average <= HIGHEST_WEIGHT
}

// The figures under SEC-IRBA of a pool with these sums and this IRB section; the highest where sums or section are
// outside their limits, which no sheet's are.
// Its like is figures_of: charge and cap differ, and both are open.
#[tactic(auto, using(crate::proofs::SumLimitsLaw::limits_of_test, crate::proofs::SumLimitsLaw::irb_limits_of_test), unfolding(crate::specs::Figures::irba_figures))]
pub fn irba_figures_of(f: IrbFigures, q: Sums) -> Figures
    ensures { result ≡ irba_figures f q }
{
    if !sums_within(q) || !irb_within(f) {
        return HIGHEST_FIGURES;
    }
    let sums = BoundedSums { sums: q };
    Figures {
        known: sums.mostly_known(),
        charge: sums.mixed_charge(f),
        average: f.average,
    }
}
