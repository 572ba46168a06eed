// What is each tranche's own, the amounts for what is held, and refusal 13.
ghost use Rattle.std.specs.Prelude.{◌≡◌, ◌+◌, ◌≤◌, ◌<◌, replicate};
ghost use Rattle.limits.specs.SheetSize.{tranche_size};
ghost use Rattle.judgement.specs.DealSheet.{word, tranche_count, tranche_at};
ghost use Rattle.pool.specs.PoolSums.{pool_sums};
ghost use Rattle.deal.specs.Points.{point};
ghost use Rattle.deal.specs.InferredRatings.{own_ratings};
ghost use Rattle.deal.specs.Lines.{tranche, risk_weighted_amount, capital};
ghost use Rattle.deal.specs.ClassPoints.{ClassPoints};
ghost use Rattle.judgement.specs.Refusals.{first_of};
ghost use Rattle.judgement.specs.Verdicts.{verdict_of};
ghost use Rattle.deal.specs.Refusals.{thin_verdict};

use crate::prepared::PreparedDeal;
use dates::maturity_months;
use faults::Reason;
use judgement::{JudgedSheet, Refusal};
use limits::{TRANCHE_SIZE, TRANCHES_MOST};
use numbers::rounded_up;
use rating_codes::Ratings;
use weights::{Tranche, is_thin};

// The places of the table of points: each tranche may have a class of its own, classes count from 1, and the table goes one past the last.
pub(crate) const POINTS: usize = TRANCHES_MOST + 2;

// A word of tranche i, by its column from 0.
// A row's word and a tranche's are read alike, each by the place and the size of its section.
pub(crate) fn tranche_word(sheet: &JudgedSheet, i: u64, column: usize) -> u64
    requires { (i < tranche_count sheet.now.words.now) × (column < tranche_size) }
    ensures { result ≡ word sheet.now.words.now (tranche_at sheet.now.words.now i + column) }
{
    let at = sheet.layout.first_tranche + TRANCHE_SIZE * i as usize + column;
    sheet.words[at]
}

// The rating words of tranche i.
pub(crate) fn ratings_at(sheet: &JudgedSheet, i: u64) -> Ratings
    requires { i < tranche_count sheet.now.words.now }
    ensures { result ≡ own_ratings sheet.now.words.now i }
{
    Ratings {
        first: tranche_word(sheet, i, 4),
        second: tranche_word(sheet, i, 5),
        third: tranche_word(sheet, i, 6),
    }
}

// What is left of the pool's nominal beneath an amount of more senior tranches, as a share of it in millionths, rounded down.
fn point(nominal: u64, amount: u64) -> u64
    requires { (0 < nominal) × (nominal ≤ 10000000000000) }
    ensures { result ≡ point nominal amount }
{
    nominal.saturating_sub(amount) * 1000000 / nominal
}

// The point above all tranches: the whole pool, in millionths.
pub(crate) const WHOLE_POOL: u64 = 1000000;

// Fills the points between classes: at c, what is left of the pool beneath the tranches of a class below c, for c up to one more than the last class. So the
// tranches of class c attach at c + 1 and detach at c. Classes rise by at most one from row to row, so one pass in the rows' order fills every place. Lent and not returned, so that
// the table is not copied.
pub(crate) fn class_points(sheet: &JudgedSheet, nominal: u64, points: &mut [u64; POINTS])
    requires { (nominal ≡ (pool_sums sheet.now.words.now).all.nominal) × (points.old ≡ replicate 34 1000000) }
    ensures { ClassPoints sheet.now.words.now points.new }
{
    let mut sum = 0;
    for j in 0..sheet.layout.tranches {
        let class = tranche_word(sheet, j, 1);
        sum += tranche_word(sheet, j, 0);
        points[(class + 1) as usize] = point(nominal, sum);
    }
}

// The risk-weighted amount of what is held.
pub(crate) fn risk_weighted_amount(held: u64, w: u64) -> u64
    requires { (held ≤ 10000000000000) × (w ≤ 125000) }
    ensures { result ≡ risk_weighted_amount held w }
{
    rounded_up(held * w, 10000)
}

// The capital for what is held, from the weight and not from the rounded amount.
pub(crate) fn capital(held: u64, w: u64) -> u64
    requires { (held ≤ 10000000000000) × (w ≤ 125000) }
    ensures { result ≡ capital held w }
{
    rounded_up(held * w * 8, 1000000)
}

impl PreparedDeal<'_> {
    // What is tranche i's own, with the ratings that count for it, which stand in its own row or in the one that it
    // takes them from; its maturity is in months, however the sheet states it.
    pub(crate) fn tranche_of(&self, i: u64) -> Tranche
        requires { i < tranche_count self.now.sheet.now.words.now }
        ensures { result ≡ tranche self.now.sheet.now.words.now i }
    {
        let sheet = self.sheet;
        let class = tranche_word(sheet, i, 1);
        let row = self.rating_row(i);
        Tranche {
            attachment: self.points[(class + 1) as usize],
            detachment: self.points[class as usize],
            senior: class == 1,
            months: maturity_months(sheet.layout.reporting_date, tranche_word(sheet, i, 2)),
            held: tranche_word(sheet, i, 3),
            ratings: ratings_at(sheet, row),
        }
    }

    // The first tranche that is too thin for the formula.
    pub(crate) fn judge_thickness(&self) -> Result<(), Refusal>
        ensures { verdict_of result ≡ first_of (λ i. thin_verdict self.now.sheet.now.words.now i) (tranche_count self.now.sheet.now.words.now) }
    {
        for i in 0..self.sheet.layout.tranches {
            if is_thin(self.tranche_of(i), *self.terms) {
                return Err(Refusal {
                    reason: Reason::NoThickness,
                    place: self.sheet.layout.first_tranche as u64 + TRANCHE_SIZE as u64 * i,
                });
            }
        }
        Ok(())
    }
}
