// What the lines of an accepted sheet are made from: the sheet, and what is worked out of it once for all its tranches.
ghost use Rattle.std.specs.Prelude.{◌≡◌};
ghost use Rattle.deal.specs.Lines.{terms as sheet_terms};
ghost use Rattle.deal.specs.ClassPoints.{ClassPoints};
ghost use Rattle.deal.specs.NextRated.{TakenRows};

use crate::tranches::POINTS;
use judgement::JudgedSheet;
use limits::TRANCHES_MOST;
use weights::Terms;

// A judged sheet with the terms of its deal, the points between its classes, and what each of its tranches takes.
// The terms and the tables are lent, so that their words are not copied as soon as they are written.
#[derive(Clone, Copy)]
pub(crate) struct PreparedDeal<'a> {
    pub(crate) sheet: &'a JudgedSheet<'a>,
    pub(crate) terms: &'a Terms,
    pub(crate) points: &'a [u64; POINTS],
    pub(crate) taken: &'a [u8; TRANCHES_MOST],
    ghost its_terms: { terms.now ≡ sheet_terms sheet.now.words.now },
    ghost its_points: { ClassPoints sheet.now.words.now points.now },
    ghost its_taken: { TakenRows terms.now sheet.now.words.now taken.now },
}
