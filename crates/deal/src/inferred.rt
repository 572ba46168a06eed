// Whose ratings count for a tranche: its own, or those that it infers.
ghost use Rattle.std.specs.Prelude.{true, ◌≡◌, ◌<◌, length, replicate};
ghost use Rattle.judgement.specs.DealSheet.{tranche_count};
ghost use Rattle.deal.specs.InferredRatings.{reference_row, infers_ratings, rating_row};
ghost use Rattle.deal.specs.Lines.{terms};
ghost use Rattle.deal.specs.NextRated.{NextRated, taken_row, TakenRows};

use crate::prepared::PreparedDeal;
use crate::tranches::{ratings_at, tranche_word};
use dates::maturity_months;
use judgement::JudgedSheet;
use limits::TRANCHES_MOST;
use weights::Terms;

// The places of the table of rated rows: one for each tranche, and one past the last. A row's number fits a byte, which
// keeps the tables small. Both tables keep plain bytes for "none": an Option per row would be two bytes to copy and to
// test, and the definition of what is taken (`taken_row`) counts rows from 1.
const NEXT: usize = TRANCHES_MOST + 1;

// Whether ratings are inferred in the deal.
fn infers_ratings(d: &Terms) -> bool
    ensures { result ≡ infers_ratings d.now }
{
    d.diligence && !d.resecuritisation && !d.irba
}

// Fills a table that has for each row the first rated row from it on, and the number of tranches where there is none: so that a search passes over the unrated rows in one
// step. Filled from the last row up.
fn next_rated(sheet: &JudgedSheet, next: &mut [u8; NEXT])
    requires { length next.old ≡ 33 }
    ensures { NextRated sheet.now.words.now next.new 0 }
{
    let mut first = sheet.layout.tranches;
    next[first as usize] = first as u8;
    for j in (0..sheet.layout.tranches).rev() {
        if ratings_at(sheet, j).any_present() {
            first = j;
        }
        next[j as usize] = first as u8;
    }
}

// The row of the reference that counts for tranche i; the number of tranches where there is none. Classes never fall from row to row, so the first reference in the rows' order is the
// first of the most senior class.
fn reference_row(sheet: &JudgedSheet, next: &[u8; NEXT], i: u64) -> u64
    requires { NextRated sheet.now.words.now next.now 0 × (i < tranche_count sheet.now.words.now) }
    ensures { result ≡ reference_row sheet.now.words.now i }
{
    let tranches = sheet.layout.tranches;
    let date = sheet.layout.reporting_date;
    let class = tranche_word(sheet, i, 1);
    let months = maturity_months(date, tranche_word(sheet, i, 2));
    let mut j = next[0] as u64;
    // A `while`, since j goes from one rated row to the next.
    while j < tranches {
        if class <= tranche_word(sheet, j, 1)
            && months <= maturity_months(date, tranche_word(sheet, j, 2))
        {
            return j;
        }
        j = next[(j + 1) as usize] as u64;
    }
    tranches
}

// What tranche i takes, in a deal that infers ratings: one more than the row, and 0 where it takes none, being rated or without a reference.
fn taken_row(sheet: &JudgedSheet, next: &[u8; NEXT], i: u64) -> u64
    requires { NextRated sheet.now.words.now next.now 0 × (i < tranche_count sheet.now.words.now) }
    ensures { result ≡ taken_row true sheet.now.words.now i }
{
    if next[i as usize] as u64 == i {
        return 0;
    }
    let row = reference_row(sheet, next, i);
    if row < sheet.layout.tranches {
        row + 1
    } else {
        0
    }
}

// Fills a table of zeros that has for each tranche one more than the row whose ratings it takes, and 0 where its own count: so a deal that infers none, or has no rating, leaves it as it is.
// Lent and not returned, so that its bytes are not copied as soon as they are written.
pub(crate) fn take_rows(sheet: &JudgedSheet, d: &Terms, taken: &mut [u8; TRANCHES_MOST])
    requires { taken.old ≡ replicate 32 0 }
    ensures { TakenRows d.now sheet.now.words.now taken.new }
{
    if !infers_ratings(d) {
        return;
    }
    let mut next = [0u8; NEXT];
    next_rated(sheet, &mut next);
    let tranches = sheet.layout.tranches;
    if next[0] as u64 == tranches {
        return;
    }
    for i in 0..tranches {
        taken[i as usize] = taken_row(sheet, &next, i) as u8;
    }
}

impl PreparedDeal<'_> {
    // The row whose ratings count for tranche i, by the table of what is taken.
    pub(crate) fn rating_row(&self, i: u64) -> u64
        requires { i < tranche_count self.now.sheet.now.words.now }
        ensures { result ≡ rating_row (terms self.now.sheet.now.words.now) self.now.sheet.now.words.now i }
    {
        let row = self.taken[i as usize] as u64;
        if row == 0 { i } else { row - 1 }
    }
}
