// The weight by ratings: the rating tables, the tranche maturity, the thickness, and the pick among several ratings.
#![tactic(auto)]

ghost use Rattle.std.specs.Prelude.{◌≡◌, [], ◌-◌, max, ◌≤◌, get_or};
ghost use Rattle.ratings.specs.RatingTable.{figures_of, maturity_fifths, linear, beside_senior, long_term_exact, short_term_exact, exact_weight, weight_by_rating, ends_by_ratings};
ghost use Rattle.ratings.specs.StoredFigures.{in_percent, row_in_percent, KeptTables};

mod table;

use numbers::{Ends, middle, rounded};
use rating_codes::{Ratings, long_term, short_term};
use table::{LONG_TERM, SHORT_TERM, STC_LONG_TERM, STC_SHORT_TERM};

// 1 in the units of a thickness, millionths.
const MILLION: u64 = 1000000;

// One half in the same units: more of a thickness lowers no weight.
const HALF: u64 = 500000;

// The divisor of exact weights: 240 fifths of a month times a million.
const EXACT_PARTS: u64 = 240000000;

// Tranche maturity in fifths of a month: the 80% rule first, then at least one year and at most five. 72 months reach the
// most, so that larger numbers of months need no product.
pub fn maturity_fifths(months: u64) -> u64
    ensures { result ≡ maturity_fifths months }
{
    (4 * months.min(72) + 12).max(60)
}

// A figure in percent, from the byte in which it is kept, in fives of a percent.
fn percent(fives: u8) -> u16
    ensures { result ≡ in_percent fives }
{
    5 * u16::from(fives)
}

// The four figures of a row in percent, from its bytes.
fn row_in_percent(row: [u8; 4]) -> [u16; 4]
    ensures { result ≡ row_in_percent row }
{
    row.map(percent)
}

// The long-term tables of ordinary and of STC deals, as they are kept.
fn kept_tables() -> (&'static [[u8; 4]; 18], &'static [[u8; 4]; 18])
    ensures { KeptTables result.0.now result.1.now }
{
    (&LONG_TERM, &STC_LONG_TERM)
}

// The row of a deal's rating table at a grade, counted from 1, in percent.
fn table_row(stc: bool, grade: u64) -> [u16; 4]
    requires { (1 ≤ grade) × (grade ≤ 18) }
    ensures { result ≡ get_or (figures_of stc).long_term_figures (grade - 1) [] }
{
    let (ordinary, marked) = kept_tables();
    let table = if stc { marked } else { ordinary };
    row_in_percent(table[(grade - 1) as usize])
}

// The figure of a deal's short-term grade, in percent.
fn short_term_figure(stc: bool, code: u64) -> u16
    requires { (21 ≤ code) × (code ≤ 24) }
    ensures { result ≡ get_or (figures_of stc).short_term_figures (code - 21) 0 }
{
    let table = if stc { STC_SHORT_TERM } else { SHORT_TERM };
    percent(table[(code - 21) as usize])
}

// 240 times the percentage at a maturity, linear between the 1-year figure and the 5-year figure; at most 240 times the
// largest number of 16 bits.
fn linear_percent(one: u16, five: u16, fifths: u64) -> u64
    requires { (60 ≤ fifths) × (fifths ≤ 300) }
    ensures { (result ≡ linear one five fifths) × (result ≤ 15728400) }
{
    u64::from(one) * (300 - fifths) + u64::from(five) * (fifths - 60)
}

// A non-senior tranche's own weight beside the senior one, to which it is raised; in an STC deal it is not.
fn beside_senior(stc: bool, own: u64, senior: u64) -> u64
    ensures { (result ≡ beside_senior (figures_of stc).compared own senior) × (result ≤ max own senior) }
{
    if stc { own } else { own.max(senior) }
}

// The exact weight by a long-term grade, times EXACT_PARTS: a non-senior tranche's falls with its thickness.
fn long_term_exact(stc: bool, grade: u64, senior: bool, fifths: u64, thickness: u64) -> u64
    requires { (1 ≤ grade) × (grade ≤ 18) × (60 ≤ fifths) × (fifths ≤ 300) }
    ensures { result ≡ long_term_exact (figures_of stc) grade senior fifths thickness }
{
    let row = table_row(stc, grade);
    let least = linear_percent(row[0], row[1], fifths) * MILLION;
    if senior {
        return 100 * least;
    }
    let share = MILLION - thickness.min(HALF);
    100 * beside_senior(stc, linear_percent(row[2], row[3], fifths) * share, least)
}

// The exact weight by a short-term grade, times EXACT_PARTS.
fn short_term_exact(stc: bool, code: u64) -> u64
    requires { (21 ≤ code) × (code ≤ 24) }
    ensures { result ≡ short_term_exact (figures_of stc) code }
{
    100 * u64::from(short_term_figure(stc, code)) * EXACT_PARTS
}

// The exact weight by a code, times EXACT_PARTS; 0 where the code is no rating.
#[tactic(auto, unfolding(crate::specs::RatingTable::exact_weight))]
fn exact_weight(stc: bool, code: u64, senior: bool, months: u64, thickness: u64) -> u64
    ensures { result ≡ exact_weight (figures_of stc) code senior months thickness }
{
    if long_term(code) {
        long_term_exact(stc, code, senior, maturity_fifths(months), thickness)
    } else if short_term(code) {
        short_term_exact(stc, code)
    } else {
        0
    }
}

// The weight by a tranche's rating words, by the STC mark of its deal, and its low end; both 0 where none is a rating. Of
// three ratings the higher of the two lowest weights counts, which is the middle one; of fewer the highest weight, a word
// that is no rating having weight 0, so that it is never the highest. The exact weights are compared and the one that
// counts is rounded both ways: down, which is where the low end starts from, and up, which gives the same as rounding each
// before (`pick_then_rounded`). Class, maturity and thickness stay parameters: a struct of the three would be made at each
// call and taken apart behind it.
#[tactic(auto, using(crate::proofs::TableLaws::fewer_than_three_rounded, crate::proofs::TableLaws::three_ratings_rounded))]
pub fn weight_by_ratings(
    stc: bool,
    ratings: Ratings,
    senior: bool,
    months: u64,
    thickness: u64,
) -> Ends
    ensures { result ≡ ends_by_ratings (figures_of stc) ratings.first ratings.second ratings.third senior months thickness }
{
    let a = exact_weight(stc, ratings.first, senior, months, thickness);
    let b = exact_weight(stc, ratings.second, senior, months, thickness);
    let c = exact_weight(stc, ratings.third, senior, months, thickness);
    let picked = if ratings.count_present() < 3 {
        a.max(b.max(c))
    } else {
        middle(a, b, c)
    };
    rounded(picked, EXACT_PARTS)
}

// The weight by one rating, by the STC mark of its deal, rounded up once; 0 where the code is no rating.
#[tactic(auto, using(crate::proofs::TableLaws::one_rating))]
pub fn weight_by_rating(stc: bool, code: u64, senior: bool, months: u64, thickness: u64) -> u64
    ensures { result ≡ weight_by_rating (figures_of stc) code senior months thickness }
{
    let alone = Ratings {
        first: code,
        second: 0,
        third: 0,
    };
    weight_by_ratings(stc, alone, senior, months, thickness).high
}
