// The judgement of a sheet's words, from place 0 upward; then words that follow. It needs no more than the words.
#![tactic(auto)]

ghost use Rattle.std.specs.Prelude.{◌≡◌, ◌+◌, ◌-◌, ◌<◌, length, true};
ghost use Rattle.faults.specs.Reasons.{fault_number};
ghost use Rattle.judgement.specs.DealSheet.{pool_at, rows, row_at, tranches_at, tranche_count, tranche_at, class, has_irb, irb_at, needed};
ghost use Rattle.judgement.specs.Refusals.{judge_with, judged, words_numbers};
ghost use Rattle.judgement.specs.Outcome.{numbers_of};
ghost use Rattle.judgement.specs.Judged.{NumbersMean};
ghost use Rattle.judgement.specs.Verdicts.{Sound, verdict_of, numbered_verdict};

mod counted;
mod judged;
pub mod sheet;

use crate::counted::{CountedPool, CountedTranches};
use crate::sheet::{fact_at, in_hundredths, layout_of, pool_at, row_count, word_at};
use faults::{Reason, count_fault, fact_fault, irb_fault, row_fault, row_is_good, tranche_fault};
use irba::IrbFigures;
pub use judged::JudgedSheet;
use limits::{
    FACTS_LEAST, FACTS_MOST, IRB_ROWS, IRB_SIZE, ROW_SIZE, ROWS_MOST, TRANCHE_SIZE, TRANCHES_MOST,
};

// A refusal: its reason, and its place.
#[derive(Clone, Copy, Debug, PartialEq, Eq)]
pub struct Refusal {
    pub reason: Reason,
    pub place: u64,
}

// What is read of a sheet whose words are good: its facts, the places of its first pool row and of its first tranche,
// how many there are of each, and the figures of its IRB section, zeros where it has none.
// The kind stays the sheet's word, as in the definition.
#[derive(Clone, Copy, Debug, PartialEq, Eq)]
pub struct Layout {
    pub kind: u64,
    pub resecuritisation: bool,
    pub stc: bool,
    pub diligence: bool,
    pub composition: bool,
    pub reporting_date: u64,
    pub hundredths: bool,
    pub first_row: usize,
    pub rows: u64,
    pub first_tranche: usize,
    pub tranches: u64,
    pub irb: IrbFigures,
}

impl Layout {
    // What is read where a count is above its limit.
    pub const NONE: Layout = Layout {
        kind: 0,
        resecuritisation: false,
        stc: false,
        diligence: false,
        composition: false,
        reporting_date: 0,
        hundredths: false,
        first_row: 0,
        rows: 0,
        first_tranche: 0,
        tranches: 0,
        irb: IrbFigures::NONE,
    };
}

// Judges the word at p, whose fault by its value is given: a missing word is refused at the sheet's length.
pub fn judge_word(s: &[u64], p: u64, fault: Result<(), Reason>) -> Result<(), Refusal>
    ensures { verdict_of result ≡ judge_with (length s.now) p (fault_number fault) }
{
    let size = s.len() as u64;
    if size <= p {
        return Err(Refusal {
            reason: Reason::MissingWord,
            place: size,
        });
    }
    fault.map_err(|reason| Refusal { reason, place: p })
}

// A refusal by its number, which need not be one of 01 or 02.
#[derive(Clone, Copy, Debug, PartialEq, Eq)]
pub struct NumberedRefusal {
    pub number: u64,
    pub place: u64,
}

// Judges the word at p as `judge_word` does, for a fault of any number and 0 for none: for callers whose rules have
// numbers of their own.
pub fn judge_number(s: &[u64], p: u64, number: u64) -> Result<(), NumberedRefusal>
    ensures { numbered_verdict result ≡ judge_with (length s.now) p number }
{
    let end = s.len() as u64;
    if end <= p {
        return Err(NumberedRefusal {
            number: Reason::MissingWord.number(),
            place: end,
        });
    }
    if number == 0 {
        return Ok(());
    }
    Err(NumberedRefusal { number, place: p })
}

// The count of facts, and each fact.
fn judge_facts(s: &[u64]) -> Result<(), Refusal>
    ensures { verdict_of result ≡ judged s.now (pool_at s.now) }
{
    judge_word(
        s,
        0,
        count_fault(FACTS_LEAST as u64, FACTS_MOST as u64, word_at(s, 0)),
    )?;
    let resecuritised = word_at(s, 2) == 1;
    for p in 1..pool_at(s) {
        judge_word(s, p, fact_fault(resecuritised, p, word_at(s, p)))?;
    }
    Ok(())
}

// The four words of pool row i, one after another: the first fault. That all before a row is good stays a clause of
// what judges rows: the fact is another for each row, and no value is handed from row to row.
fn judge_row_words(pool: CountedPool<'_>, i: u64) -> Result<(), Refusal>
    requires { (judged pool.words.now (row_at pool.words.now i) ≡ Sound) × (i < rows pool.words.now) }
    ensures { verdict_of result ≡ judged pool.entry.words.now (row_at pool.entry.words.now (i + 1)) }
{
    let s = pool.words;
    let resecuritised = word_at(s, 2) == 1;
    let hundredths = in_hundredths(s);
    let at = pool.row_at(i);
    for column in 0..ROW_SIZE as u64 {
        let p = at + column;
        judge_word(
            s,
            p,
            row_fault(resecuritised, hundredths, column, word_at(s, p)),
        )?;
    }
    Ok(())
}

// The four words of pool row i. Most rows are there whole and good, which is soon told; the others are judged word by
// word.
fn judge_row(pool: CountedPool<'_>, i: u64) -> Result<(), Refusal>
    requires { (judged pool.words.now (row_at pool.words.now i) ≡ Sound) × (i < rows pool.words.now) }
    ensures { verdict_of result ≡ judged pool.entry.words.now (row_at pool.entry.words.now (i + 1)) }
{
    let s = pool.words;
    let resecuritised = word_at(s, 2) == 1;
    let hundredths = in_hundredths(s);
    let at = pool.row_at(i) as usize;
    if at + ROW_SIZE <= s.len()
        && row_is_good(
            resecuritised,
            hundredths,
            s[at],
            s[at + 1],
            s[at + 2],
            s[at + 3],
        )
    {
        return Ok(());
    }
    judge_row_words(pool, i)
}

// The facts, and the pool's count.
// The judges of pool and tranches are alike in form: each goes by its own section's places and promise.
fn judge_pool_count(s: &[u64]) -> Result<(), Refusal>
    ensures { verdict_of result ≡ judged s.now (pool_at s.now + 1) }
{
    judge_facts(s)?;
    judge_word(
        s,
        pool_at(s),
        count_fault(1, ROWS_MOST as u64, row_count(s)),
    )
}

// The facts and the pool.
fn judge_pool(s: &[u64]) -> Result<(), Refusal>
    ensures { verdict_of result ≡ judged s.now (tranches_at s.now) }
{
    judge_pool_count(s)?;
    let pool = CountedPool { words: s };
    for i in 0..row_count(s) {
        judge_row(pool, i)?;
    }
    Ok(())
}

// The seven words of tranche i. Its maturity is judged by the reporting date, which is 0 where the sheet has none.
// That all before is good stays a clause, as for a pool row.
fn judge_tranche(sheet: CountedTranches<'_>, i: u64) -> Result<(), Refusal>
    requires { (judged sheet.words.now (tranche_at sheet.words.now i) ≡ Sound) × (i < tranche_count sheet.words.now) }
    ensures { verdict_of result ≡ judged sheet.entry.words.now (tranche_at sheet.entry.words.now (i + 1)) }
{
    let s = sheet.words;
    let reporting_date = fact_at(s, 6);
    let at = sheet.tranche_at(i);
    let before = sheet.class_before(i);
    let amount = word_at(s, at);
    for column in 0..TRANCHE_SIZE as u64 {
        let p = at + column;
        judge_word(
            s,
            p,
            tranche_fault(reporting_date, i, before, amount, column, word_at(s, p)),
        )?;
    }
    Ok(())
}

// The facts, the pool, and the tranches' count.
fn judge_tranche_count(s: &[u64]) -> Result<(), Refusal>
    ensures { verdict_of result ≡ judged s.now (tranches_at s.now + 1) }
{
    judge_pool(s)?;
    let pool = CountedPool { words: s };
    judge_word(
        s,
        pool.tranches_at(),
        count_fault(1, TRANCHES_MOST as u64, pool.tranche_count()),
    )
}

// The facts, the pool and the tranches.
fn judge_tranches(s: &[u64]) -> Result<(), Refusal>
    ensures { verdict_of result ≡ judged s.now (tranche_at s.now (tranche_count s.now)) }
{
    judge_tranche_count(s)?;
    let sheet = CountedTranches { words: s };
    for i in 0..sheet.tranche_count() {
        judge_tranche(sheet, i)?;
    }
    Ok(())
}

// The six words of the IRB section's row, by the pool's kind.
// That all before is good stays a clause, as for a pool row.
fn judge_irb_row(sheet: CountedTranches<'_>) -> Result<(), Refusal>
    requires { (judged sheet.words.now (irb_at sheet.words.now + 1) ≡ Sound) × (has_irb sheet.words.now ≡ true) }
    ensures { verdict_of result ≡ judged sheet.entry.words.now (needed sheet.entry.words.now) }
{
    let s = sheet.words;
    let kind = word_at(s, 1);
    let at = sheet.irb_at() + 1;
    for column in 0..IRB_SIZE as u64 {
        let p = at + column;
        judge_word(s, p, irb_fault(kind, column, word_at(s, p)))?;
    }
    Ok(())
}

// The facts, the pool, the tranches and, where the pool's kind asks for one, the IRB section: every word that the sheet
// needs.
fn judge_needed(s: &[u64]) -> Result<(), Refusal>
    ensures { verdict_of result ≡ judged s.now (needed s.now) }
{
    judge_tranches(s)?;
    if word_at(s, 1) == 0 {
        return Ok(());
    }
    let sheet = CountedTranches { words: s };
    let at = sheet.irb_at();
    judge_word(
        s,
        at,
        count_fault(IRB_ROWS as u64, IRB_ROWS as u64, word_at(s, at)),
    )?;
    judge_irb_row(sheet)
}

// Judges every word that the sheet needs, and then that none follows: all that the words alone decide.
// `numbers_of` gives 01's number and place of a refusal, and where there is none what is read of the sheet.
pub fn judge_words(s: &[u64]) -> Result<Layout, Refusal>
    ensures result_value { numbers_of result ≡ words_numbers s.now }
    ensures numbers_mean { NumbersMean s.now (numbers_of result) }
{
    judge_needed(s)?;
    let layout = layout_of(s);
    let sheet = CountedTranches { words: s };
    let end = sheet.end();
    if end < s.len() as u64 {
        return Err(Refusal {
            reason: Reason::WordsFollow,
            place: end,
        });
    }
    Ok(layout)
}
