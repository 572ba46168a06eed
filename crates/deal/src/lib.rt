#![tactic(auto)]

ghost use Rattle.std.specs.Prelude.{◌≡◌, length, cond};
ghost use Rattle.charge.specs.Figures.{pool_figures, mixed_figures};
ghost use Rattle.charge.specs.SumLimits.{SumLimits, IrbLimits};
ghost use Rattle.pool.specs.BlockSums.{sums_of};
ghost use Rattle.pool.specs.SummedPool.{OpenedPool};
ghost use Rattle.pool.specs.PoolSums.{pool_sums};
ghost use Rattle.judgement.specs.Refusals.{words_verdict};
ghost use Rattle.judgement.specs.Verdicts.{Sound};
ghost use Rattle.deal.specs.DemandThree.{KeepsDemandThree, KeepsSeventhWord};
ghost use Rattle.deal.specs.Lines.{terms_for, terms};
ghost use Rattle.deal.specs.Results.{reply_of, reply_to, results_after};

mod inferred;
mod lines;
mod prepared;
mod tranches;

use crate::prepared::PreparedDeal;
use crate::tranches::{POINTS, WHOLE_POOL};
use charge::{Figures, Sums};
use faults::Reason;
use irba::IrbFigures;
use judgement::sheet::read_layout;
use judgement::{JudgedSheet, Layout, Refusal};
use limits::{LINE_SIZE, TRANCHES_MOST};
use pool::SUM_WORDS;
use weights::Terms;

// What is said of a sheet that is weighed: how many lines it has, and the pool charge in millionths.
#[derive(Clone, Copy, Debug, PartialEq, Eq)]
pub struct Weighed {
    pub count: u64,
    pub charge: u64,
}

// A tranche's line, as its seven words; rwa is the risk-weighted amount, low the low end of the weight.
#[derive(Clone, Copy)]
pub(crate) struct Line {
    pub(crate) approach: u64,
    pub(crate) attachment: u64,
    pub(crate) detachment: u64,
    pub(crate) weight: u64,
    pub(crate) rwa: u64,
    pub(crate) capital: u64,
    pub(crate) low: u64,
}

// The pool's figures: where SEC-IRBA applies those that its IRB section enters. Limits of sums and figures are clauses
// of this and the next: they are read of a layout and of words, which no type holds together.
fn figures_for(irba: bool, f: IrbFigures, q: Sums) -> Figures
    requires { SumLimits q × IrbLimits f }
    ensures { result ≡ cond irba (mixed_figures f q) (pool_figures q) }
{
    if irba {
        charge::irba_figures_of(f, q)
    } else {
        charge::figures_of(q)
    }
}

// What the tranches of the deal share.
fn terms_of(l: Layout, q: Sums) -> Terms
    requires { SumLimits q × IrbLimits l.irb }
    ensures { result ≡ terms_for l q }
{
    let irb = l.irb;
    let irba = irba::applies(l.diligence, l.resecuritisation, l.kind, irb.share);
    let figures = figures_for(irba, irb, q);
    Terms {
        diligence: l.diligence,
        resecuritisation: l.resecuritisation,
        stc: l.stc,
        composition: l.composition,
        irba,
        known: figures.known,
        charge: figures.charge,
        average: figures.average,
        irb,
    }
}

// What the weighing of an opened pool comes to: the answer, and the pool charge, whatever the answer.
#[derive(Clone, Copy)]
struct Weighing {
    answer: Result<Weighed, Refusal>,
    charge: u64,
}

// Weighs every tranche of a sheet under the terms of its deal, its words being good and its pool's nominal given.
// Everything is decided before the first word is written: the room for results, then the tranches' thickness.
// That no words follow, which a JudgedSheet does not say, is asked here alone.
fn weigh_tranches(
    sheet: &JudgedSheet,
    d: &Terms,
    nominal: u64,
    results: &mut [u64],
) -> Result<Weighed, Refusal>
    requires { (words_verdict sheet.now.words.now ≡ Sound) × (d.now ≡ terms sheet.now.words.now) × (nominal ≡ (pool_sums sheet.now.words.now).all.nominal) }
    ensures result_value { reply_of result ≡ reply_to sheet.now.words.now (length results.old) }
    ensures results_after { results.new ≡ results_after sheet.now.words.now results.old }
    ensures keeps_demand_three { KeepsDemandThree sheet.now.words.now (length results.old) results.new }
    ensures keeps_seventh_word { KeepsSeventhWord sheet.now.words.now (length results.old) results.new }
{
    let count = sheet.layout.tranches;
    if (results.len() as u64) < LINE_SIZE as u64 * count {
        return Err(Refusal {
            reason: Reason::NoRoom,
            place: 0,
        });
    }
    let mut points = [WHOLE_POOL; POINTS];
    tranches::class_points(sheet, nominal, &mut points);
    let mut taken = [0u8; TRANCHES_MOST];
    inferred::take_rows(sheet, d, &mut taken);
    let deal = PreparedDeal {
        sheet,
        terms: d,
        points: &points,
        taken: &taken,
    };
    deal.judge_thickness()?;
    deal.write_lines(results);
    Ok(Weighed {
        count,
        charge: d.charge,
    })
}

// The same of an opened pool, whose layout is read of the sheet; its sums are lent as words, which costs a caller no
// copy. The charge is worked out first, for whoever asks for it alone: `terms_of` has one caller, since with a second
// one it is no longer inlined, and a small deal takes longer.
// Sheet and sums stay two, here and in the calls below: both come from the caller, in C as seven words.
fn weigh_sums(sheet: &[u64], sums: &[u64; SUM_WORDS], results: &mut [u64]) -> Weighing
    requires { OpenedPool sheet.now (sums_of sums.now) }
    ensures charge_value { result.charge ≡ (terms sheet.now).charge }
    ensures answer_value { reply_of result.answer ≡ reply_to sheet.now (length results.old) }
    ensures results_after { results.new ≡ results_after sheet.now results.old }
    ensures keeps_demand_three { KeepsDemandThree sheet.now (length results.old) results.new }
    ensures keeps_seventh_word { KeepsSeventhWord sheet.now (length results.old) results.new }
{
    let q = pool::sums_of(sums);
    let sheet = JudgedSheet {
        words: sheet,
        layout: read_layout(sheet),
    };
    let terms = terms_of(sheet.layout, q);
    Weighing {
        answer: weigh_tranches(&sheet, &terms, q.all.nominal, results),
        charge: terms.charge,
    }
}

// Weighs every tranche of an opened pool, of which neither words nor sums are worked out anew: what `weigh` gives for its sheet. The sums are lent as words, in the order of pool::sum_words.
pub fn weigh_opened(
    sheet: &[u64],
    sums: &[u64; SUM_WORDS],
    results: &mut [u64],
) -> Result<Weighed, Refusal>
    requires { OpenedPool sheet.now (sums_of sums.now) }
    ensures result_value { reply_of result ≡ reply_to sheet.now (length results.old) }
    ensures results_after { results.new ≡ results_after sheet.now results.old }
    ensures keeps_demand_three { KeepsDemandThree sheet.now (length results.old) results.new }
    ensures keeps_seventh_word { KeepsSeventhWord sheet.now (length results.old) results.new }
{
    weigh_sums(sheet, sums, results).answer
}

// Weighs every tranche of a deal sheet: seven words per tranche into the results, later words untouched; or one refusal, with the results as they
// were. The first two promises settle the answer and the results; the other two say how the formula's raw weight and the number from which the seventh word starts are limited
// where 01 and 02 leave them open.
pub fn weigh(sheet: &[u64], results: &mut [u64]) -> Result<Weighed, Refusal>
    ensures result_value { reply_of result ≡ reply_to sheet.now (length results.old) }
    ensures results_after { results.new ≡ results_after sheet.now results.old }
    ensures keeps_demand_three { KeepsDemandThree sheet.now (length results.old) results.new }
    ensures keeps_seventh_word { KeepsSeventhWord sheet.now (length results.old) results.new }
{
    let sums = pool::open_pool(sheet)?;
    weigh_opened(sheet, &pool::sum_words(sums), results)
}

// The charge of an opened pool, in millionths, SEC-IRBA included: that of the answer to its sheet where the sheet is weighed, and the same where a tranche is too thin. One word is too few
// for a line, so that nothing but the charge is worked out.
pub fn opened_charge(sheet: &[u64], sums: &[u64; SUM_WORDS]) -> u64
    requires { OpenedPool sheet.now (sums_of sums.now) }
    ensures { result ≡ (terms sheet.now).charge }
{
    let mut no_room = [0u64; 1];
    weigh_sums(sheet, sums, &mut no_room).charge
}
