// The converter: a deal sheet rewritten from either unit of its risk weights, whole percent or hundredths of a percent, to the other.
#![tactic(auto)]

ghost use Rattle.std.specs.Prelude.{◌≡◌, ◌≤◌, ◌<◌, length};
ghost use Rattle.judgement.specs.DealSheet.{word, unit_at};
ghost use Rattle.judgement.specs.Outcome.{numbers_of};
ghost use Rattle.judgement.specs.Verdicts.{verdict_of};
ghost use Rattle.conversion.specs.RewrittenSheet.{other_unit, other_weight, is_weight_place, rewritten};
ghost use Rattle.conversion.specs.Conversion.{weights_verdict, conversion_numbers, output_after, numbers_judged, output_judged};

use faults::Reason;
use judgement::{JudgedSheet, Refusal};
use limits::{FACTS_MOST, ROW_SIZE};

// The place of the unit's fact, the seventh.
const UNIT_AT: usize = 7;

// A percent in hundredths of a percent.
const PERCENT: u64 = 100;

// The first risk weight that is no whole percent, of a sheet in hundredths; a sheet in percent has none.
fn judge_weights(sheet: &JudgedSheet) -> Result<(), Refusal>
    ensures { verdict_of result ≡ weights_verdict sheet.now.words.now }
{
    if !sheet.layout.hundredths {
        return Ok(());
    }
    for i in 0..sheet.layout.rows {
        let at = sheet.layout.first_row + ROW_SIZE * i as usize + 2;
        if sheet.words[at] % PERCENT != 0 {
            return Err(Refusal {
                reason: Reason::PartPercent,
                place: at as u64,
            });
        }
    }
    Ok(())
}

// The fact of the other unit: one of two figures, as its definition is.
fn other_unit(hundredths: bool) -> u64
    ensures { result ≡ other_unit hundredths }
{
    if hundredths { 0 } else { 1 }
}

// A risk weight word in the other unit.
fn other_weight(hundredths: bool, w: u64) -> u64
    requires { w ≤ 125000 }
    ensures { result ≡ other_weight hundredths w }
{
    if hundredths { w / PERCENT } else { w * PERCENT }
}

// Whether a risk weight stands at a place of the sheet.
fn is_weight(sheet: &JudgedSheet, p: usize) -> bool
    ensures { result ≡ is_weight_place sheet.now.words.now p }
{
    let first = sheet.layout.first_row;
    first <= p && p < sheet.layout.first_tranche - 1 && (p - first) % ROW_SIZE == 2
}

// The fact at place p of the rewritten sheet: one that the sheet lacks is 0, and the unit is the other.
fn rewritten_fact(sheet: &JudgedSheet, p: usize) -> u64
    requires { (1 ≤ p) × (p ≤ unit_at) }
    ensures { result ≡ word (rewritten sheet.now.words.now) p }
{
    if p == UNIT_AT {
        return other_unit(sheet.layout.hundredths);
    }
    if p as u64 <= sheet.words[0] {
        sheet.words[p]
    } else {
        0
    }
}

// The word at place p of the rewritten sheet. Past the facts it comes from as many places further up as facts were
// filled in.
fn rewritten_word(sheet: &JudgedSheet, p: usize) -> u64
    requires { p < length (rewritten sheet.now.words.now) }
    ensures { result ≡ word (rewritten sheet.now.words.now) p }
{
    if p == 0 {
        return FACTS_MOST as u64;
    }
    if p <= UNIT_AT {
        return rewritten_fact(sheet, p);
    }
    let from = p - (FACTS_MOST - sheet.words[0] as usize);
    let w = sheet.words[from];
    if is_weight(sheet, from) {
        other_weight(sheet.layout.hundredths, w)
    } else {
        w
    }
}

// Writes the rewritten sheet into as many words as it has.
fn write_words(sheet: &JudgedSheet, output: &mut [u64])
    requires { length output.old ≡ length (rewritten sheet.now.words.now) }
    ensures { output.new ≡ rewritten sheet.now.words.now }
{
    for (p, word) in output.iter_mut().enumerate() {
        *word = rewritten_word(sheet, p);
    }
}

// Converts a sheet whose words are good: the weights are judged, then the room, and then all is written.
fn convert_judged(sheet: &JudgedSheet, output: &mut [u64]) -> Result<u64, Refusal>
    ensures result_value { numbers_of result ≡ numbers_judged sheet.now.words.now (length output.old) }
    ensures output_after { output.new ≡ output_judged sheet.now.words.now output.old }
{
    judge_weights(sheet)?;
    let count = sheet.words.len() + (FACTS_MOST - sheet.words[0] as usize);
    if output.len() < count {
        return Err(Refusal {
            reason: Reason::NoRoom,
            place: 0,
        });
    }
    write_words(sheet, &mut output[..count]);
    Ok(count as u64)
}

// Rewrites a sheet in the other unit of risk weights into lent output words, later words untouched; or refuses it, and
// writes nothing. `numbers_of` gives the refusal's number and place in 01 or 02, and where there is none how many words
// were written.
pub fn convert(sheet: &[u64], output: &mut [u64]) -> Result<u64, Refusal>
    ensures result_value { numbers_of result ≡ conversion_numbers sheet.now (length output.old) }
    ensures output_after { output.new ≡ output_after sheet.now output.old }
{
    let judged = JudgedSheet::judge(sheet)?;
    convert_judged(&judged, output)
}
