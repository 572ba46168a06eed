// An opened pool for programs in C and Rust: a sheet with the seven sums of its pool, as words in the order of
// pool::sum_words. The first two functions take any words; what the other three require is just that the sheet and the
// sums are an opened pool.
// Sheet and sums are two lent places: that is the interface of C.
ghost use Rattle.std.specs.Prelude.{◌≡◌, length};
ghost use Rattle.pool.specs.BlockSums.{sums_of};
ghost use Rattle.pool.specs.SummedPool.{OpenedPool, opened_numbers};
ghost use Rattle.deal.specs.DemandThree.{KeepsDemandThree, KeepsSeventhWord};
ghost use Rattle.deal.specs.Lines.{terms};
ghost use Rattle.deal.specs.Results.{reply_to, results_after};
ghost use Rattle.judgement.specs.Outcome.{numbers_of};
ghost use Rattle.tranche_weights.specs.FourNumbers.{four_numbers};
ghost use Rattle.tranche_weights.specs.OpenedReply.{refusal_reply, reply_for, sums_after, ToldByWord, AmendedWords};

use crate::{put_answer, put_refusal};
use charge::Sums;
use judgement::Refusal;
use pool::SUM_WORDS;

// The sums of a pool as a program in C gets them, of a sheet that is opened or of a pool that is amended: the refusal's
// number, 0 where there is none, and its place; the sums are written where there is none.
fn put_sums(answer: Result<Sums, Refusal>, place: &mut u64, sums: &mut [u64; SUM_WORDS]) -> u64
    ensures place_after { refusal_reply result place.new ≡ reply_for (numbers_of answer) }
    ensures sums_after { sums.new ≡ sums_after (numbers_of answer) sums.old }
{
    if let Ok(q) = answer {
        *sums = pool::sum_words(q);
    }
    put_refusal(&answer, place)
}

// Opens a deal sheet's pool, as pool::open_pool does: its seven sums, left as they were where the sheet is refused.
pub fn tranche_weights_open_pool_v10(
    sheet: &[u64],
    place: &mut u64,
    sums: &mut [u64; SUM_WORDS],
) -> u64
    ensures place_after { refusal_reply result place.new ≡ reply_for (opened_numbers sheet.now) }
    ensures sums_after { sums.new ≡ sums_after (opened_numbers sheet.now) sums.old }
{
    put_sums(pool::open_pool(sheet), place, sums)
}

// Tells whether a sheet and seven sums are an opened pool, as amendment::is_opened does: 1 where they are, else 0.
pub fn tranche_weights_is_opened_v10(sheet: &[u64], sums: &[u64; SUM_WORDS]) -> u64
    ensures { ToldByWord result (OpenedPool sheet.now (sums_of sums.now)) }
{
    u64::from(amendment::is_opened(sheet, pool::sums_of(sums)))
}

// Amends an opened pool, as amendment::amend does: one row of the sheet is replaced, and the sums are corrected.
pub fn tranche_weights_amend_v10(
    sheet: &mut [u64],
    sums: &mut [u64; SUM_WORDS],
    amendment: &[u64],
    place: &mut u64,
) -> u64
    requires { OpenedPool sheet.old (sums_of sums.old) }
    ensures { AmendedWords sheet.old amendment.now (refusal_reply result place.new) sheet.new sums.new }
{
    let amended = amendment::amend_rows(sheet, pool::sums_of(sums), amendment);
    put_sums(amended, place, sums)
}

// The pool charge of an opened pool, as deal::opened_charge gives it.
pub fn tranche_weights_opened_charge_v10(sheet: &[u64], sums: &[u64; SUM_WORDS]) -> u64
    requires { OpenedPool sheet.now (sums_of sums.now) }
    ensures { result ≡ (terms sheet.now).charge }
{
    deal::opened_charge(sheet, sums)
}

// Weighs every tranche of an opened pool, as deal::weigh_opened does: what tranche_weights_weigh_v10 gives for its
// sheet.
pub fn tranche_weights_weigh_opened_v10(
    sheet: &[u64],
    sums: &[u64; SUM_WORDS],
    results: &mut [u64],
    place: &mut u64,
    count: &mut u64,
    charge: &mut u64,
) -> u64
    requires { OpenedPool sheet.now (sums_of sums.now) }
    ensures charge_after { four_numbers result place.new count.new charge.new ≡ reply_to sheet.now (length results.old) }
    ensures results_after { results.new ≡ results_after sheet.now results.old }
    ensures keeps_demand_three { KeepsDemandThree sheet.now (length results.old) results.new }
    ensures keeps_seventh_word { KeepsSeventhWord sheet.now (length results.old) results.new }
{
    put_answer(
        deal::weigh_opened(sheet, sums, results),
        place,
        count,
        charge,
    )
}
