// The calculator for programs in C and Rust: the functions that a bank's own system links, with the promises of the
// functions they call. tranche_weights_c exports them under these names, which end in the version of the interface.
// Numbers and lent numbers side by side are that interface: a function in C has one result and no enum.
#![tactic(auto)]

ghost use Rattle.std.specs.Prelude.{◌≡◌, ◌≤◌, length};
ghost use Rattle.deal.specs.DemandThree.{KeepsDemandThree, KeepsSeventhWord};
ghost use Rattle.deal.specs.Results.{reply_of, reply_to, results_after};
ghost use Rattle.deal_file.specs.FileAnswer.{file_reply, file_results, FileKeepsDemandThree, FileKeepsSeventhWord};
ghost use Rattle.report.specs.ReportText.{file_text, text_after, text_room};
ghost use Rattle.judgement.specs.Outcome.{numbers_of};
ghost use Rattle.tranche_weights.specs.BlockReply.{block_reply, reply_for, block_reply_to};
ghost use Rattle.conversion.specs.Conversion.{output_after};
ghost use Rattle.tranche_weights.specs.ConversionReply.{conversion_reply, reply_for as reply_for_conversion, conversion_reply_to};
ghost use Rattle.tranche_weights.specs.FourNumbers.{four_numbers};
ghost use Rattle.tranche_weights.specs.OpenedReply.{refusal_reply, reply_for as refusal_reply_for};

pub mod opened;

use charge::Sums;
use deal::Weighed;
use judgement::Refusal;
use pool::SUM_WORDS;

// A refusal as a program in C gets it: its number, 0 where there is none, and its place through the lent number.
pub(crate) fn put_refusal<T>(answer: &Result<T, Refusal>, place: &mut u64) -> u64
    ensures { refusal_reply result place.new ≡ refusal_reply_for (numbers_of answer.now) }
{
    match answer {
        Ok(_) => {
            *place = 0;
            0
        }
        Err(refusal) => {
            *place = refusal.place;
            refusal.reason.number()
        }
    }
}

// An answer as a program in C gets it: the refusal's number, 0 where there is none; place, count and charge are written
// through the lent numbers, count and charge 0 of a refused sheet.
pub(crate) fn put_answer(
    answer: Result<Weighed, Refusal>,
    place: &mut u64,
    count: &mut u64,
    charge: &mut u64,
) -> u64
    ensures { four_numbers result place.new count.new charge.new ≡ reply_of answer }
{
    let weighed = answer.unwrap_or(Weighed {
        count: 0,
        charge: 0,
    });
    *count = weighed.count;
    *charge = weighed.charge;
    put_refusal(&answer, place)
}

// Weighs every tranche of a deal sheet, as deal::weigh does.
pub fn tranche_weights_weigh_v10(
    sheet: &[u64],
    results: &mut [u64],
    place: &mut u64,
    count: &mut u64,
    charge: &mut u64,
) -> u64
    ensures charge_after { four_numbers result place.new count.new charge.new ≡ reply_to sheet.now (length results.old) }
    ensures results_after { results.new ≡ results_after sheet.now results.old }
    ensures keeps_demand_three { KeepsDemandThree sheet.now (length results.old) results.new }
    ensures keeps_seventh_word { KeepsSeventhWord sheet.now (length results.old) results.new }
{
    put_answer(deal::weigh(sheet, results), place, count, charge)
}

// Weighs every tranche of the deal sheet that a file's bytes hold, as deal_file::weigh_file does.
pub fn tranche_weights_weigh_file_v10(
    file: &[u8],
    results: &mut [u64],
    place: &mut u64,
    count: &mut u64,
    charge: &mut u64,
) -> u64
    ensures charge_after { four_numbers result place.new count.new charge.new ≡ file_reply file.now (length results.old) }
    ensures results_after { results.new ≡ file_results file.now results.old }
    ensures file_keeps_demand_three { FileKeepsDemandThree file.now (length results.old) results.new }
    ensures file_keeps_seventh_word { FileKeepsSeventhWord file.now (length results.old) results.new }
{
    put_answer(deal_file::weigh_file(file, results), place, count, charge)
}

// Writes the report's text on a file, as report::report does. The answer is the text's length; it was written where
// that is at most the room lent, and else nothing was.
pub fn tranche_weights_report_v10(file: &[u8], text: &mut [u8]) -> u64
    ensures value { result ≡ length (file_text file.now) }
    ensures text_after { text.new ≡ text_after (file_text file.now) text.old }
    ensures upper_bound { result ≤ text_room }
{
    report::report(file, text).unwrap_or_else(|no_room| no_room.needed)
}

// What a block came to as a program in C gets it: the refusal's number, 0 where there is none; place and sums are
// written through the lent numbers.
fn put_block(block: Result<Sums, Refusal>, place: &mut u64, sums: &mut [u64; SUM_WORDS]) -> u64
    ensures { block_reply result place.new sums.new ≡ reply_for (numbers_of block) }
{
    *sums = pool::sum_words(pool::sums_read(block));
    put_refusal(&block, place)
}

// Reads the sums of a block of a deal sheet's pool, as pool::sum_block does: seven words, in the order of
// pool::sum_words, which read 0 where the sheet is refused.
pub fn tranche_weights_block_sums_v10(
    sheet: &[u64],
    block: u64,
    place: &mut u64,
    sums: &mut [u64; SUM_WORDS],
) -> u64
    ensures { block_reply result place.new sums.new ≡ block_reply_to sheet.now block }
{
    put_block(pool::sum_block(sheet, block), place, sums)
}

// A conversion as a program in C gets it: the refusal's number, 0 where there is none; place and the count of words
// written go through the lent numbers.
fn put_conversion(converted: Result<u64, Refusal>, place: &mut u64, count: &mut u64) -> u64
    ensures { conversion_reply result place.new count.new ≡ reply_for_conversion (numbers_of converted) }
{
    *count = converted.unwrap_or(0);
    put_refusal(&converted, place)
}

// Rewrites a deal sheet in the other unit of risk weights into lent output words, as conversion::convert does.
pub fn tranche_weights_convert_v10(
    sheet: &[u64],
    output: &mut [u64],
    place: &mut u64,
    count: &mut u64,
) -> u64
    ensures count_after { conversion_reply result place.new count.new ≡ conversion_reply_to sheet.now (length output.old) }
    ensures output_after { output.new ≡ output_after sheet.now output.old }
{
    put_conversion(conversion::convert(sheet, output), place, count)
}
