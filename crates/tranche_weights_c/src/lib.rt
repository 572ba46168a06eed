// The calculator as a static library for programs in C: the functions of tranche_weights under the names of the header,
// include/tranche_weights.h, with the same promises. Each name ends in the version of the interface, so that a program
// built for another version does not link. Lent numbers side by side are the interface of C.
#![tactic(auto)]

ghost use Rattle.std.specs.Prelude.{◌≡◌, ◌≤◌, length};
ghost use Rattle.pool.specs.BlockSums.{sums_of};
ghost use Rattle.pool.specs.SummedPool.{OpenedPool, opened_numbers};
ghost use Rattle.deal.specs.DemandThree.{KeepsDemandThree, KeepsSeventhWord};
ghost use Rattle.deal.specs.Lines.{terms};
ghost use Rattle.deal.specs.Results.{reply_to, results_after};
ghost use Rattle.deal_file.specs.FileAnswer.{file_reply, file_results, FileKeepsDemandThree, FileKeepsSeventhWord};
ghost use Rattle.conversion.specs.Conversion.{output_after};
ghost use Rattle.report.specs.ReportText.{file_text, text_after, text_room};
ghost use Rattle.tranche_weights.specs.FourNumbers.{four_numbers};
ghost use Rattle.tranche_weights.specs.BlockReply.{block_reply, block_reply_to};
ghost use Rattle.tranche_weights.specs.ConversionReply.{conversion_reply, conversion_reply_to};
ghost use Rattle.tranche_weights.specs.OpenedReply.{refusal_reply, reply_for, sums_after, ToldByWord, AmendedWords};

use pool::SUM_WORDS;

// Weighs every tranche of a deal sheet, as deal::weigh does.
#[unsafe(no_mangle)]
pub extern "C" fn tranche_weights_weigh_v10(
    sheet: &[u64],
    results: &mut [u64],
    place: &mut u64,
    count: &mut u64,
    charge: &mut u64,
) -> u64
    ensures charge_after { four_numbers result place.new count.new charge.new ≡ reply_to sheet.now (length results.old) }
    ensures results_after { results.new ≡ results_after sheet.now results.old }
    ensures keeps_demand_three { KeepsDemandThree sheet.now (length results.old) results.new }
    ensures keeps_seventh_word { KeepsSeventhWord sheet.now (length results.old) results.new }
{
    tranche_weights::tranche_weights_weigh_v10(sheet, results, place, count, charge)
}

// Weighs every tranche of the deal sheet that a file's bytes hold, as deal_file::weigh_file does.
#[unsafe(no_mangle)]
pub extern "C" fn tranche_weights_weigh_file_v10(
    file: &[u8],
    results: &mut [u64],
    place: &mut u64,
    count: &mut u64,
    charge: &mut u64,
) -> u64
    ensures charge_after { four_numbers result place.new count.new charge.new ≡ file_reply file.now (length results.old) }
    ensures results_after { results.new ≡ file_results file.now results.old }
    ensures file_keeps_demand_three { FileKeepsDemandThree file.now (length results.old) results.new }
    ensures file_keeps_seventh_word { FileKeepsSeventhWord file.now (length results.old) results.new }
{
    tranche_weights::tranche_weights_weigh_file_v10(file, results, place, count, charge)
}

// Writes the report's text on a file, as report::report does. The answer is the text's length; it was written where
// that is at most the room lent, and else nothing was.
#[unsafe(no_mangle)]
pub extern "C" fn tranche_weights_report_v10(file: &[u8], text: &mut [u8]) -> u64
    ensures value { result ≡ length (file_text file.now) }
    ensures text_after { text.new ≡ text_after (file_text file.now) text.old }
    ensures upper_bound { result ≤ text_room }
{
    tranche_weights::tranche_weights_report_v10(file, text)
}

// Reads the sums of a block of a deal sheet's pool, as pool::sum_block does: seven words, in the order of
// pool::sum_words, which read 0 where the sheet is refused.
#[unsafe(no_mangle)]
pub extern "C" fn tranche_weights_block_sums_v10(
    sheet: &[u64],
    block: u64,
    place: &mut u64,
    sums: &mut [u64; SUM_WORDS],
) -> u64
    ensures { block_reply result place.new sums.new ≡ block_reply_to sheet.now block }
{
    tranche_weights::tranche_weights_block_sums_v10(sheet, block, place, sums)
}

// Rewrites a deal sheet in the other unit of risk weights into lent output words, as conversion::convert does.
#[unsafe(no_mangle)]
pub extern "C" fn tranche_weights_convert_v10(
    sheet: &[u64],
    output: &mut [u64],
    place: &mut u64,
    count: &mut u64,
) -> u64
    ensures count_after { conversion_reply result place.new count.new ≡ conversion_reply_to sheet.now (length output.old) }
    ensures output_after { output.new ≡ output_after sheet.now output.old }
{
    tranche_weights::tranche_weights_convert_v10(sheet, output, place, count)
}

// Opens a deal sheet's pool, as pool::open_pool does: its seven sums, left as they were where the sheet is refused.
#[unsafe(no_mangle)]
pub extern "C" fn tranche_weights_open_pool_v10(
    sheet: &[u64],
    place: &mut u64,
    sums: &mut [u64; SUM_WORDS],
) -> u64
    ensures place_after { refusal_reply result place.new ≡ reply_for (opened_numbers sheet.now) }
    ensures sums_after { sums.new ≡ sums_after (opened_numbers sheet.now) sums.old }
{
    tranche_weights::opened::tranche_weights_open_pool_v10(sheet, place, sums)
}

// Tells whether a sheet and seven sums are an opened pool, as amendment::is_opened does: 1 where they are, else 0.
#[unsafe(no_mangle)]
pub extern "C" fn tranche_weights_is_opened_v10(sheet: &[u64], sums: &[u64; SUM_WORDS]) -> u64
    ensures { ToldByWord result (OpenedPool sheet.now (sums_of sums.now)) }
{
    tranche_weights::opened::tranche_weights_is_opened_v10(sheet, sums)
}

// Amends an opened pool, as amendment::amend does: one row of the sheet is replaced, and the sums are corrected.
#[unsafe(no_mangle)]
pub extern "C" fn tranche_weights_amend_v10(
    sheet: &mut [u64],
    sums: &mut [u64; SUM_WORDS],
    amendment: &[u64],
    place: &mut u64,
) -> u64
    requires { OpenedPool sheet.old (sums_of sums.old) }
    ensures { AmendedWords sheet.old amendment.now (refusal_reply result place.new) sheet.new sums.new }
{
    tranche_weights::opened::tranche_weights_amend_v10(sheet, sums, amendment, place)
}

// The pool charge of an opened pool, as deal::opened_charge gives it.
#[unsafe(no_mangle)]
pub extern "C" fn tranche_weights_opened_charge_v10(sheet: &[u64], sums: &[u64; SUM_WORDS]) -> u64
    requires { OpenedPool sheet.now (sums_of sums.now) }
    ensures { result ≡ (terms sheet.now).charge }
{
    tranche_weights::opened::tranche_weights_opened_charge_v10(sheet, sums)
}

// Weighs every tranche of an opened pool, as deal::weigh_opened does: what tranche_weights_weigh_v10 gives for its
// sheet.
#[unsafe(no_mangle)]
pub extern "C" fn tranche_weights_weigh_opened_v10(
    sheet: &[u64],
    sums: &[u64; SUM_WORDS],
    results: &mut [u64],
    place: &mut u64,
    count: &mut u64,
    charge: &mut u64,
) -> u64
    requires { OpenedPool sheet.now (sums_of sums.now) }
    ensures charge_after { four_numbers result place.new count.new charge.new ≡ reply_to sheet.now (length results.old) }
    ensures results_after { results.new ≡ results_after sheet.now results.old }
    ensures keeps_demand_three { KeepsDemandThree sheet.now (length results.old) results.new }
    ensures keeps_seventh_word { KeepsSeventhWord sheet.now (length results.old) results.new }
{
    tranche_weights::opened::tranche_weights_weigh_opened_v10(
        sheet, sums, results, place, count, charge,
    )
}
