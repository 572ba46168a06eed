// The answer to a deal sheet's file: 15 for a bad length, and else what the file's words get.
#![tactic(auto)]

ghost use Rattle.std.specs.Prelude.{◌≡◌, length};
ghost use Rattle.deal.specs.Results.{reply_of};
ghost use Rattle.deal_file.specs.FileAnswer.{file_reply, file_results, FileKeepsDemandThree, FileKeepsSeventhWord};

use deal::Weighed;
use faults::Reason;
use judgement::Refusal;
use limits::WORD_LIMIT;

// Weighs every tranche of the sheet that a file's bytes hold, as deal::weigh does for words. A length that no sheet has is refused before all, with the
// results as they were.
pub fn weigh_file(file: &[u8], results: &mut [u64]) -> Result<Weighed, Refusal>
    ensures result_value { reply_of result ≡ file_reply file.now (length results.old) }
    ensures results_after { results.new ≡ file_results file.now results.old }
    ensures file_keeps_demand_three { FileKeepsDemandThree file.now (length results.old) results.new }
    ensures file_keeps_seventh_word { FileKeepsSeventhWord file.now (length results.old) results.new }
{
    let mut sheet = [0u64; WORD_LIMIT];
    if !files::load(file, &mut sheet) {
        return Err(Refusal {
            reason: Reason::FileLength,
            place: 0,
        });
    }
    let words = file.len() / 8;
    deal::weigh(&sheet[..words], results)
}
