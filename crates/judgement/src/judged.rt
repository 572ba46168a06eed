// A sheet whose words are good. What reads a good sheet takes it, so that no reader asks anew whether the words are
// good, nor where they stand.
ghost use Rattle.judgement.specs.LaidOut.{LaidOut};

use crate::{Layout, Refusal, judge_words};

// The words of a sheet, all good, with what is read of them.
#[derive(Clone, Copy)]
pub struct JudgedSheet<'a> {
    pub words: &'a [u64],
    pub layout: Layout,
    pub ghost laid_out: { LaidOut words.now layout },
}

impl<'a> JudgedSheet<'a> {
    ghost use Rattle.std.specs.Prelude.{◌≡◌, IfOk};
    ghost use Rattle.judgement.specs.JudgedAnswer.{sheet_numbers_of};
    ghost use Rattle.judgement.specs.Refusals.{words_numbers};

    // Judges the words of a sheet, as judge_words does, and gives them with what is read of them.
    pub fn judge(words: &'a [u64]) -> Result<JudgedSheet<'a>, Refusal>
        ensures result_value { sheet_numbers_of result ≡ words_numbers words.now }
        ensures words { IfOk result (λ sheet. sheet.words.now ≡ words.now) }
    {
        let layout = judge_words(words)?;
        Ok(JudgedSheet { words, layout })
    }
}
