// The conversion of a deal sheet's file: the bytes of a file in, the bytes of the rewritten sheet's file out.
#![tactic(auto)]

ghost use Rattle.std.specs.Prelude.{◌≡◌, ◌/◌, length};
ghost use Rattle.files.specs.FileForm.{bytes_after};
ghost use Rattle.judgement.specs.Outcome.{numbers_of};
ghost use Rattle.conversion.specs.Conversion.{conversion_verdict, conversion_numbers};
ghost use Rattle.conversion_file.specs.FileConversion.{file_numbers, bytes_for, bytes_converted, stored_as};

use faults::Reason;
use judgement::Refusal;
use limits::WORD_LIMIT;

// Stores words as bytes where there is room for all; else nothing is written.
fn store_words(words: &[u64], bytes: &mut [u8]) -> Result<u64, Refusal>
    ensures value { result ≡ stored_as words.now bytes.old }
    ensures bytes_after { bytes.new ≡ bytes_after words.now bytes.old }
{
    if files::store(words, bytes) {
        return Ok(words.len() as u64);
    }
    Err(Refusal {
        reason: Reason::NoRoom,
        place: 0,
    })
}

// Converts the words of a sheet to bytes. No rewritten sheet has more words than the longest sheet, so that only the bytes can be too few.
fn convert_words(sheet: &[u64], bytes: &mut [u8]) -> Result<u64, Refusal>
    ensures result_value { numbers_of result ≡ conversion_numbers sheet.now (length bytes.old / 8) }
    ensures bytes_after { bytes.new ≡ bytes_for sheet.now bytes.old (conversion_verdict sheet.now (length bytes.old / 8)) }
{
    let mut words = [0u64; WORD_LIMIT];
    let count = conversion::convert(sheet, &mut words)? as usize;
    store_words(&words[..count], bytes)
}

// Rewrites the sheet that a file's bytes hold in the other unit of risk weights, as conversion::convert does for words, and writes the bytes of its file to the start of a lent buffer, later bytes
// untouched; or refuses it and writes nothing. A length that no sheet has is refused before all. The answer counts words. There is room in a buffer of limits::BYTE_LIMIT bytes, whatever the file.
pub fn convert_file(file: &[u8], bytes: &mut [u8]) -> Result<u64, Refusal>
    ensures result_value { numbers_of result ≡ file_numbers file.now (length bytes.old) }
    ensures bytes_after { bytes.new ≡ bytes_converted file.now bytes.old }
{
    let mut sheet = [0u64; WORD_LIMIT];
    if !files::load(file, &mut sheet) {
        return Err(Refusal {
            reason: Reason::FileLength,
            place: 0,
        });
    }
    let count = file.len() / 8;
    convert_words(&sheet[..count], bytes)
}
