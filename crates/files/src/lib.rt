// The file form of a sheet: words of eight bytes each, the lowest byte first.
#![tactic(auto)]

ghost use Rattle.std.specs.Prelude.{◌≡◌, ◌++◌, ◌/◌, ◌≤◌, length, drop};
ghost use Rattle.files.specs.FileForm.{good_length, file_words, words_after, bytes_fit, bytes_after};

use limits::{BYTE_LIMIT, WORD_LIMIT};

// Loads the words of a file into the first of the lent words.
#[tactic(auto, unfolding(crate::specs::FileForm::words_to))]
fn load_words(file: &[u8], words: &mut [u64])
    requires { length file.now / 8 ≤ length words.old }
    ensures { words.new ≡ file_words file.now ++ drop (length file.now / 8) words.old }
{
    let (chunks, _) = file.as_chunks::<8>();
    for (i, chunk) in chunks.iter().enumerate() {
        words[i] = u64::from_le_bytes(*chunk);
    }
}

// Loads the words of a file, and answers whether its length is good: where it is not (01's refusal 15), the words are
// as they were.
// A bool and no Result: its clause value speaks of the bool, as that of `store` does.
#[tactic(auto, unfolding(crate::specs::FileForm::words_after))]
pub fn load(file: &[u8], words: &mut [u64; WORD_LIMIT]) -> bool
    ensures value { result ≡ good_length file.now }
    ensures words_after { words.new ≡ words_after file.now words.old }
{
    let good = file.len() % 8 == 0 && file.len() <= BYTE_LIMIT;
    if good {
        load_words(file, words);
    }
    good
}

// Stores words as the bytes of a file, and answers whether there was room: where there was none, the bytes are as they
// were.
#[tactic(auto, unfolding(crate::specs::FileForm::bytes_after))]
pub fn store(words: &[u64], bytes: &mut [u8]) -> bool
    ensures value { result ≡ bytes_fit words.now bytes.old }
    ensures bytes_after { bytes.new ≡ bytes_after words.now bytes.old }
{
    let room = words.len() <= bytes.len() / 8;
    if room {
        for (i, word) in words.iter().enumerate() {
            bytes[8 * i..8 * i + 8].copy_from_slice(&word.to_le_bytes());
        }
    }
    room
}
