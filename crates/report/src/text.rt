// A text that is written piece by piece into a lent buffer.
ghost use Rattle.std.specs.Prelude.{◌≡◌, ◌++◌, ◌∷◌, [], ◌+◌, ◌-◌, ◌≤◌, length, take, drop};
ghost use Rattle.files.specs.Decimal.{decimal, newline};
ghost use Rattle.faults.specs.Reasons.{number_of};
ghost use Rattle.report.specs.ReportText.{number_room, labelled_room, refusal_line, refusal_room, written_for, text_after};
ghost use Rattle.report.specs.BegunText.{Begun, behind};

use crate::NoRoom;
use judgement::Refusal;
use std::marker::Model;

// The bytes written so far are the first `end` of the buffer.
#[derive(Drop)]
pub(crate) struct Text<'a> {
    buffer: &'a mut [u8],
    end: usize,
}

// Copies a piece over the start of a list, byte by byte: a `copy_from_slice` of a length that is known only when it runs
// would need the C library's memmove, which nothing else in the archive for C does.
fn copy_start(piece: &[u8], list: &mut [u8])
    requires { length piece.now ≤ length list.old }
    ensures { list.new ≡ piece.now ++ drop (length piece.now) list.old }
{
    for (i, byte) in piece.iter().enumerate() {
        list[i] = *byte;
    }
}

impl<'a> Model for Text<'a> {
    ghost Value = { Begun };

    ghost view = { λ t. record { bytes = take t.end t.buffer.now; room = length t.buffer.now - t.end } };

    ghost invariant = { λ t. t.end ≤ length t.buffer.now };
}

impl<'a> Text<'a> {
    // A text of which nothing is written yet.
    pub(crate) fn new(buffer: &'a mut [u8]) -> Text<'a>
        ensures { result ≡ record { bytes = []; room = length buffer.old } }
    {
        Text { buffer, end: 0 }
    }

    // Copies the text to the start of a lent buffer, later bytes untouched, and answers its length; where there is no
    // room for all of it, nothing is written.
    pub(crate) fn copy_to(&self, text: &mut [u8]) -> Result<u64, NoRoom>
        ensures value { result ≡ written_for self.now.bytes text.old }
        ensures text_after { text.new ≡ text_after self.now.bytes text.old }
    {
        let size = self.end;
        if text.len() < size {
            return Err(NoRoom {
                needed: size as u64,
            });
        }
        copy_start(&self.buffer[..size], text);
        Ok(size as u64)
    }

    fn push_byte(&mut self, byte: u8)
        requires { 1 ≤ self.old.room }
        ensures { self.new ≡ behind self.old (byte ∷ []) }
    {
        self.buffer[self.end] = byte;
        self.end += 1;
    }

    pub(crate) fn push_bytes(&mut self, piece: &[u8])
        requires { length piece.now ≤ self.old.room }
        ensures { self.new ≡ behind self.old piece.now }
    {
        let end = self.end + piece.len();
        self.buffer[self.end..end].copy_from_slice(piece);
        self.end = end;
    }

    // Writes a number in decimal, the digits before the last first. It stands here since std's `write!` says what it
    // wrote only where it succeeds, and does not say that it succeeds where there is room.
    fn push_decimal(&mut self, n: u64)
        requires { length (decimal n) ≤ self.old.room }
        ensures { self.new ≡ behind self.old (decimal n) }
    {
        if 10 <= n {
            self.push_decimal(n / 10);
        }
        self.push_byte(48 + (n % 10) as u8);
    }

    // Writes a number in decimal and the byte that follows it.
    pub(crate) fn push_number(&mut self, n: u64, end: u8)
        requires { number_room ≤ self.old.room }
        ensures { self.new ≡ behind self.old (decimal n ++ end ∷ []) }
    {
        self.push_decimal(n);
        self.push_byte(end);
    }

    // Writes a line of two numbers, each after its label.
    pub(crate) fn push_labelled(&mut self, first: &[u8], n: u64, second: &[u8], m: u64)
        requires { labelled_room (length first.now + length second.now) ≤ self.old.room }
        ensures { self.new ≡ behind self.old (first.now ++ decimal n ++ second.now ++ decimal m ++ newline ∷ []) }
    {
        self.push_bytes(first);
        self.push_decimal(n);
        self.push_bytes(second);
        self.push_number(m, b'\n');
    }

    // Writes the line of a refusal.
    pub(crate) fn push_refusal(&mut self, r: Refusal)
        requires { refusal_room ≤ self.old.room }
        ensures { self.new ≡ behind self.old (refusal_line (number_of r.reason) r.place) }
    {
        self.push_labelled(b"refused ", r.reason.number(), b" at ", r.place);
    }
}
