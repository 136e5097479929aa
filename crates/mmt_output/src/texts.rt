//! The texts of notes, at the end of a vector that has room for them.

ghost use Rattle.std.specs.Prelude.{◌≡◌, ◌+◌, ◌≤◌, ◌++◌, length, codes, decimal, vec_len, vec_capacity};
ghost use Rattle.mmt_words.specs.Words.{mpt_word};
ghost use Rattle.mmt_output.specs.Notes.{place_words, mpt_number, note_words, note_text};

use crate::notes::Note;
use itoa::Buffer;
use mmt_fields::put_bytes;
use mmt_mpt::MptWhy;
use mmt_words::{
    put_message_why, put_mpt_why, put_mpu_why, put_number, put_sig_why, put_times_why, put_why,
};

// Appends the number of a message and a place in it.
fn put_place(digits: &mut Buffer, out: &mut Vec<u8>, message: u32, at: u32)
    requires { vec_len out.old + 72 ≤ vec_capacity out.old }
    ensures items { out.new.items ≡ out.old.items ++ place_words message at }
    ensures grows { vec_len out.old ≤ vec_len out.new }
    ensures len { vec_len out.new ≤ vec_len out.old + 72 }
    ensures capacity { vec_capacity out.old ≤ vec_capacity out.new }
{
    put_number(digits, out, b" ", message as u64);
    put_number(digits, out, b" ", at as u64);
}

// Appends the number that the refusal of an MPT has.
#[tactic(auto, unfolding(crate::specs::Notes::mpt_number))]
fn put_mpt_number(digits: &mut Buffer, out: &mut Vec<u8>, why: MptWhy)
    requires { vec_len out.old + 36 ≤ vec_capacity out.old }
    ensures items { out.new.items ≡ out.old.items ++ mpt_number why }
    ensures grows { vec_len out.old ≤ vec_len out.new }
    ensures len { vec_len out.new ≤ vec_len out.old + 36 }
    ensures capacity { vec_capacity out.old ≤ vec_capacity out.new }
{
    match why {
        MptWhy::Short => {}
        MptWhy::Length => {}
        MptWhy::ClockRelation(asset) => put_number(digits, out, b" ", asset as u64),
        MptWhy::LocationKind(kind) => put_number(digits, out, b" ", kind as u64),
    }
}

// Appends a word of at most 16 bytes, the number of a message and a place in it.
fn put_word_at(digits: &mut Buffer, out: &mut Vec<u8>, word: &[u8], message: u32, at: u32)
    requires short { length word.now ≤ 16 }
    requires room { vec_len out.old + 88 ≤ vec_capacity out.old }
    ensures items { out.new.items ≡ out.old.items ++ (word.now ++ place_words message at) }
    ensures grows { vec_len out.old ≤ vec_len out.new }
    ensures len { vec_len out.new ≤ vec_len out.old + 88 }
    ensures capacity { vec_capacity out.old ≤ vec_capacity out.new }
{
    put_bytes(out, word);
    put_place(digits, out, message, at);
}

// Appends a word of at most 16 bytes, the number of a message, 0 for the place in it, and a number.
#[tactic(auto, using(std::proofs::Common::append_assoc))]
fn put_of_message(digits: &mut Buffer, out: &mut Vec<u8>, word: &[u8], message: u32, number: u32)
    requires short { length word.now ≤ 16 }
    requires room { vec_len out.old + 124 ≤ vec_capacity out.old }
    ensures items { out.new.items ≡ out.old.items ++ (word.now ++ place_words message 0 ++ codes " " ++ decimal number) }
    ensures grows { vec_len out.old ≤ vec_len out.new }
    ensures len { vec_len out.new ≤ vec_len out.old + 124 }
    ensures capacity { vec_capacity out.old ≤ vec_capacity out.new }
{
    put_word_at(digits, out, word, message, 0);
    put_number(digits, out, b" ", number as u64);
}

// Appends the same, and a second number.
#[tactic(auto, using(std::proofs::Common::append_assoc))]
fn put_two_of_message(
    digits: &mut Buffer,
    out: &mut Vec<u8>,
    word: &[u8],
    message: u32,
    number: u32,
    second: u32,
)
    requires short { length word.now ≤ 16 }
    requires room { vec_len out.old + 160 ≤ vec_capacity out.old }
    ensures items { out.new.items ≡ out.old.items ++ (word.now ++ place_words message 0 ++ codes " " ++ decimal number ++ codes " " ++ decimal second) }
    ensures grows { vec_len out.old ≤ vec_len out.new }
    ensures len { vec_len out.new ≤ vec_len out.old + 160 }
    ensures capacity { vec_capacity out.old ≤ vec_capacity out.new }
{
    put_of_message(digits, out, word, message, number);
    put_number(digits, out, b" ", second as u64);
}

// Appends the word of a payload that does not fit, the bytes that are held, and its length.
fn put_full(digits: &mut Buffer, out: &mut Vec<u8>, held: u32, length: u32)
    requires { vec_len out.old + 72 ≤ vec_capacity out.old }
    ensures items { out.new.items ≡ out.old.items ++ (codes "full " ++ decimal held ++ codes " " ++ decimal length) }
    ensures grows { vec_len out.old ≤ vec_len out.new }
    ensures len { vec_len out.new ≤ vec_len out.old + 72 }
    ensures capacity { vec_capacity out.old ≤ vec_capacity out.new }
{
    put_number(digits, out, b"full ", held as u64);
    put_number(digits, out, b" ", length as u64);
}

// Appends the word of the refusal of an MPT, the number of its message, the place in it, and the
// number that the refusal has.
fn put_table(digits: &mut Buffer, out: &mut Vec<u8>, message: u32, at: u32, why: MptWhy)
    requires { vec_len out.old + 160 ≤ vec_capacity out.old }
    ensures items { out.new.items ≡ out.old.items ++ (mpt_word why ++ place_words message at ++ mpt_number why) }
    ensures grows { vec_len out.old ≤ vec_len out.new }
    ensures len { vec_len out.new ≤ vec_len out.old + 160 }
    ensures capacity { vec_capacity out.old ≤ vec_capacity out.new }
{
    put_mpt_why(out, why);
    put_place(digits, out, message, at);
    put_mpt_number(digits, out, why);
}

// Appends the word of a note and its numbers.
#[tactic(auto, unfolding(crate::specs::Notes::note_words))]
fn put_words(digits: &mut Buffer, out: &mut Vec<u8>, note: Note)
    requires { vec_len out.old + 160 ≤ vec_capacity out.old }
    ensures items { out.new.items ≡ out.old.items ++ note_words note }
    ensures grows { vec_len out.old ≤ vec_len out.new }
    ensures len { vec_len out.new ≤ vec_len out.old + 160 }
    ensures capacity { vec_capacity out.old ≤ vec_capacity out.new }
{
    match note {
        Note::Hearing(why) => put_why(digits, out, why),
        Note::Generic => put_bytes(out, b"generic"),
        Note::Elsewhere => put_bytes(out, b"elsewhere"),
        Note::Mpu(why) => put_mpu_why(digits, out, why),
        Note::Signalling(why) => put_sig_why(out, why),
        Note::Late { clock } => put_number(digits, out, b"late ", clock.0 as u64),
        Note::Repeat => put_bytes(out, b"repeat"),
        Note::Full { held, length } => put_full(digits, out, held, length),
        Note::MessageLong { message, length } => {
            put_of_message(digits, out, b"message-long", message, length);
        }
        Note::Message { message, at, why } => {
            put_message_why(out, why);
            put_place(digits, out, message, at);
        }
        Note::HrbmBound {
            message,
            bound,
            allowed,
        } => put_two_of_message(digits, out, b"hrbm-bound", message, bound, allowed),
        Note::HrbmDiffers { message } => put_word_at(digits, out, b"hrbm-differs", message, 0),
        Note::Mpt { message, at, why } => put_table(digits, out, message, at, why),
        Note::Times { message, at, why } => {
            put_times_why(out, why);
            put_place(digits, out, message, at);
        }
        Note::NamesDiffer {
            message,
            packet_id,
            mpu,
        } => put_two_of_message(digits, out, b"names-differ", message, packet_id as u32, mpu),
        Note::NamesFull {
            message,
            packet_id,
            mpu,
        } => put_two_of_message(digits, out, b"names-full", message, packet_id as u32, mpu),
    }
}

/// The room that the line of a note needs at most, in bytes.
pub(crate) const NOTE: usize = 200;

/// Appends the line of a note.
#[tactic(auto, unfolding(crate::specs::Notes::note_text))]
pub(crate) fn put_note(digits: &mut Buffer, out: &mut Vec<u8>, place: u64, note: Note)
    requires { vec_len out.old + NOTE ≤ vec_capacity out.old }
    ensures { out.new.items ≡ out.old.items ++ note_text place note }
{
    put_number(digits, out, b"", place);
    put_bytes(out, b" ");
    put_words(digits, out, note);
    put_bytes(out, b"\n");
}
