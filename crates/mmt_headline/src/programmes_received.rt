//! What a receiver hands out, keeps and notes of a delivery of the cast of a programme.

ghost use Rattle.mmt_headline.specs.Programmes.{CastsAreSent, CastsTune, StreamsAreFramed, ProgrammesAreReceived};
ghost use Rattle.mmt_headline.specs.Peaks.{ReceiversKeepTo, ReceiversHaveRoom};
ghost use Rattle.mmt_headline.specs.Notes.{NotesAreQuiet, StreamsAreQuiet};

use mmt_delivery::{
    delivery_theorem, messages_are_sent, names_are_learned, only_late_and_repeats,
    peak_is_within_the_bound,
};

/// Each packet of a sendable programme's cast is sent as the cast says.
pub fn casts_are_sent()
    ensures { CastsAreSent }
{}

/// Exactly the packets with a buffer message tune a receiver, with the programme's values.
pub fn casts_tune()
    ensures { CastsTune }
{}

/// The bytes of a delivery are framed as its packets.
pub fn streams_are_framed()
    ensures { StreamsAreFramed }
{}

/// Of a near delivery a receiver of the programme hands out exactly the expected units, each once, in
/// their order.
pub fn programmes_are_received()
    ensures { ProgrammesAreReceived }
{
    delivery_theorem();
}

/// What a receiver keeps to of a delivery: the packets from the tuning one on, and the programme's values.
pub fn receivers_keep_to()
    ensures { ReceiversKeepTo }
{}

/// Of a near delivery a receiver keeps at most the programme's bound at once, and no packet is without
/// room.
pub fn receivers_have_room()
    ensures { ReceiversHaveRoom }
{
    peak_is_within_the_bound();
    only_late_and_repeats();
}

/// Of each packet of a near delivery only `late`, `repeat` and `ctx-none` are noted.
pub fn notes_are_quiet()
    ensures { NotesAreQuiet }
{
    peak_is_within_the_bound();
    only_late_and_repeats();
    names_are_learned();
    messages_are_sent();
}

/// The notes of a near delivery are those of `late`, `repeat` and `ctx-none` alone.
pub fn streams_are_quiet()
    ensures { StreamsAreQuiet }
{
    peak_is_within_the_bound();
    only_late_and_repeats();
    names_are_learned();
    messages_are_sent();
}
