//! What the words of the command line ask for.
ghost use Rattle.std.specs.Prelude.{◌≡◌, ◌∷◌, [], drop, codes, IfOk, IfErr};
ghost use Rattle.mmt_command.specs.Words.{texts, IsWrongAt};
ghost use Rattle.mmt_command.specs.Commands.{Asks, IsCommand};

use crate::gateway_words::{expand_of, squeeze_of};
use crate::make_words::make_of;
use crate::numbers::is_at;
use crate::pace_words::pace_of;
use crate::peak_words::peak_of;
use crate::plan_words::{mux_of, trial_of};
use crate::take_words::{TakeOptions, take_of};
use mmt_model::{FlowChoice, Params};

/// A command, with its options.
#[derive(Clone, Copy, Debug, PartialEq, Eq)]
pub enum Command {
    /// Reads a stream, and writes one line for each packet.
    List,
    /// Reads a stream, and writes what a receiver's buffer would have held of it.
    Peak { flow: FlowChoice, params: Params },
    /// Reads a stream, and writes a record for each unit that a receiver hands out.
    Take(TakeOptions),
    /// Reads a plan, whose file the second word names, and the plan's files, and writes the stream of its programme.
    Mux,
    /// Reads a plan, whose file the second word names, the plan's files, and the list of deliveries in the file that the
    /// third word names, and writes one line of what a receiver gave back of that delivery.
    Trial,
    /// Writes one line of what a receiver gave back of the programme and the delivery that come from a number.
    Make { seed: u16 },
    /// Reads a stream, and writes it with every compressed header expanded.
    Expand,
    /// Reads a stream, and writes it with every plain header compressed. The context ids are given out from this one
    /// on, and each context sends a full header once in `full_every` packets.
    Squeeze { context: u16, full_every: u32 },
    /// Reads a plan, whose file the second word names, and the plan's files, and writes the stream of its programme with
    /// each packet in a slot of its own, the slots this many ticks apart.
    Pace { step: u32 },
}

// The same of words that begin with `list`.
fn list_of(words: &[String]) -> Result<Command, u32>
    requires { texts words.now ≡ codes "list" ∷ drop 1 (texts words.now) }
    ensures command { IfOk result (λ command. Asks command (texts words.now)) }
    ensures wrong { IfErr result (λ index. IsWrongAt IsCommand (texts words.now) index) }
{
    if words.len() == 1 {
        Ok(Command::List)
    } else {
        Err(1)
    }
}

/// The command that the words are, or the index of the first word with which no command goes on, which is the number
/// of words where they begin a command.
pub fn command_of(words: &[String]) -> Result<Command, u32>
    ensures command { IfOk result (λ command. Asks command (texts words.now)) }
    ensures wrong { IfErr result (λ index. IsWrongAt IsCommand (texts words.now) index) }
{
    if is_at(words, 0, "list") {
        return list_of(words);
    }
    if is_at(words, 0, "peak") {
        return peak_of(words);
    }
    if is_at(words, 0, "take") {
        return take_of(words);
    }
    if is_at(words, 0, "mux") {
        return mux_of(words);
    }
    if is_at(words, 0, "trial") {
        return trial_of(words);
    }
    if is_at(words, 0, "make") {
        return make_of(words);
    }
    if is_at(words, 0, "expand") {
        return expand_of(words);
    }
    if is_at(words, 0, "squeeze") {
        return squeeze_of(words);
    }
    if is_at(words, 0, "pace") {
        return pace_of(words);
    }
    Err(0)
}
