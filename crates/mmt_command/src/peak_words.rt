//! The words of the command `peak`.
ghost use Rattle.std.specs.Prelude.{◌≡◌, ◌∷◌, drop, codes, IfOk, IfErr};
ghost use Rattle.mmt_command.specs.Words.{texts, IsWrongAt};
ghost use Rattle.mmt_command.specs.Commands.{Asks, IsCommand};

use crate::flows::choice_of;
use crate::numbers::option_at;
use crate::words::Command;
use mmt_model::Params;

/// The command that words are which begin with `peak`, or the index of the first wrong one.
pub fn peak_of(words: &[String]) -> Result<Command, u32>
    requires { texts words.now ≡ codes "peak" ∷ drop 1 (texts words.now) }
    ensures command { IfOk result (λ command. Asks command (texts words.now)) }
    ensures wrong { IfErr result (λ index. IsWrongAt IsCommand (texts words.now) index) }
{
    let delay = option_at(words, 1, "--delay", 1, (1 << 24) - 1)?;
    let window = option_at(words, 3, "--window", delay + 1, 1 << 24)?;
    let bound = option_at(words, 5, "--bound", 1, 1 << 30)?;
    let flow = choice_of(words)?;
    Ok(Command::Peak {
        flow,
        params: Params {
            bound,
            window,
            delay,
        },
    })
}
