//! The words of the command `pace`.
ghost use Rattle.std.specs.Prelude.{◌≡◌, ◌∷◌, drop, codes, IfOk, IfErr};
ghost use Rattle.mmt_command.specs.Words.{texts, IsWrongAt};
ghost use Rattle.mmt_command.specs.Commands.{Asks, IsCommand};

use crate::numbers::option_at;
use crate::words::Command;

/// The command that words are which begin with `pace`, or the index of the first wrong one.
pub fn pace_of(words: &[String]) -> Result<Command, u32>
    requires { texts words.now ≡ codes "pace" ∷ drop 1 (texts words.now) }
    ensures command { IfOk result (λ command. Asks command (texts words.now)) }
    ensures wrong { IfErr result (λ index. IsWrongAt IsCommand (texts words.now) index) }
{
    if words.len() < 2 {
        return Err(1);
    }
    let step = option_at(words, 2, "--step", 1, (1 << 24) - 1)?;
    if words.len() == 4 {
        Ok(Command::Pace { step })
    } else {
        Err(4)
    }
}
