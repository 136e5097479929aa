//! The words of the command `make`.
ghost use Rattle.std.specs.Prelude.{◌≡◌, ◌∷◌, drop, codes, IfOk, IfErr};
ghost use Rattle.mmt_command.specs.Words.{texts, IsWrongAt};
ghost use Rattle.mmt_command.specs.Commands.{Asks, IsCommand};

use crate::numbers::number_at;
use crate::words::Command;

/// The command that words are which begin with `make`, or the index of the first wrong one.
pub fn make_of(words: &[String]) -> Result<Command, u32>
    requires { texts words.now ≡ codes "make" ∷ drop 1 (texts words.now) }
    ensures command { IfOk result (λ command. Asks command (texts words.now)) }
    ensures wrong { IfErr result (λ index. IsWrongAt IsCommand (texts words.now) index) }
{
    let seed = match number_at(words, 1, 0, 65_535) {
        Some(seed) => seed,
        None => return Err(1),
    };
    if words.len() == 2 {
        Ok(Command::Make { seed: seed as u16 })
    } else {
        Err(2)
    }
}
