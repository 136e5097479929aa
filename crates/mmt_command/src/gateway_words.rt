//! The words of the commands of the gateway: `expand` and `squeeze`.
ghost use Rattle.std.specs.Prelude.{◌≡◌, ◌∷◌, drop, codes, IfOk, IfErr};
ghost use Rattle.mmt_command.specs.Words.{texts, IsWrongAt};
ghost use Rattle.mmt_command.specs.Commands.{Asks, IsCommand};

use crate::numbers::option_at;
use crate::words::Command;

/// The command that words are which begin with `expand`, or the index of the first wrong one.
pub fn expand_of(words: &[String]) -> Result<Command, u32>
    requires { texts words.now ≡ codes "expand" ∷ drop 1 (texts words.now) }
    ensures command { IfOk result (λ command. Asks command (texts words.now)) }
    ensures wrong { IfErr result (λ index. IsWrongAt IsCommand (texts words.now) index) }
{
    if words.len() == 1 {
        Ok(Command::Expand)
    } else {
        Err(1)
    }
}

/// The command that words are which begin with `squeeze`, or the index of the first wrong one.
pub fn squeeze_of(words: &[String]) -> Result<Command, u32>
    requires { texts words.now ≡ codes "squeeze" ∷ drop 1 (texts words.now) }
    ensures command { IfOk result (λ command. Asks command (texts words.now)) }
    ensures wrong { IfErr result (λ index. IsWrongAt IsCommand (texts words.now) index) }
{
    let context = option_at(words, 1, "--context", 0, (1 << 12) - 1)?;
    let full_every = option_at(words, 3, "--full-every", 1, (1 << 16) - 1)?;
    if words.len() == 5 {
        let context = context as u16;
        Ok(Command::Squeeze {
            context,
            full_every,
        })
    } else {
        Err(5)
    }
}
