//! The words of the commands that read a plan: `mux` and `trial`.
ghost use Rattle.std.specs.Prelude.{◌≡◌, ◌∷◌, drop, codes, IfOk, IfErr};
ghost use Rattle.mmt_command.specs.Words.{texts, IsWrongAt};
ghost use Rattle.mmt_command.specs.Commands.{Asks, IsCommand};

use crate::words::Command;

/// The command that words are which begin with `mux`, or the index of the first wrong one.
pub fn mux_of(words: &[String]) -> Result<Command, u32>
    requires { texts words.now ≡ codes "mux" ∷ drop 1 (texts words.now) }
    ensures command { IfOk result (λ command. Asks command (texts words.now)) }
    ensures wrong { IfErr result (λ index. IsWrongAt IsCommand (texts words.now) index) }
{
    if words.len() == 2 {
        Ok(Command::Mux)
    } else if words.len() < 2 {
        Err(1)
    } else {
        Err(2)
    }
}

/// The command that words are which begin with `trial`, or the index of the first wrong one.
pub fn trial_of(words: &[String]) -> Result<Command, u32>
    requires { texts words.now ≡ codes "trial" ∷ drop 1 (texts words.now) }
    ensures command { IfOk result (λ command. Asks command (texts words.now)) }
    ensures wrong { IfErr result (λ index. IsWrongAt IsCommand (texts words.now) index) }
{
    let count = words.len();
    if count == 3 {
        Ok(Command::Trial)
    } else if count < 3 {
        Err(count as u32)
    } else {
        Err(3)
    }
}
