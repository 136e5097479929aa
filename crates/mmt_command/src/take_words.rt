//! The words of the command `take`.
ghost use Rattle.std.specs.Prelude.{◌≡◌, ◌∷◌, drop, codes, IfOk, IfErr};
ghost use Rattle.mmt_command.specs.Words.{texts, IsWrongAt};
ghost use Rattle.mmt_command.specs.Commands.{Asks, IsCommand};
ghost use Rattle.mmt_command.specs.TakeWords.{AsksTake};

use crate::options::{Given, read_option};
use crate::words::Command;
use mmt_model::FlowChoice;

/// What `take` is asked for.
#[derive(Clone, Copy, Debug, PartialEq, Eq)]
pub struct TakeOptions {
    /// The greatest buffer that a stream may ask for, 1 to 1,073,741,824 bytes.
    pub bound: u32,
    /// The flows that are heard.
    pub flow: FlowChoice,
    /// The number of the first sample of an MPU, 0 or 1.
    pub sample_base: u32,
    /// The units in a second of the times of access units, 1 to 4,294,967,295.
    pub timescale: u32,
    /// The window and the delay in ticks, for a stream that says neither: the delay is at least 1, the window is
    /// above it and at most 16,777,216.
    pub assumed: Option<(u32, u32)>,
}

/// The command that words are which begin with `take`, or the index of the first wrong one.
pub fn take_of(words: &[String]) -> Result<Command, u32>
    requires { texts words.now ≡ codes "take" ∷ drop 1 (texts words.now) }
    ensures command { IfOk result (λ command. Asks command (texts words.now)) }
    ensures wrong { IfErr result (λ index. IsWrongAt IsCommand (texts words.now) index) }
{
    let mut given = Given::NONE;
    let mut at = 1;
    while at < words.len() {
        given = read_option(words, at, given)?;
        at += 2;
    }
    Ok(Command::Take(given.taken()))
}
