//! The top call: from the words of the command line to the status.
ghost use Rattle.std.specs.Prelude.{◌≡◌, ℕ, ◌^◌, ◌<◌, ◌≤◌, List, IsTrue};
ghost use Rattle.mmt_command.specs.Words.{texts, IsWrongAt};
ghost use Rattle.mmt_command.specs.Commands.{Asks, IsCommand, mux_words, pace_words, trial_words};
ghost use Rattle.mmt_cli.specs.Moments.{moment, faults};
ghost use Rattle.mmt_cli.specs.GivingBack.{GivesBack};
ghost use Rattle.mmt_cli.specs.Muxing.{Muxes};
ghost use Rattle.mmt_cli.specs.Pacing.{Paces};
ghost use Rattle.mmt_cli.specs.Promise.{HasCauses, Promises};
ghost use Rattle.mmt_cli.specs.Takes.{config_of};
ghost use Rattle.mmt_cli.specs.Trying.{Trials};
ghost use Rattle.mmt_command.specs.declared.take_words.TakeOptions.{TakeOptions};
ghost use Rattle.mmt_command.specs.declared.words.Command.{Command};

use crate::gateway::{expand_within, squeeze_within};
use crate::list::list_within;
use crate::mux::mux_within;
use crate::pace::pace_within;
use crate::peak::peak_within;
use crate::status::Status;
use crate::take::{configured, take_within};
use crate::trial::{make_within, trial_within};
use mmt_command::{Command, command_of};
use mmt_headline::take_runs::take_gives_back;
use mmt_io::{Port, Shelf};
use std::alloc::Global;

/// Does what the words ask, over a port and a shelf, and reads at most `limit` bytes and one more.
pub fn run_within<P: Port, H: Shelf>(
    alloc: Global,
    words: &[String],
    port: &mut P,
    shelf: &mut H,
    limit: u64,
) -> Status
    requires { limit ≤ 2 ^ 40 }
    // If and only if the words are no command the status says so, with the first wrong word, and nothing is touched.
    ensures usage { (index : ℕ) → result ≡ Status.Usage index →
        IsWrongAt IsCommand (texts words.now) index }
    ensures only_usage { (index : ℕ) → IsWrongAt IsCommand (texts words.now) index →
        result ≡ Status.Usage index }
    ensures untouched { (index : ℕ) → result ≡ Status.Usage index → (port.new ≡ port.old) ×
        (shelf.new ≡ shelf.old) }
    // A fault is answered only where its count rose.
    ensures causes { (command : Command) → Asks command (texts words.now) → HasCauses command result
        (faults (P.read_faults port.old) (P.write_faults port.old) (H.faults shelf.old))
        (faults (P.read_faults port.new) (P.write_faults port.new) (H.faults shelf.new)) }
    // Each command does what it promises.
    ensures promise { IsTrue (P.tells port.old) → (command : Command) →
        Asks command (texts words.now) → Promises command limit result
        (moment (P.history port.old) (P.left port.old) (P.read_faults port.old)
        (P.write_faults port.old))
        (moment (P.history port.new) (P.left port.new) (P.read_faults port.new)
        (P.write_faults port.new)) }
    // `mux` writes the stream of its plan, or the first reason why it is not sent is the status.
    ensures sends { IsTrue (P.tells port.old) → IsTrue (H.tells shelf.old) → (name : List ℕ) →
        texts words.now ≡ mux_words name → Muxes (H.file shelf.old) name result
        (moment (P.history port.old) (P.left port.old) (P.read_faults port.old)
        (P.write_faults port.old))
        (moment (P.history port.new) (P.left port.new) (P.read_faults port.new)
        (P.write_faults port.new)) }
    // `trial` writes the line of its plan and its list, or the first reason why there is none is the status.
    ensures tries { IsTrue (P.tells port.old) → IsTrue (H.tells shelf.old) →
        (plan list : List ℕ) → texts words.now ≡ trial_words plan list →
        Trials (H.file shelf.old) plan list result
        (moment (P.history port.old) (P.left port.old) (P.read_faults port.old)
        (P.write_faults port.old))
        (moment (P.history port.new) (P.left port.new) (P.read_faults port.new)
        (P.write_faults port.new)) }
    // `pace` writes the stream of its plan over the paced cast, or the first reason why it is not sent is the status.
    ensures paces { IsTrue (P.tells port.old) → IsTrue (H.tells shelf.old) →
        (name : List ℕ) (step : ℕ) → 1 ≤ step → step < 2 ^ 24 → texts words.now ≡ pace_words name step →
        Paces (H.file shelf.old) name step result
        (moment (P.history port.old) (P.left port.old) (P.read_faults port.old)
        (P.write_faults port.old))
        (moment (P.history port.new) (P.left port.new) (P.read_faults port.new)
        (P.write_faults port.new)) }
    // Of a near delivery of a programme `take` writes exactly the units whose packets and one naming table survived.
    ensures gives_back { IsTrue (P.tells port.old) → (options : TakeOptions) →
        Asks (Command.Take options) (texts words.now) →
        GivesBack (config_of options) limit result
        (moment (P.history port.old) (P.left port.old) (P.read_faults port.old)
        (P.write_faults port.old))
        (moment (P.history port.new) (P.left port.new) (P.read_faults port.new)
        (P.write_faults port.new)) }
{
    match command_of(words) {
        Ok(Command::List) => list_within(alloc, port, limit),
        Ok(Command::Peak { flow, params }) => peak_within(alloc, port, flow, params, limit),
        Ok(Command::Take(options)) => {
            take_gives_back();
            take_within(alloc, port, configured(&options), limit)
        }
        Ok(Command::Mux) => mux_within(alloc, words[1].as_str(), port, shelf),
        Ok(Command::Trial) => trial_within(
            alloc,
            words[1].as_str(),
            words[2].as_str(),
            port,
            shelf,
        ),
        Ok(Command::Make { seed }) => make_within(alloc, seed, port),
        Ok(Command::Expand) => expand_within(alloc, port, limit),
        Ok(
            Command::Squeeze {
                context,
                full_every,
            },
        ) => squeeze_within(alloc, port, context, full_every, limit),
        Ok(Command::Pace { step }) => pace_within(alloc, words[1].as_str(), step, port, shelf),
        Err(index) => Status::Usage { index },
    }
}

/// Does what the words ask, over a port and a shelf, and reads at most 2^40 bytes and one more.
pub fn run<P: Port, H: Shelf>(
    alloc: Global,
    words: &[String],
    port: &mut P,
    shelf: &mut H,
) -> Status
    // If and only if the words are no command the status says so, with the first wrong word, and nothing is touched.
    ensures usage { (index : ℕ) → result ≡ Status.Usage index →
        IsWrongAt IsCommand (texts words.now) index }
    ensures only_usage { (index : ℕ) → IsWrongAt IsCommand (texts words.now) index →
        result ≡ Status.Usage index }
    ensures untouched { (index : ℕ) → result ≡ Status.Usage index → (port.new ≡ port.old) ×
        (shelf.new ≡ shelf.old) }
    // A fault is answered only where its count rose.
    ensures causes { (command : Command) → Asks command (texts words.now) → HasCauses command result
        (faults (P.read_faults port.old) (P.write_faults port.old) (H.faults shelf.old))
        (faults (P.read_faults port.new) (P.write_faults port.new) (H.faults shelf.new)) }
    // Each command does what it promises.
    ensures promise { IsTrue (P.tells port.old) → (command : Command) →
        Asks command (texts words.now) → Promises command (2 ^ 40) result
        (moment (P.history port.old) (P.left port.old) (P.read_faults port.old)
        (P.write_faults port.old))
        (moment (P.history port.new) (P.left port.new) (P.read_faults port.new)
        (P.write_faults port.new)) }
    // `mux` writes the stream of its plan, or the first reason why it is not sent is the status.
    ensures sends { IsTrue (P.tells port.old) → IsTrue (H.tells shelf.old) → (name : List ℕ) →
        texts words.now ≡ mux_words name → Muxes (H.file shelf.old) name result
        (moment (P.history port.old) (P.left port.old) (P.read_faults port.old)
        (P.write_faults port.old))
        (moment (P.history port.new) (P.left port.new) (P.read_faults port.new)
        (P.write_faults port.new)) }
    // `trial` writes the line of its plan and its list, or the first reason why there is none is the status.
    ensures tries { IsTrue (P.tells port.old) → IsTrue (H.tells shelf.old) →
        (plan list : List ℕ) → texts words.now ≡ trial_words plan list →
        Trials (H.file shelf.old) plan list result
        (moment (P.history port.old) (P.left port.old) (P.read_faults port.old)
        (P.write_faults port.old))
        (moment (P.history port.new) (P.left port.new) (P.read_faults port.new)
        (P.write_faults port.new)) }
    // `pace` writes the stream of its plan over the paced cast, or the first reason why it is not sent is the status.
    ensures paces { IsTrue (P.tells port.old) → IsTrue (H.tells shelf.old) →
        (name : List ℕ) (step : ℕ) → 1 ≤ step → step < 2 ^ 24 → texts words.now ≡ pace_words name step →
        Paces (H.file shelf.old) name step result
        (moment (P.history port.old) (P.left port.old) (P.read_faults port.old)
        (P.write_faults port.old))
        (moment (P.history port.new) (P.left port.new) (P.read_faults port.new)
        (P.write_faults port.new)) }
    // Of a near delivery of a programme `take` writes exactly the units whose packets and one naming table survived.
    ensures gives_back { IsTrue (P.tells port.old) → (options : TakeOptions) →
        Asks (Command.Take options) (texts words.now) →
        GivesBack (config_of options) (2 ^ 40) result
        (moment (P.history port.old) (P.left port.old) (P.read_faults port.old)
        (P.write_faults port.old))
        (moment (P.history port.new) (P.left port.new) (P.read_faults port.new)
        (P.write_faults port.new)) }
{
    run_within(alloc, words, port, shelf, 1 << 40)
}
