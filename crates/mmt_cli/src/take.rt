//! The command `take`: the media units of a stream.
ghost use Rattle.std.specs.Prelude.{◌≡◌, ◌≢◌, ℕ, ◌^◌, ◌≤◌, IsTrue};
ghost use Rattle.mmt_io.specs.Port.{Rose};
ghost use Rattle.mmt_cli.specs.Moments.{moment};
ghost use Rattle.mmt_cli.specs.Takes.{Takes, config_of};

use crate::status::Status;
use mmt_command::TakeOptions;
use mmt_io::Port;
use mmt_stream::stream;
use mmt_take::TakeCommand;
use mmt_tune::Config;
use std::alloc::Global;

/// What a receiver goes by that these options ask for.
pub fn configured(options: &TakeOptions) -> Config
    ensures { result ≡ config_of options.now }
{
    Config {
        bound: options.bound,
        flow: options.flow,
        sample_base: options.sample_base,
        timescale: options.timescale,
        assumed: options.assumed,
    }
}

/// Writes the records of the media units of a port's stream, notes what is refused, and notes one line at the end.
pub fn take_within<P: Port>(alloc: Global, port: &mut P, config: Config, limit: u64) -> Status
    requires limit { limit ≤ 2 ^ 40 }
    requires bound { config.bound ≤ 2 ^ 30 }
    requires base { config.sample_base ≤ 1 }
    requires timescale { 1 ≤ config.timescale }
    ensures no_usage { (index : ℕ) → result ≢ Status.Usage index }
    ensures read_fault { result ≡ Status.ReadFault →
        Rose (P.read_faults port.old) (P.read_faults port.new) }
    ensures write_fault { result ≡ Status.WriteFault →
        Rose (P.write_faults port.old) (P.write_faults port.new) }
    ensures takes { IsTrue (P.tells port.old) → Takes config limit result
        (moment (P.history port.old) (P.left port.old) (P.read_faults port.old)
        (P.write_faults port.old))
        (moment (P.history port.new) (P.left port.new) (P.read_faults port.new)
        (P.write_faults port.new)) }
{
    match TakeCommand::new(alloc, config) {
        Ok(command) => Status::from(stream(alloc, port, command, limit)),
        Err(_) => Status::OutOfMemory,
    }
}
