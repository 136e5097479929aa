//! The command `list`: a line for each packet of a stream.
ghost use Rattle.std.specs.Prelude.{◌≡◌, ◌≢◌, ℕ, ◌^◌, ◌≤◌, [], IsTrue, IfOk};
ghost use Rattle.mmt_io.specs.Port.{Rose};
ghost use Rattle.mmt_model.specs.Delivery.{newest_first};
ghost use Rattle.mmt_hear.specs.Views.{HasHeard};
ghost use Rattle.mmt_cli.specs.Listing.{listing, Lists};
ghost use Rattle.mmt_cli.specs.Moments.{moment};

use crate::status::Status;
use mmt_base::OutOfMemory;
use mmt_io::Port;
use mmt_list::Lister;
use mmt_stream::{Consumer, Halt, stream};
use std::alloc::Global;

/// Writes a line for each packet, by one write for the packets of one read.
#[derive(Drop)]
pub struct ListCommand {
    lister: Lister,
    out: Vec<u8>,
}

impl ListCommand {
    /// The command at the start of a stream.
    pub fn new(alloc: Global) -> Result<ListCommand, OutOfMemory>
        ensures none { IfOk result (λ c. c.out.items ≡ []) }
        ensures heard { IfOk result (λ c. HasHeard [] c.lister) }
    {
        let lister = Lister::new(alloc)?;
        Ok(ListCommand {
            lister,
            out: Vec::new(alloc),
        })
    }
}

impl<P: Port> Consumer<P> for ListCommand {
    ghost use Rattle.mmt_cli.specs.ListingGrows.{listing_grows};

    ghost meaning = { λ _. listing };

    ghost stands = { λ c packets. HasHeard (newest_first packets) c.lister };

    ghost gathered = { λ c. record { written = c.out.items; noted = [] } };

    ghost grows = { λ _. listing_grows };

    fn push(mut self, _port: &mut P, place: u64, tlv: &[u8]) -> Result<Self, Halt> {
        match self.lister.line(&mut self.out, place, tlv) {
            Ok(()) => Ok(self),
            Err(_) => Err(Halt::OutOfMemory),
        }
    }

    fn settle(mut self, port: &mut P) -> Result<Self, Halt> {
        if self.out.is_empty() {
            return Ok(self);
        }
        match port.write(&self.out) {
            Ok(()) => {
                self.out.clear();
                Ok(self)
            }
            Err(_) => Err(Halt::WriteFault),
        }
    }

    fn finish(self, port: &mut P) -> Result<(), Halt> {
        if self.out.is_empty() {
            return Ok(());
        }
        match port.write(&self.out) {
            Ok(()) => Ok(()),
            Err(_) => Err(Halt::WriteFault),
        }
    }
}

/// Reads the stream of a port, and writes a line for each packet.
pub fn list_within<P: Port>(alloc: Global, port: &mut P, limit: u64) -> Status
    requires { limit ≤ 2 ^ 40 }
    ensures no_usage { (index : ℕ) → result ≢ Status.Usage index }
    ensures read_fault { result ≡ Status.ReadFault →
        Rose (P.read_faults port.old) (P.read_faults port.new) }
    ensures write_fault { result ≡ Status.WriteFault →
        Rose (P.write_faults port.old) (P.write_faults port.new) }
    ensures lists { IsTrue (P.tells port.old) → Lists limit result
        (moment (P.history port.old) (P.left port.old) (P.read_faults port.old)
        (P.write_faults port.old))
        (moment (P.history port.new) (P.left port.new) (P.read_faults port.new)
        (P.write_faults port.new)) }
{
    match ListCommand::new(alloc) {
        Ok(command) => Status::from(stream(alloc, port, command, limit)),
        Err(_) => Status::OutOfMemory,
    }
}
