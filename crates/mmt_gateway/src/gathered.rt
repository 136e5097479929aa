//! What a gateway has gathered for the port.

ghost use Rattle.std.specs.Prelude.{◌≡◌, IsTrue, IsErrOf};
ghost use Rattle.mmt_io.specs.Port.{OnlySends, Rose};
ghost use Rattle.mmt_io.specs.Output.{nothing, only_written, only_noted, Put};
ghost use Rattle.mmt_gateway.specs.Gathering.{of_gathered};

use mmt_io::Port;
use mmt_stream::Halt;
use std::alloc::Global;

/// Bytes to be written and bytes to be noted.
#[derive(Drop)]
pub struct Gathered {
    pub out: Vec<u8>,
    pub notes: Vec<u8>,
}

impl Gathered {
    /// Nothing.
    pub fn new(alloc: Global) -> Gathered
        ensures { of_gathered result ≡ nothing }
    {
        Gathered {
            out: Vec::new(alloc),
            notes: Vec::new(alloc),
        }
    }

    // Writes the bytes by one call of the port, if there are any, and otherwise by none.
    fn write<P: Port>(&self, port: &mut P) -> Result<(), Halt>
        ensures memory { IsErrOf result Halt.OutOfMemory → ⊥ }
        ensures sends { OnlySends P.tells P.left P.read_faults P.write_faults port.old port.new }
        ensures cause { IsErrOf result Halt.WriteFault →
            Rose (P.write_faults port.old) (P.write_faults port.new) }
        ensures put { IsTrue (P.tells port.old) → Put (P.history port.old) (P.history port.new)
            (only_written self.now.out.items) result }
    {
        if self.out.is_empty() {
            return Ok(());
        }
        match port.write(&self.out) {
            Ok(()) => Ok(()),
            Err(_) => Err(Halt::WriteFault),
        }
    }

    // Notes the bytes by one call of the port, if there are any, and otherwise by none.
    fn note<P: Port>(&self, port: &mut P) -> Result<(), Halt>
        ensures memory { IsErrOf result Halt.OutOfMemory → ⊥ }
        ensures sends { OnlySends P.tells P.left P.read_faults P.write_faults port.old port.new }
        ensures cause { IsErrOf result Halt.WriteFault →
            Rose (P.write_faults port.old) (P.write_faults port.new) }
        ensures put { IsTrue (P.tells port.old) → Put (P.history port.old) (P.history port.new)
            (only_noted self.now.notes.items) result }
    {
        if self.notes.is_empty() {
            return Ok(());
        }
        match port.note(&self.notes) {
            Ok(()) => Ok(()),
            Err(_) => Err(Halt::WriteFault),
        }
    }

    /// Puts all of it out, by one write and one note at most. It takes no memory.
    ///
    /// # Errors
    ///
    /// The port failed, and prefixes of both went out.
    pub fn send<P: Port>(&self, port: &mut P) -> Result<(), Halt>
        ensures memory { IsErrOf result Halt.OutOfMemory → ⊥ }
        ensures sends { OnlySends P.tells P.left P.read_faults P.write_faults port.old port.new }
        ensures cause { IsErrOf result Halt.WriteFault →
            Rose (P.write_faults port.old) (P.write_faults port.new) }
        ensures put { IsTrue (P.tells port.old) → Put (P.history port.old) (P.history port.new)
            (of_gathered self.now) result }
    {
        match self.write(port) {
            Ok(()) => {}
            Err(halt) => return Err(halt),
        }
        match self.note(port) {
            Ok(()) => Ok(()),
            Err(halt) => Err(halt),
        }
    }

    /// Lets go of all of it.
    pub fn clear(&mut self)
        ensures { of_gathered self.new ≡ nothing }
    {
        self.out.clear();
        self.notes.clear();
    }
}
