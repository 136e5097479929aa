//! The notes of a receiver, on a port's channel for notes.

ghost use Rattle.std.specs.Prelude.{◌≡◌, ◌≤◌, IfOk, IsTrue, IsErrOf};
ghost use Rattle.mmt_io.specs.Port.{OnlySends, Rose};
ghost use Rattle.mmt_output.specs.Notes.{note_text};
ghost use Rattle.mmt_io.specs.Output.{Notes};

use crate::notes::Note;
use crate::texts::{NOTE, put_note};
use itoa::Buffer;
use mmt_base::OutOfMemory;
use mmt_io::Port;
use std::alloc::Global;

/// Why a note was not told.
#[derive(Clone, Copy, Debug, PartialEq, Eq)]
pub enum Untold {
    /// The port failed.
    WriteFault,
    /// There was no memory for the text.
    OutOfMemory,
}

// The line of a note.
fn line_of(alloc: Global, place: u64, note: Note) -> Result<Vec<u8>, OutOfMemory>
    ensures { IfOk result (λ line. line.items ≡ note_text place note) }
{
    let mut line = Vec::with_capacity(alloc, NOTE)?;
    put_note(&mut Buffer::new(), &mut line, place, note);
    Ok(line)
}

/// Notes something about the packet at a place, counted in bytes from the start of the stream: one
/// line, by one call of the port.
///
/// # Errors
///
/// The port failed, and noted a prefix of the line, or there is no memory for the line, and nothing
/// was noted.
pub fn tell<P: Port>(alloc: Global, port: &mut P, place: u64, note: &Note) -> Result<(), Untold>
    ensures sends { OnlySends P.tells P.left P.read_faults P.write_faults port.old port.new }
    ensures cause { IsErrOf result Untold.WriteFault → Rose (P.write_faults port.old) (P.write_faults port.new) }
    ensures memory { IsErrOf result Untold.OutOfMemory → port.new ≡ port.old }
    ensures put { Notes P.tells P.history port.old port.new (note_text place note.now) result }
{
    let line = match line_of(alloc, place, *note) {
        Ok(line) => line,
        Err(_) => return Err(Untold::OutOfMemory),
    };
    match port.note(&line) {
        Ok(()) => Ok(()),
        Err(_) => Err(Untold::WriteFault),
    }
}
