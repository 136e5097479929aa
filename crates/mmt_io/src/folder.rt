//! A shelf over the files of the current folder, which tells no bytes.
ghost use Rattle.std.specs.Prelude.{◌≡◌, ◌≤◌, ◌<◌, None, false, length, IfSome, IsErrOf};
ghost use Rattle.std.specs.Io.{ReadsAtMost};
ghost use Rattle.mmt_io.specs.Port.{Rose, counted};
ghost use Rattle.mmt_io.specs.Shelf.{is_failed};

use crate::ahead::Ahead;
use crate::shelf::{Shelf, ShelfFault};
use std::fs::File;
use std::io::ErrorKind;
use std::marker::Model;

// How many files stay open.
const FILES: usize = 8;

// A file that is open, by the name that it was opened by, with the bytes of it that were read ahead.
#[derive(Drop)]
struct Opened {
    name: String,
    file: File,
    ahead: Ahead,
}

/// A shelf over the files of the current folder. The system resolves a name, so a name may lead to
/// another folder.
///
/// The eight files that were opened last stay open. Of each, bytes are read ahead, up to 65,536 at once
/// where a read goes on where the one before it ended, so that a read of a packet's bytes is mostly a copy.
/// A read of 65,536 bytes or more goes to the system by itself. Bytes that were read ahead are given as
/// they were then. Where the file ended is not kept: a read that comes to the end asks the system, so it
/// is short where the file has become shorter, and finds what was added. A fault in reading ahead is not
/// told; the bytes that are asked for are then read by themselves, and if this fails too the read fails.
///
/// What a signal interrupts is tried again. A name that no file can have is that of no file. Every other
/// error is a failure and is counted. Where there is no memory for the name or the bytes of a file, it is
/// read all the same, and closed again or not read ahead.
#[derive(Drop)]
pub struct RealShelf {
    rt: HostRuntime,
    opened: Vec<Opened>,
    // the place among them that the next file takes where they are eight
    next: usize,
    faults: u64,
}

impl Model for RealShelf {
    ghost use Rattle.std.specs.Prelude.{ℕ, ◌<◌};

    ghost Value = { ℕ };

    ghost view = { λ s. s.faults };

    ghost invariant = { λ s. s.next < 8 };
}

// The place of the file of a name among those that are open.
fn place_of(opened: &[Opened], name: &str) -> Option<usize>
    ensures { IfSome result (λ place. place < length opened.now) }
{
    for place in 0..opened.len() {
        if opened[place].name.as_str() == name {
            return Some(place);
        }
    }
    None
}

impl RealShelf {
    /// A shelf over the files of the current folder, of which no read has failed yet. It opens no file,
    /// and takes no memory.
    pub fn new(rt: HostRuntime) -> RealShelf
        ensures { result ≡ 0 }
    {
        RealShelf {
            rt,
            opened: Vec::new(rt.alloc()),
            next: 0,
            faults: 0,
        }
    }

    // Keeps a file open, in place of the one that was opened first where there are eight. Without memory
    // for it the file is closed again.
    fn keep(&mut self, opened: Opened)
        ensures { self.new ≡ self.old }
    {
        if self.next < self.opened.len() {
            let place = self.next;
            self.opened[place] = opened;
        } else if self.opened.push(opened).is_err() {
            return;
        }
        self.next = (self.next + 1) % FILES;
    }

    // Reads at a place of the file of a name. A file that is open stays so.
    fn receive(&mut self, name: &str, at: u64, buf: &mut [u8]) -> Result<usize, ShelfFault>
        ensures bound { ReadsAtMost result buf.new }
        ensures count { self.new ≡ self.old }
    {
        if let Some(place) = place_of(&self.opened, name) {
            let opened = &mut self.opened[place];
            return opened.ahead.read(&opened.file, at, buf);
        }
        let file = open(self.rt, name)?;
        let mut ahead = Ahead::new(self.rt.alloc());
        let result = ahead.read(&file, at, buf);
        if let Ok(name) = String::from_str(self.rt.alloc(), name) {
            self.keep(Opened { name, file, ahead });
        }
        result
    }
}

// Opens the file of a name. A folder on the way that is none, and a name that is too long or has a byte
// that no name has, say that there is no such file.
fn open(rt: HostRuntime, name: &str) -> Result<File, ShelfFault> {
    match File::open(&rt, name) {
        Ok(file) => Ok(file),
        Err(error) => Err(match error.kind() {
            ErrorKind::NotFound
            | ErrorKind::NotADirectory
            | ErrorKind::InvalidFilename
            | ErrorKind::InvalidInput => ShelfFault::Absent,
            _ => ShelfFault::Failed,
        }),
    }
}

impl Shelf for RealShelf {
    ghost tells = { λ _. false };

    ghost file = { λ _ _. None };

    ghost faults = { λ s. s };

    fn read_at(&mut self, name: &str, at: u64, buf: &mut [u8]) -> Result<usize, ShelfFault>
        ensures bound { ReadsAtMost result buf.new }
        ensures later { self.old ≤ self.new }
        ensures failed { IsErrOf result ShelfFault.Failed → Rose self.old self.new }
        ensures count { self.new ≡ counted (is_failed result) self.old }
    {
        let result = self.receive(name, at, buf);
        if result == Err(ShelfFault::Failed) {
            self.faults = self.faults.saturating_add(1);
        }
        result
    }
}
