//! The command `take` over an input that comes in pieces.
ghost use Rattle.std.specs.Prelude.{[], false};

use crate::run::run;
use crate::status::Status;
use crate::take_tests::{Units, Wanted, packets, records};
use crate::tests::words;
use crate::worked::LENGTH;
use mmt_io::{Fault, MemoryPort, MemoryShelf, Port};
use mmt_stream::BrokenKind;
use std::alloc::Global;
use std::test::Fail;

// A port in memory that gives its input in pieces of N bytes at most.
#[derive(Drop)]
struct Pieces {
    port: MemoryPort,
    size: usize,
}

impl Port for Pieces {
    ghost tells = { λ _. false };

    ghost history = { λ _. [] };

    ghost left = { λ _. [] };

    ghost read_faults = { λ p. p.port.read_faults };

    ghost write_faults = { λ p. p.port.write_faults };

    fn read(&mut self, buf: &mut [u8]) -> Result<usize, Fault> {
        let size = self.size.min(buf.len());
        self.port.read(&mut buf[..size])
    }

    fn write(&mut self, bytes: &[u8]) -> Result<(), Fault> {
        self.port.write(bytes)
    }

    fn note(&mut self, bytes: &[u8]) -> Result<(), Fault> {
        self.port.note(bytes)
    }
}

// Whether `take` does so with the input in pieces of N bytes.
fn takes(alloc: Global, input: &[u8], size: usize, wanted: Wanted<'_>) -> Result<bool, Fail> {
    let words = words(alloc, &["take"])?;
    let input = Vec::from_slice(alloc, input)?;
    let port = MemoryPort::new(alloc, input, 10_000, 10_000, Vec::new(alloc))?;
    let mut pieces = Pieces { port, size };
    let mut shelf = MemoryShelf::new(alloc, Vec::new(alloc));
    let status = run(alloc, &words, &mut pieces, &mut shelf);
    let records = records(alloc, wanted.units)?;
    Ok(
        status == wanted.status
            && pieces.port.written() == records.as_slice()
            && pieces.port.noted() == wanted.notes.as_bytes(),
    )
}

const WHOLE: Wanted<'static> = Wanted {
    status: Status::Done,
    units: Units::Both,
    notes: "units 2 bytes 3500 peak 3689\n",
};

const REPEATS: Wanted<'static> = Wanted {
    status: Status::Done,
    units: Units::Both,
    notes: "429 repeat\n2111 repeat\n5077 repeat\nunits 2 bytes 3500 peak 3689\n",
};

const CUT: Wanted<'static> = Wanted {
    status: Status::Broken {
        kind: BrokenKind::Cut,
        place: 3346,
    },
    units: Units::First,
    notes: "units 1 bytes 3000 peak 3167\n",
};

#[test]
fn takes_the_same_in_any_pieces(rt: HostRuntime) -> Result<(), Fail> {
    let alloc = rt.alloc();
    let all = packets(alloc, &[0, 1, 2, 3, 4, 5])?;
    let repeats = packets(alloc, &[0, 1, 4, 4, 2, 2, 3, 3, 5])?;
    let cut = all.get(..LENGTH - 1).ok_or("short")?;
    for size in [1, 7, 4096] {
        assert!(rt; takes(alloc, &all, size, WHOLE)?, "whole by {size}");
        assert!(rt; takes(alloc, &repeats, size, REPEATS)?, "repeats by {size}");
        assert!(rt; takes(alloc, cut, size, CUT)?, "cut by {size}");
    }
    Ok(())
}
