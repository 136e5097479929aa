//! A port that keeps nothing.

ghost use Rattle.std.specs.Prelude.{[], false};

use mmt_io::{Fault, Port};

/// A port without input that keeps nothing of what goes out, and whose calls never fail. It tells no bytes.
#[derive(Drop)]
pub struct Sink;

impl Port for Sink {
    ghost tells = { λ _. false };

    ghost history = { λ _. [] };

    ghost left = { λ _. [] };

    ghost read_faults = { λ _. 0 };

    ghost write_faults = { λ _. 0 };

    fn read(&mut self, _buf: &mut [u8]) -> Result<usize, Fault> {
        Ok(0)
    }

    fn write(&mut self, _bytes: &[u8]) -> Result<(), Fault> {
        Ok(())
    }

    fn note(&mut self, _bytes: &[u8]) -> Result<(), Fault> {
        Ok(())
    }
}
