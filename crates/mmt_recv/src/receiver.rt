//! The receiver.

ghost use Rattle.std.specs.Prelude.{◌≡◌, ◌<◌, ◌≤◌, ◌^◌, ◌+◌, length, IsTrue, IsErrOf, IfOk, OnOk};
ghost use Rattle.mmt_io.specs.Port.{OnlySends, Rose};
ghost use Rattle.mmt_packet.specs.Spelling.{view as mmtp_of, Fits as MmtpFits};
ghost use Rattle.mmt_recv.specs.Receiving.{IsBounded, Losses, with_outcome};

use crate::advancing::advance_to;
use crate::keeping::let_go;
use crate::summary::{Ended, Summary, Tuned};
use crate::taking::{Outcome, take_packet};
use mmt_base::{OutOfMemory, advance};
use mmt_hear::Hearer;
use mmt_io::Port;
use mmt_naming::By;
use mmt_output::{Handed, Untold};
use mmt_packet::Packet;
use mmt_pool::Pool;
use mmt_runs::Runs;
use mmt_times::Names;
use mmt_tune::Config;
use std::alloc::Global;
use std::marker::Model;

#[cfg(test)]
mod inside;

/// Receives a stream, TLV packet by TLV packet: keeps packets within the window and the bound, learns
/// the times of MPUs from tables, and writes the record of each whole named media unit once the clock
/// passes its due tick.
#[derive(Drop)]
pub struct Receiver {
    alloc: Global,
    config: Config,
    hearer: Hearer,
    tuned: Option<Tuned>,
    pool: Pool,
    names: Names,
    runs: Runs,
    // In it a message in parts is joined: at most 131,072 bytes.
    message: Vec<u8>,
    counts: Summary,
}

impl Model for Receiver {
    ghost use Rattle.std.specs.Prelude.{◌≡◌, ◌≤◌, ◌^◌, length};
    ghost use Rattle.mmt_pool.specs.Holding.{held};
    ghost use Rattle.mmt_runs.specs.Told.{IsTold};
    ghost use Rattle.mmt_recv.specs.Receiving.{State};

    ghost Value = { State };

    ghost view = { λ r. record {
      config = r.config;
      headers = r.hearer;
      tuned = r.tuned;
      pool = r.pool;
      names = r.names;
      handed = record { units = r.counts.units; bytes = r.counts.bytes };
      losses = record { late = r.counts.late; repeat = r.counts.repeat; full = r.counts.full };
    } };

    ghost invariant = { λ r. IsTold r.runs r.pool.kept r.names × (1 ≤ r.config.timescale) × (r.pool.bound ≡ r.config.bound)
        × (held r.pool.kept ≤ r.config.bound) × (length r.names.entries ≤ 1024)
        × (length r.message.items ≤ 2 ^ 17) };
}

// The counts once more was handed out and a packet had its outcome.
fn count(counts: Summary, handed: Handed, outcome: Outcome) -> Summary
    ensures handed { (record { units = result.units; bytes = result.bytes } ≡
        handed_more (record { units = counts.units; bytes = counts.bytes }) handed) }
    ensures losses { (record { late = result.late; repeat = result.repeat; full = result.full } ≡
        with_outcome (answered outcome) (record { late = counts.late; repeat = counts.repeat; full = counts.full })) }
{
    let counts = Summary {
        units: counts.units.saturating_add(handed.units),
        bytes: counts.bytes.saturating_add(handed.bytes),
        ..counts
    };
    match outcome {
        Outcome::Late => Summary {
            late: counts.late.saturating_add(1),
            ..counts
        },
        Outcome::Repeat => Summary {
            repeat: counts.repeat.saturating_add(1),
            ..counts
        },
        Outcome::Full => Summary {
            full: counts.full.saturating_add(1),
            ..counts
        },
        Outcome::Unopened => counts,
        Outcome::Stored => counts,
    }
}

ghost use Rattle.mmt_recv.specs.Receiving.{handed_more};
ghost use Rattle.mmt_recv.specs.Taking.{answered, heard_packet, packet_at};

// Why a receiver ends where a note was not told.
fn ended(untold: Untold) -> Ended
    ensures write { result ≡ Ended.WriteFault → untold ≡ Untold.WriteFault }
{
    match untold {
        Untold::WriteFault => Ended::WriteFault,
        Untold::OutOfMemory => Ended::OutOfMemory,
    }
}

ghost use Rattle.std.specs.Prelude.{Some, None, List, ◌∷◌};
ghost use Rattle.mmt_model.specs.declared.programmes.Params.{Params as Values};
ghost use Rattle.mmt_model.specs.Packets.{Heard as HeardPacket};
ghost use Rattle.mmt_io.specs.Output.{Put};
ghost use Rattle.mmt_output.specs.Records.{records};
ghost use Rattle.mmt_model.specs.Sessions.{before_of, clock_of};
ghost use Rattle.mmt_recv.specs.Noting.{lines_of, tuned_notes};
ghost use Rattle.mmt_recv.specs.Session.{handed_of};
ghost use Rattle.mmt_recv.specs.Written.{HasWritten};

impl Receiver {
    ghost use Rattle.mmt_recv.specs.Receiving.{Holds};

    // Takes a heard packet at a place, from the one that tunes on.
    fn take_heard<P: Port>(
        &mut self,
        port: &mut P,
        place: u64,
        packet: &Packet<'_>,
        tuned: Tuned,
    ) -> Result<(), Ended>
        requires fits { MmtpFits (mmtp_of packet.now) }
        requires place { place < 2 ^ 63 + 2 ^ 17 }
        requires short { length packet.now.payload.now < 2 ^ 16 }
        ensures config { self.new.config ≡ self.old.config }
        ensures headers { self.new.headers ≡ self.old.headers }
        ensures tuned { (session : List HeardPacket) →
            tuned.clock.0 ≡ before_of (heard_packet packet.now) session →
            OnOk result (self.new.tuned ≡ Some (record {
              params = tuned.params;
              clock = record { 0 = clock_of (heard_packet packet.now ∷ session) };
            })) }
        ensures holds { (session : List HeardPacket) → Holds self.old session tuned.params →
            tuned.clock.0 ≡ before_of (heard_packet packet.now) session →
            OnOk result (Holds self.new (heard_packet packet.now ∷ session) tuned.params) }
        ensures bounded { IsBounded self.new }
        ensures sends { OnlySends P.tells P.left P.read_faults P.write_faults port.old port.new }
        ensures cause { IsErrOf result Ended.WriteFault → Rose (P.write_faults port.old) (P.write_faults port.new) }
        ensures put { IsTrue (P.tells port.old) → (session : List HeardPacket) →
            Holds self.old session tuned.params → tuned.clock.0 ≡ before_of (heard_packet packet.now) session →
            Put (P.history port.old) (P.history port.new) (record {
              written = records (handed_of self.old.config tuned.params (heard_packet packet.now) session);
              noted = lines_of (tuned_notes self.old.config tuned.params session (packet_at place packet.now));
            }) result }
        ensures written { IsTrue (P.tells port.old) → (session : List HeardPacket) →
            Holds self.old session tuned.params → tuned.clock.0 ≡ before_of (heard_packet packet.now) session →
            IsErrOf result Ended.OutOfMemory →
            HasWritten (P.history port.old) (P.history port.new)
            (records (handed_of self.old.config tuned.params (heard_packet packet.now) session)) }
    {
        let clock = advance(tuned.clock, packet.time);
        let handed = match advance_to(
            port,
            &mut self.pool,
            &mut self.names,
            &mut self.runs,
            tuned.clock,
            clock,
            tuned.params.window,
        ) {
            Ok(handed) => handed,
            Err(_) => return Err(Ended::WriteFault),
        };
        let by = By {
            alloc: self.alloc,
            place,
            timescale: self.config.timescale,
            tuned: tuned.params,
            clock,
        };
        let outcome = match take_packet(
            port,
            &mut self.pool,
            &mut self.names,
            &mut self.runs,
            &mut self.message,
            &by,
            packet,
        ) {
            Ok(outcome) => outcome,
            Err(untold) => {
                let_go(&mut self.pool, &self.runs, &self.names);
                return Err(ended(untold));
            }
        };
        self.tuned = Some(Tuned {
            params: tuned.params,
            clock,
        });
        self.counts = count(self.counts, handed, outcome);
        Ok(())
    }

    // Takes a heard packet at a place before tuning: it tunes, or something may be noted of it.
    fn take_untuned<P: Port>(
        &mut self,
        port: &mut P,
        place: u64,
        packet: &Packet<'_>,
    ) -> Result<(), Ended>
        requires untuned { self.old.tuned ≡ None }
        requires fits { MmtpFits (mmtp_of packet.now) }
        requires place { place < 2 ^ 63 + 2 ^ 17 }
        requires short { length packet.now.payload.now < 2 ^ 16 }
        ensures config { self.new.config ≡ self.old.config }
        ensures headers { self.new.headers ≡ self.old.headers }
        ensures over { (hs : List HeardAt) → IsOver self.old hs →
            OnOk result (IsOver self.new (packet_at place packet.now ∷ hs)) }
        ensures bounded { IsBounded self.new }
        ensures sends { OnlySends P.tells P.left P.read_faults P.write_faults port.old port.new }
        ensures cause { IsErrOf result Ended.WriteFault → Rose (P.write_faults port.old) (P.write_faults port.new) }
        ensures put { IsTrue (P.tells port.old) → (hs : List HeardAt) → IsOver self.old hs →
            Put (P.history port.old) (P.history port.new) (heard_more self.old.config hs (packet_at place packet.now)) result }
        ensures written { IsTrue (P.tells port.old) → (hs : List HeardAt) → IsOver self.old hs →
            IsErrOf result Ended.OutOfMemory →
            HasWritten (P.history port.old) (P.history port.new)
            (heard_more self.old.config hs (packet_at place packet.now)).written }
    {
        match tuning_values(&self.config, packet) {
            Some(params) => {
                let tuned = Tuned {
                    params,
                    clock: packet.time,
                };
                self.take_heard(port, place, packet, tuned)
            }
            None => {
                match note_untuned(self.alloc, port, place, self.config.bound, packet) {
                    Ok(()) => {}
                    Err(untold) => return Err(ended(untold)),
                }
                Ok(())
            }
        }
    }

    // Takes a heard packet at a place, before tuning or from the packet that tunes on.
    fn take_any<P: Port>(
        &mut self,
        port: &mut P,
        place: u64,
        packet: &Packet<'_>,
    ) -> Result<(), Ended>
        requires fits { MmtpFits (mmtp_of packet.now) }
        requires place { place < 2 ^ 63 + 2 ^ 17 }
        requires short { length packet.now.payload.now < 2 ^ 16 }
        ensures config { self.new.config ≡ self.old.config }
        ensures headers { self.new.headers ≡ self.old.headers }
        ensures over { (hs : List HeardAt) → IsOver self.old hs →
            OnOk result (IsOver self.new (packet_at place packet.now ∷ hs)) }
        ensures bounded { IsBounded self.new }
        ensures sends { OnlySends P.tells P.left P.read_faults P.write_faults port.old port.new }
        ensures cause { IsErrOf result Ended.WriteFault → Rose (P.write_faults port.old) (P.write_faults port.new) }
        ensures put { IsTrue (P.tells port.old) → (hs : List HeardAt) → IsOver self.old hs →
            Put (P.history port.old) (P.history port.new) (heard_more self.old.config hs (packet_at place packet.now)) result }
        ensures written { IsTrue (P.tells port.old) → (hs : List HeardAt) → IsOver self.old hs →
            IsErrOf result Ended.OutOfMemory →
            HasWritten (P.history port.old) (P.history port.new)
            (heard_more self.old.config hs (packet_at place packet.now)).written }
    {
        match self.tuned {
            Some(tuned) => self.take_heard(port, place, packet, tuned),
            None => self.take_untuned(port, place, packet),
        }
    }
}

ghost use Rattle.mmt_tune.specs.Tuning.{HeardAt};
ghost use Rattle.mmt_recv.specs.Receiving.{IsOver, heard_more};
ghost use Rattle.std.specs.Prelude.{[], IsErr, ◌-◌};
ghost use Rattle.mmt_tlv.specs.Framing.{Packet as Tlv, Fits, spelling};
ghost use Rattle.mmt_tlv.specs.Cutting.{IsPacket};
ghost use Rattle.mmt_tune.specs.Tuning.{Placed};
ghost use Rattle.mmt_io.specs.Output.{only_written};
ghost use Rattle.mmt_pool.specs.Holding.{held as held_bytes};
ghost use Rattle.mmt_recv.specs.Noting.{notes_of_packet};
ghost use Rattle.mmt_recv.specs.Places.{LieBetween};
ghost use Rattle.mmt_recv.specs.Receiving.{Stands, more, last_units, summary_of};

use crate::summary::Failed;
use crate::untuned::note_untuned;
use mmt_hear::Heard;
use mmt_output::{Note, hand_out, tell};
use mmt_tune::tuning_values;

impl Receiver {
    /// A receiver at the start of a stream. It takes the room for the headers of all contexts and for
    /// 1,024 live entries. The bound is at least 1 and at most 1,073,741,824 bytes, the sample base
    /// is 0 or 1, and the timescale at least 1.
    pub fn new(alloc: Global, config: Config) -> Result<Receiver, OutOfMemory>
        requires bound { config.bound ≤ 2 ^ 30 }
        requires base { config.sample_base ≤ 1 }
        requires timescale { 1 ≤ config.timescale }
        ensures stands { IfOk result (λ r. Stands r []) }
        ensures bounded { IfOk result IsBounded }
        ensures config { IfOk result (λ r. r.config ≡ config) }
    {
        let hearer = Hearer::new(alloc)?;
        let pool = Pool::new(alloc, config.bound)?;
        let names = Names::new(alloc, config.sample_base)?;
        Ok(Receiver {
            alloc,
            config,
            hearer,
            tuned: None,
            pool,
            names,
            runs: Runs::new(alloc),
            message: Vec::new(alloc),
            counts: Summary {
                units: 0,
                bytes: 0,
                peak: 0,
                late: 0,
                repeat: 0,
                full: 0,
            },
        })
    }

    /// Receives the TLV packet that begins at a place, counted in bytes from the start of the stream,
    /// `tlv` being the whole packet: notes a refusal, tunes, or takes the clock on, writes the records
    /// of the units that are due then, and keeps the packet and learns what its tables name.
    ///
    /// # Errors
    ///
    /// The port failed, or there was no memory: the receiver is used no more then, and what it kept may
    /// be gone. What was written and noted is a prefix of what belongs to the packet. Out of memory,
    /// all records that its clock made due were written.
    pub fn receive<P: Port>(&mut self, port: &mut P, place: u64, tlv: &[u8]) -> Result<(), Ended>
        requires whole { IsPacket tlv.now }
        requires bound { place < 2 ^ 63 }
        ensures config { self.new.config ≡ self.old.config }
        // It stands for the stream with the packet at its end.
        ensures stands { (ps : List Placed) (packet : Tlv) → Stands self.old ps → Fits packet →
            tlv.now ≡ spelling packet →
            OnOk result (Stands self.new (record { place = place; packet = packet } ∷ ps)) }
        // Its payload bytes are at most the bound, and at most 1,024 entries live.
        ensures bounded { IsBounded self.new }
        // Each note lies at the packet's first byte or after it, and at most directly after its last.
        ensures places { (ps : List Placed) (packet : Tlv) → Stands self.old ps → Fits packet →
            tlv.now ≡ spelling packet →
            LieBetween place (place + length tlv.now)
            (notes_of_packet self.old.config ps (record { place = place; packet = packet })) }
        ensures sends { OnlySends P.tells P.left P.read_faults P.write_faults port.old port.new }
        ensures cause { IsErrOf result Ended.WriteFault → Rose (P.write_faults port.old) (P.write_faults port.new) }
        // What goes out is exactly what belongs to the packet, or a prefix of it.
        ensures put { IsTrue (P.tells port.old) → (ps : List Placed) (packet : Tlv) → Stands self.old ps →
            Fits packet → tlv.now ≡ spelling packet →
            Put (P.history port.old) (P.history port.new)
            (more self.old.config ps (record { place = place; packet = packet })) result }
        // Out of memory, all records that the packet's clock made due were written.
        ensures written { IsTrue (P.tells port.old) → (ps : List Placed) (packet : Tlv) → Stands self.old ps →
            Fits packet → tlv.now ≡ spelling packet → IsErrOf result Ended.OutOfMemory →
            HasWritten (P.history port.old) (P.history port.new)
            (more self.old.config ps (record { place = place; packet = packet })).written }
    {
        match self.hearer.hear(&self.config.flow, tlv) {
            Heard::Packet { packet, from } => self.take_any(port, place + from as u64, &packet),
            Heard::NotOurs => Ok(()),
            Heard::Refused { at, why } => {
                match tell(self.alloc, port, place + at as u64, &Note::Hearing(why)) {
                    Ok(()) => {}
                    Err(untold) => return Err(ended(untold)),
                }
                Ok(())
            }
        }
    }

    /// Receives a packet as `receive` does, and gives the receiver back.
    ///
    /// # Errors
    ///
    /// The port failed, or there was no memory: the receiver is gone. What was written and noted is a
    /// prefix of what belongs to the packet. Out of memory, all records that its clock made due were
    /// written.
    pub fn push<P: Port>(mut self, port: &mut P, place: u64, tlv: &[u8]) -> Result<Receiver, Ended>
        requires whole { IsPacket tlv.now }
        requires bound { place < 2 ^ 63 }
        ensures config { IfOk result (λ next. next.config ≡ self.config) }
        // It stands for the stream with the packet at its end.
        ensures stands { (ps : List Placed) (packet : Tlv) → Stands self ps → Fits packet → tlv.now ≡ spelling packet →
            IfOk result (λ next. Stands next (record { place = place; packet = packet } ∷ ps)) }
        // Its payload bytes are at most the bound, and at most 1,024 entries live.
        ensures bounded { IfOk result IsBounded }
        // Each note lies at the packet's first byte or after it, and at most directly after its last.
        ensures places { (ps : List Placed) (packet : Tlv) → Stands self ps → Fits packet → tlv.now ≡ spelling packet →
            LieBetween place (place + length tlv.now) (notes_of_packet self.config ps (record { place = place; packet = packet })) }
        ensures sends { OnlySends P.tells P.left P.read_faults P.write_faults port.old port.new }
        ensures cause { IsErrOf result Ended.WriteFault → Rose (P.write_faults port.old) (P.write_faults port.new) }
        // What goes out is exactly what belongs to the packet, or a prefix of it.
        ensures put { IsTrue (P.tells port.old) → (ps : List Placed) (packet : Tlv) → Stands self ps →
            Fits packet → tlv.now ≡ spelling packet →
            Put (P.history port.old) (P.history port.new) (more self.config ps (record { place = place; packet = packet })) result }
        // Out of memory, all records that the packet's clock made due were written.
        ensures written { IsTrue (P.tells port.old) → (ps : List Placed) (packet : Tlv) → Stands self ps →
            Fits packet → tlv.now ≡ spelling packet → IsErrOf result Ended.OutOfMemory →
            HasWritten (P.history port.old) (P.history port.new)
            (more self.config ps (record { place = place; packet = packet })).written }
    {
        match self.receive(port, place, tlv) {
            Ok(()) => Ok(self),
            Err(ended) => Err(ended),
        }
    }

    /// How many payload bytes are kept: never more than the bound.
    pub fn held(&self) -> u32
        ensures sum { result ≡ held_bytes self.now.pool.kept }
        ensures bounded { result ≤ self.now.pool.bound }
    {
        self.pool.held()
    }
}

ghost use Rattle.mmt_base.specs.Ticks.{plus};
ghost use Rattle.mmt_output.specs.Records.{amount_of};

use mmt_base::Tick;

// The tick that is furthest after a clock.
fn last_after(clock: Tick) -> Tick
    ensures tick { result.0 ≡ plus clock.0 (2 ^ 31 - 1) }
    ensures small { clock.0 < 2 ^ 32 }
{
    clock.plus(2_147_483_647)
}

impl Receiver {
    // Hands out what is still to be due.
    fn hand_out_rest<P: Port>(&self, port: &mut P) -> Result<Handed, Failed>
        ensures sends { OnlySends P.tells P.left P.read_faults P.write_faults port.old port.new }
        ensures cause { IsErr result → Rose (P.write_faults port.old) (P.write_faults port.new) }
        ensures put { IsTrue (P.tells port.old) → (ps : List Placed) → Stands self.now ps →
            Put (P.history port.old) (P.history port.new) (only_written (records (last_units self.now.config ps))) result }
        ensures counts { (ps : List Placed) → Stands self.now ps →
            IfOk result (λ handed. handed ≡ amount_of (last_units self.now.config ps)) }
    {
        match self.tuned {
            None => Ok(Handed::nothing()),
            Some(tuned) => {
                let to = last_after(tuned.clock);
                match hand_out(port, &self.pool, &self.names, &self.runs, tuned.clock, to) {
                    Ok(handed) => Ok(handed),
                    Err(_) => Err(Failed),
                }
            }
        }
    }

    /// Ends the stream: writes the records of all whole named units that are still to be due, in their
    /// order, and says what was counted. It notes nothing, and takes no memory.
    ///
    /// # Errors
    ///
    /// The port failed, and wrote a prefix of the records.
    pub fn finish<P: Port>(self, port: &mut P) -> Result<Summary, Failed>
        ensures sends { OnlySends P.tells P.left P.read_faults P.write_faults port.old port.new }
        ensures cause { IsErr result → Rose (P.write_faults port.old) (P.write_faults port.new) }
        ensures put { IsTrue (P.tells port.old) → (ps : List Placed) → Stands self ps →
            Put (P.history port.old) (P.history port.new) (only_written (records (last_units self.config ps))) result }
        ensures summary { (ps : List Placed) → Stands self ps → IfOk result (λ s. s ≡ summary_of self.config ps) }
    {
        let handed = match self.hand_out_rest(port) {
            Ok(handed) => handed,
            Err(failed) => return Err(failed),
        };
        Ok(Summary {
            peak: self.pool.peak(),
            ..count(self.counts, handed, Outcome::Stored)
        })
    }
}
