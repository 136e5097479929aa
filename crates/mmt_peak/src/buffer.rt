//! A receiver's buffer that counts what becomes of packets.

ghost use Rattle.std.specs.Prelude.{◌≡◌, ℕ, ◌+◌, ◌<◌, ◌≤◌, ◌^◌, [], List, ◌∷◌, max, filter, length, IfOk, OnOk, None};
ghost use Rattle.mmt_base.specs.Ticks.{advance as advanced};
ghost use Rattle.mmt_packet.specs.Spelling.{view};
ghost use Rattle.mmt_pool.specs.Holding.{held, is_in_window, is_kept_kind};
ghost use Rattle.mmt_model.specs.Packets.{Heard};
ghost use Rattle.mmt_peak.specs.Peaking.{offered, is_offered as offers};

use crate::tally::{Counts, with_answer};
use mmt_base::{OutOfMemory, Tick, advance};
use mmt_model::Params;
use mmt_packet::{Kind, Packet};
use mmt_pool::Pool;
use std::alloc::Global;
use std::marker::Model;

// Takes out every packet whose timestamp plus the window is not after the clock.
fn expire(pool: &mut Pool, clock: Tick, window: u32)
    ensures kept { pool.new.kept ≡ filter (is_in_window clock.0 window) pool.old.kept }
    ensures bound { pool.new.bound ≡ pool.old.bound }
    ensures peak { pool.new.peak ≡ pool.old.peak }
    ensures held { held pool.new.kept ≤ pool.new.peak }
{
    'packets: while pool.expire_one(clock, window).is_some() {}
}

// Whether a packet is put into the buffer.
fn is_offered(packet: &Packet<'_>) -> bool
    ensures { result ≡ offers (view packet.now) }
{
    match packet.kind {
        Kind::Mpu | Kind::Signalling => !packet.payload.is_empty(),
        Kind::Generic => false,
    }
}

// The clock once a packet with this timestamp was heard.
fn clock_at(clock: Option<Tick>, time: Tick) -> Tick
    ensures { result.0 ≡ clock_with (tick_in clock) time.0 }
{
    match clock {
        None => time,
        Some(clock) => advance(clock, time),
    }
}

ghost use Rattle.mmt_peak.specs.Buffers.{clock_with};
ghost use Rattle.mmt_peak.specs.Views.{tick_in};

/// A receiver's buffer that takes heard packets one by one and counts what becomes of them.
#[derive(Drop)]
pub struct Buffer {
    params: Params,
    pool: Pool,
    clock: Option<Tick>,
    heard: u64,
    counts: Counts,
}

impl Model for Buffer {
    ghost use Rattle.mmt_peak.specs.Buffers.{BufferState};
    ghost use Rattle.mmt_peak.specs.Views.{tick_in, tally_in};

    ghost Value = { BufferState };

    ghost view = { λ b. record { params = b.params; pool = b.pool; clock = tick_in b.clock; heard = b.heard; tally = tally_in b.counts } };
}

impl Buffer {
    ghost use Rattle.mmt_peak.specs.Buffers.{HasTaken};

    /// An empty buffer for `params.bound` payload bytes, with a delay and a window in ticks.
    pub fn new(alloc: Global, params: Params) -> Result<Buffer, OutOfMemory>
        ensures params { IfOk result (λ b. b.params ≡ params) }
        ensures empty { IfOk result (λ b. HasTaken [] b) }
    {
        let pool = Pool::new(alloc, params.bound)?;
        let counts = Counts {
            stored: 0,
            late: 0,
            repeats: 0,
            full: 0,
        };
        Ok(Buffer {
            params,
            pool,
            clock: None,
            heard: 0,
            counts,
        })
    }

    /// Takes the next heard packet: the clock goes on, packets leave the window, and an MPU or
    /// signalling packet with a payload is stored, late, a repeat or without room. Where there is no
    /// memory the buffer is used no more.
    pub fn take(&mut self, packet: &Packet<'_>) -> Result<(), OutOfMemory>
        requires { length packet.now.payload.now < 2 ^ 16 }
        ensures params { self.new.params ≡ self.old.params }
        ensures taken { OnOk result ((history : List Heard) → HasTaken history self.old → HasTaken (offered (view packet.now) ∷ history) self.new) }
    {
        let clock = clock_at(self.clock, packet.time);
        self.clock = Some(clock);
        self.heard = self.heard.saturating_add(1);
        expire(&mut self.pool, clock, self.params.window);
        if !is_offered(packet) {
            return Ok(());
        }
        let answer = self.pool.count(clock, self.params.delay, packet);
        self.counts = with_answer(self.counts, answer)?;
        Ok(())
    }
}

ghost use Rattle.mmt_peak.specs.Views.{tally_in};

/// What a buffer has counted.
#[derive(Clone, Copy, Debug, PartialEq, Eq)]
pub struct BufferNumbers {
    /// How many packets it has taken.
    pub heard: u64,
    pub counts: Counts,
    /// The most payload bytes that it held at once.
    pub most: u32,
}

impl Buffer {
    /// What it has counted.
    pub fn numbers(&self) -> BufferNumbers
        ensures heard { result.heard ≡ self.now.heard }
        ensures counts { tally_in result.counts ≡ self.now.tally }
        ensures most { result.most ≡ self.now.pool.peak }
    {
        BufferNumbers {
            heard: self.heard,
            counts: self.counts,
            most: self.pool.peak(),
        }
    }
}
