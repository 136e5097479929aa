//! What a sender is given.

use crate::keys::UnitKey;
use crate::lists::List;
use crate::texts::Text;
use mmt_base::{LongTick, Ntp};

/// The values of a buffer message (ISO/IEC 23008-1, the HRBM message): the bound on kept payload
/// bytes, and the window and the delay in ticks.
#[derive(Clone, Copy, Debug, PartialEq, Eq)]
pub struct Params {
    pub bound: u32,
    pub window: u32,
    pub delay: u32,
}

/// Where packets go to: an IPv6 address and a UDP port.
#[derive(Clone, Copy, Debug, PartialEq, Eq)]
pub struct Flow {
    pub address: u128,
    pub port: u16,
}

/// Which flows are heard.
#[derive(Clone, Copy, Debug, PartialEq, Eq)]
pub enum FlowChoice {
    /// Every one.
    Any,
    /// This one alone.
    One(Flow),
}

/// An access unit's times in units of its asset's timescale: its presentation time after its
/// decoding time, and the next access unit's presentation time after its own (ARIB STD-B60, the MPU
/// extended timestamp descriptor).
#[derive(Clone, Copy, Debug, PartialEq, Eq)]
pub struct Au {
    pub dts_pts: u16,
    pub pts: u16,
}

/// A data unit: when its first packet is sent, the bytes of its asset's file that it has, from
/// `from` on, `length` of them, and its header.
#[derive(Clone, Copy, Debug, PartialEq, Eq)]
pub struct Unit {
    pub at: LongTick,
    pub from: u64,
    pub length: u32,
    pub key: UnitKey,
    pub priority: u8,
    pub dependency: u8,
}

/// An MPU: its sequence number, its presentation time, the decoding offset of its first access unit
/// in units of the timescale, its access units and its data units.
#[derive(Debug, Drop)]
pub struct Mpu {
    pub number: u32,
    pub time: Ntp,
    pub decoding_offset: u16,
    pub aus: List<Au>,
    pub units: List<Unit>,
}

/// An asset: the packet id of its packets, its id, its type, whether its units are timed media,
/// units of time a second, the place of its file in the programme, and its MPUs.
#[derive(Debug, Drop)]
pub struct Asset {
    pub packet_id: u16,
    pub id: List<u8>,
    pub kind: u32,
    pub timed: bool,
    pub timescale: u32,
    pub file: u32,
    pub mpus: List<Mpu>,
}

/// A signalling message and when it is sent.
#[derive(Debug, Drop)]
pub enum Signal {
    /// A buffer message.
    Parameters {
        at: LongTick,
    },
    /// A table (MPT) that names these MPUs, each by the place of its asset and its place there.
    Table {
        at: LongTick,
        names: List<(u32, u32)>,
    },
}

/// What is sent: the addresses, the header compression, how units are cut, the package id, the
/// buffer message's values, the signalling, the assets and the names of their files.
///
/// A packet has at most `limit` bytes of a unit or a message. The packets of one unit are `spacing`
/// ticks apart. With `full_every` 0 no header is compressed; else every `full_every`th packet has
/// a full header.
#[derive(Debug, Drop)]
pub struct Programme {
    pub flow: Flow,
    pub source: Flow,
    pub context: u16,
    pub full_every: u32,
    pub limit: u32,
    pub spacing: u32,
    pub package: List<u8>,
    pub params: Params,
    pub signals: List<Signal>,
    pub assets: List<Asset>,
    pub files: List<Text>,
}
