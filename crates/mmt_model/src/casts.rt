//! What a sender sends: the packets of a programme, with lengths and without contents.

use crate::keys::UnitKey;
use crate::lists::List;
use crate::programmes::Params;
use mmt_base::{LongTick, Ntp};

/// What a packet carries. Units are numbered over the whole cast, in the order of assets, MPUs and
/// units. Signalling messages are numbered as in the programme.
#[derive(Clone, Copy, Debug, PartialEq, Eq)]
pub enum Carries {
    /// A unit.
    Whole { unit: u32 },
    /// A part of a unit, the first being number 0.
    Fragment { unit: u32, number: u32 },
    /// Several units of one MPU, in their order.
    Group { first: u32, count: u32 },
    /// A buffer message.
    Parameters { signal: u32 },
    /// A table.
    Table { signal: u32 },
    /// A part of a table, the first being number 0.
    TablePart { signal: u32, number: u32 },
}

/// A sent packet: its timestamp, its packet id and its number (ISO/IEC 23008-1, the packet sequence
/// number), the flag R, and the length of its payload in bytes.
#[derive(Clone, Copy, Debug, PartialEq, Eq)]
pub struct Sent {
    pub at: LongTick,
    pub packet_id: u16,
    pub number: u32,
    pub rap: bool,
    pub length: u32,
    pub carries: Carries,
}

/// A sent unit: where it stands in the programme, its key, its time and its due tick, the first and
/// the last timestamp of its packets, and their first number and count.
#[derive(Clone, Copy, Debug, PartialEq, Eq)]
pub struct SentUnit {
    pub asset: u32,
    pub mpu: u32,
    pub unit: u32,
    pub key: UnitKey,
    pub time: Ntp,
    pub due: LongTick,
    pub first: LongTick,
    pub last: LongTick,
    pub first_number: u32,
    pub count: u32,
}

/// A sent MPU: where it stands in the programme, the least due tick of its units, its last due
/// tick, and the least tick at which a table copy that names it ends, where there is one.
#[derive(Clone, Copy, Debug, PartialEq, Eq)]
pub struct SentMpu {
    pub asset: u32,
    pub mpu: u32,
    pub least: LongTick,
    pub last: LongTick,
    pub named_from: Option<LongTick>,
}

/// A table copy: which signalling message of the programme it is, the places among the cast's MPUs
/// of those that it names, rising, the first and the last timestamp of its packets, and their first
/// number and count.
#[derive(Debug, Drop)]
pub struct TableCopy {
    pub signal: u32,
    pub names: List<u32>,
    pub first: LongTick,
    pub last: LongTick,
    pub first_number: u32,
    pub count: u32,
}

/// What is sent of a programme: the packets in the order of timestamp, packet id and number, and
/// the units, MPUs and table copies that they carry.
#[derive(Debug, Drop)]
pub struct Cast {
    pub params: Params,
    pub packets: List<Sent>,
    pub units: List<SentUnit>,
    pub mpus: List<SentMpu>,
    pub copies: List<TableCopy>,
}
