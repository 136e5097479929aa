//! What a receiver notes.

use mmt_base::Tick;
use mmt_hear::Why;
use mmt_mpt::MptWhy;
use mmt_mpu::MpuWhy;
use mmt_sig::{MessageWhy, SigWhy};
use mmt_times::TimesWhy;

/// A note of a receiver: something in a packet that it leaves out, or that it takes differently from
/// what was said before. `message` is the number of a message in its payload, from 0, and 0 for a
/// message that was joined from parts. `at` is a place in the message, in bytes from its start.
#[derive(Clone, Copy, Debug)]
pub enum Note {
    /// The packet is not heard.
    Hearing(Why),
    /// A packet of a generic object (ISO/IEC 23008-1, the payload type), which is left out.
    Generic,
    /// A signalling packet on another packet id than 0, which is left out.
    Elsewhere,
    /// The payload is no MPU payload.
    Mpu(MpuWhy),
    /// The payload is no signalling payload.
    Signalling(SigWhy),
    /// The packet comes too late for the clock, in ticks.
    Late {
        clock: Tick,
    },
    /// A packet with this packet id and number is kept already.
    Repeat,
    /// The payload does not fit beside the bytes that are held, both counted in bytes.
    Full {
        held: u32,
        length: u32,
    },
    /// A joined message is too long, with its length in bytes.
    MessageLong {
        message: u32,
        length: u32,
    },
    /// The bytes are no signalling message.
    Message {
        message: u32,
        at: u32,
        why: MessageWhy,
    },
    /// A buffer message asks for a bound above the one that is allowed, both in bytes.
    HrbmBound {
        message: u32,
        bound: u32,
        allowed: u32,
    },
    /// A buffer message has other values than the one that was taken.
    HrbmDiffers {
        message: u32,
    },
    /// A table is no MPT.
    Mpt {
        message: u32,
        at: u32,
        why: MptWhy,
    },
    /// A timestamp descriptor of an MPT, or the access unit times of an entry, count as absent.
    Times {
        message: u32,
        at: u32,
        why: TimesWhy,
    },
    /// An MPT gives an MPU another time than it has already.
    NamesDiffer {
        message: u32,
        packet_id: u16,
        mpu: u32,
    },
    /// An MPT gives an MPU a time for which there is no room.
    NamesFull {
        message: u32,
        packet_id: u16,
        mpu: u32,
    },
}
