//! Casts for the tests: the cast of a small programme, and changes to it.

use crate::{admit, is_readable};
use mmt_base::{LongTick, Ntp};
use mmt_model::{Carries, Cast, List, Params, Sent, SentMpu, SentUnit, TableCopy, UnitKey};
use std::alloc::{AllocError, Global};
use std::test::Fail;

/// What a cast is made of.
#[derive(Drop)]
pub(crate) struct Sample {
    pub(crate) params: Params,
    pub(crate) packets: Vec<Sent>,
    pub(crate) units: Vec<SentUnit>,
    pub(crate) mpus: Vec<SentMpu>,
    pub(crate) copies: Vec<TableCopy>,
}

/// A packet with a whole unit.
pub(crate) fn packet(at: u64, packet_id: u16, number: u32, length: u32) -> Sent {
    Sent {
        at: LongTick(at),
        packet_id,
        number,
        rap: false,
        length,
        carries: Carries::Whole { unit: 0 },
    }
}

/// A unit of the first MPU, with this sample number.
pub(crate) fn unit(sample: u32, first: u64, last: u64, due: u64) -> SentUnit {
    SentUnit {
        asset: 0,
        mpu: 0,
        unit: 0,
        key: UnitKey::Timed {
            movie_fragment: 1,
            sample,
            offset: 0,
        },
        time: Ntp(0),
        due: LongTick(due),
        first: LongTick(first),
        last: LongTick(last),
        first_number: 0,
        count: 1,
    }
}

/// An MPU by its ticks.
pub(crate) fn mpu(least: u64, last: u64, named_from: Option<u64>) -> SentMpu {
    SentMpu {
        asset: 0,
        mpu: 0,
        least: LongTick(least),
        last: LongTick(last),
        named_from: named_from.map(|tick| LongTick(tick)),
    }
}

/// A table copy that names nothing, in one packet.
pub(crate) fn copy(alloc: Global, at: u64) -> TableCopy {
    TableCopy {
        signal: 1,
        names: List::new(alloc),
        first: LongTick(at),
        last: LongTick(at),
        first_number: 0,
        count: 1,
    }
}

impl Sample {
    /// Nothing is sent.
    pub(crate) fn empty(alloc: Global) -> Sample {
        Sample {
            params: Params {
                bound: 4000,
                window: 65536,
                delay: 1000,
            },
            packets: Vec::new(alloc),
            units: Vec::new(alloc),
            mpus: Vec::new(alloc),
            copies: Vec::new(alloc),
        }
    }

    /// The cast of a small programme: a buffer message, a table, a unit in three packets and a unit in one.
    pub(crate) fn worked(alloc: Global) -> Result<Sample, Fail> {
        let mut sample = Sample::empty(alloc);
        let mut first = packet(65_536_000, 0, 0, 19);
        first.carries = Carries::Parameters { signal: 0 };
        sample.packets.push(first)?;
        sample.packets.push(packet(65_536_100, 0, 1, 82))?;
        sample.packets.push(packet(65_536_200, 256, 0, 1422))?;
        sample.packets.push(packet(65_536_210, 256, 1, 1422))?;
        sample.packets.push(packet(65_536_220, 256, 2, 222))?;
        sample.packets.push(packet(65_536_300, 256, 3, 522))?;
        sample
            .units
            .push(unit(1, 65_536_200, 65_536_220, 65_568_768))?;
        sample
            .units
            .push(unit(2, 65_536_300, 65_536_300, 65_570_955))?;
        sample
            .mpus
            .push(mpu(65_568_768, 65_570_955, Some(65_536_100)))?;
        let mut table = copy(alloc, 65_536_100);
        table.names.push(0)?;
        sample.copies.push(table)?;
        Ok(sample)
    }

    /// Makes a change: a word and numbers, the first of them the place of the packet, unit, MPU or table
    /// copy.
    pub(crate) fn change(&mut self, alloc: Global, text: &str) -> Result<(), Fail> {
        let (word, rest) = text.split_once(" ").ok_or("no number")?;
        let n = numbers(rest)?;
        if self.change_params(word, n)
            || self.change_packets(word, n)?
            || self.change_units(word, n)?
            || self.change_mpus(word, n)?
            || self.change_copies(alloc, word, n)?
        {
            Ok(())
        } else {
            Err("no change")?
        }
    }

    // Changes the values of the buffer message, or answers no.
    fn change_params(&mut self, word: &str, n: [u64; 4]) -> bool {
        let value = low32(n[0]);
        match word {
            "delay" => self.params.delay = value,
            "window" => self.params.window = value,
            "bound" => self.params.bound = value,
            _ => return false,
        }
        true
    }

    // Changes a packet's timestamp, its number or what it carries, adds one (timestamp, packet id, number
    // and payload length), takes one to an earlier place or leaves one out, or answers no.
    fn change_packets(&mut self, word: &str, n: [u64; 4]) -> Result<bool, Fail> {
        let place = n[0] as usize;
        match word {
            "at" => self.packets.get_mut(place).ok_or("packet")?.at = LongTick(n[1]),
            "number" => self.packets.get_mut(place).ok_or("packet")?.number = low32(n[1]),
            "carries-unit" => {
                self.packets.get_mut(place).ok_or("packet")?.carries = Carries::Whole { unit: 0 };
            }
            "carries-message" => {
                let message = Carries::Parameters { signal: 0 };
                self.packets.get_mut(place).ok_or("packet")?.carries = message;
            }
            "packet" => {
                let more = packet(n[0], low16(n[1]), low32(n[2]), low32(n[3]));
                self.packets.push(more)?;
            }
            "move" => self.move_packet(place, n[1] as usize)?,
            "without" => {
                let _ = self.packets.get(place).ok_or("packet")?;
                self.packets.remove(place);
            }
            _ => return Ok(false),
        }
        Ok(true)
    }

    // Changes a unit's ticks, its key (movie fragment, sample and offset, or an item) or which MPU of its
    // asset it is of, or answers no.
    fn change_units(&mut self, word: &str, n: [u64; 4]) -> Result<bool, Fail> {
        let place = n[0] as usize;
        match word {
            "first" => self.unit(place)?.first = LongTick(n[1]),
            "last" => self.unit(place)?.last = LongTick(n[1]),
            "due" => self.unit(place)?.due = LongTick(n[1]),
            "key" => {
                self.unit(place)?.key = UnitKey::Timed {
                    movie_fragment: low32(n[1]),
                    sample: low32(n[2]),
                    offset: low32(n[3]),
                };
            }
            "item" => self.unit(place)?.key = UnitKey::Item { item: low32(n[1]) },
            "of-mpu" => self.unit(place)?.mpu = low32(n[1]),
            _ => return Ok(false),
        }
        Ok(true)
    }

    // Changes the least or the last due tick of an MPU or the tick from which it is named, or adds one
    // with these three, or answers no.
    fn change_mpus(&mut self, word: &str, n: [u64; 4]) -> Result<bool, Fail> {
        let place = n[0] as usize;
        match word {
            "mpu-least" => self.mpus.get_mut(place).ok_or("MPU")?.least = LongTick(n[1]),
            "mpu-last" => self.mpus.get_mut(place).ok_or("MPU")?.last = LongTick(n[1]),
            "mpu-from" => {
                self.mpus.get_mut(place).ok_or("MPU")?.named_from = Some(LongTick(n[1]));
            }
            "mpu-unnamed" => self.mpus.get_mut(place).ok_or("MPU")?.named_from = None,
            "mpu" => self.mpus.push(mpu(n[0], n[1], Some(n[2])))?,
            _ => return Ok(false),
        }
        Ok(true)
    }

    // Changes the ticks of a table copy or lets it name one MPU more, or adds one in a packet at a tick,
    // or answers no.
    fn change_copies(&mut self, alloc: Global, word: &str, n: [u64; 4]) -> Result<bool, Fail> {
        let place = n[0] as usize;
        match word {
            "copy-first" => self.copies.get_mut(place).ok_or("copy")?.first = LongTick(n[1]),
            "copy-last" => self.copies.get_mut(place).ok_or("copy")?.last = LongTick(n[1]),
            "copy-names" => {
                self.copies
                    .get_mut(place)
                    .ok_or("copy")?
                    .names
                    .push(low32(n[1]))?;
            }
            "copy" => self.copies.push(copy(alloc, n[0]))?,
            _ => return Ok(false),
        }
        Ok(true)
    }

    /// Makes changes, each after ` && ` but the first.
    pub(crate) fn changes(&mut self, alloc: Global, changes: &str) -> Result<(), Fail> {
        for change in changes.split(" && ") {
            self.change(alloc, change)?;
        }
        Ok(())
    }

    // The unit at this place.
    fn unit(&mut self, u: usize) -> Result<&mut SentUnit, Fail> {
        Ok(self.units.get_mut(u).ok_or("unit")?)
    }

    // Takes a packet from its place to an earlier one.
    fn move_packet(&mut self, from: usize, to: usize) -> Result<(), Fail> {
        let _ = self.packets.get(from).ok_or("packet")?;
        let moved = self.packets.remove(from);
        if to <= self.packets.len() {
            self.packets.insert(to, moved)?;
        }
        Ok(())
    }

    /// The cast.
    pub(crate) fn cast(self) -> Cast {
        Cast {
            params: self.params,
            packets: List::from_vec(self.packets),
            units: List::from_vec(self.units),
            mpus: List::from_vec(self.mpus),
            copies: List::from_vec(self.copies),
        }
    }

    /// What the program says of the cast: the line of its first fault, or that it is admitted.
    pub(crate) fn told(self, alloc: Global) -> Result<String, AllocError> {
        told(alloc, &self.cast())
    }
}

/// What the program says of a cast: the line of its first fault, or that it is admitted.
pub(crate) fn told(alloc: Global, cast: &Cast) -> Result<String, AllocError> {
    if !is_readable(cast) {
        return String::from_str(alloc, "not readable");
    }
    match admit(cast) {
        Ok(_) => String::from_str(alloc, "admitted"),
        Err(refusal) => format!(in alloc; "{refusal}"),
    }
}

/// The first row of a table that is wrong, with what is told, or no text. A row is `CHANGES @ TOLD`: what
/// the program says of the worked cast with these changes.
pub(crate) fn wrong_row(alloc: Global, rows: &str) -> Result<String, Fail> {
    for row in rows.lines() {
        let (changes, want) = row.split_once(" @ ").ok_or("no row")?;
        let mut sample = Sample::worked(alloc)?;
        sample.changes(alloc, changes)?;
        let told = sample.told(alloc)?;
        if told.as_str() != want {
            return Ok(format!(in alloc; "{row}, and not {told}")?);
        }
    }
    Ok(String::new(alloc))
}

// A number's low 32 bits.
fn low32(n: u64) -> u32 {
    (n % 4_294_967_296) as u32
}

// A number's low 16 bits.
fn low16(n: u64) -> u16 {
    (n % 65_536) as u16
}

// Up to four numbers, with a space between them.
fn numbers(text: &str) -> Result<[u64; 4], Fail> {
    let mut numbers = [0; 4];
    for (number, word) in numbers.iter_mut().zip(text.split(" ")) {
        *number = word.parse::<u64>().ok().ok_or("no number")?;
    }
    Ok(numbers)
}
