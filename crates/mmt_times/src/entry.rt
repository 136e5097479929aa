//! An entry of an MPT: an MPU that it names, with its times.

ghost use Rattle.std.specs.Prelude.{◌≡◌, length};
ghost use Rattle.mmt_times.specs.TimesLeft.{times_left};

use crate::times::Times;
use mmt_base::Ntp;

/// An MPU that an MPT names: its packet id, its sequence number, its presentation time and the times
/// of its access units. The offsets that the times follow from are lent from the table.
#[derive(Clone, Copy, Debug)]
pub struct Entry<'a> {
    pub(crate) packet_id: u16,
    pub(crate) mpu: u32,
    pub(crate) count: u8,
    pub(crate) times: Times<'a>,
    ghost all_in_range: { count ≡ length (times_left times) },
}

impl<'a> Entry<'a> {
    ghost use Rattle.std.specs.Prelude.{◌≡◌, ◌<◌, ◌≤◌, length, get_or, max};
    ghost use Rattle.std.specs.List.{fold};
    ghost use Rattle.mmt_times.specs.TimesLeft.{times_left};
    ghost use Rattle.mmt_times.specs.EntryView.{view_entry};

    /// The packet id of the MPU's asset.
    pub fn packet_id(&self) -> u16
        ensures { result ≡ (view_entry self.now).packet_id }
    {
        self.packet_id
    }

    /// The MPU's sequence number.
    pub fn mpu(&self) -> u32
        ensures { result ≡ (view_entry self.now).mpu }
    {
        self.mpu
    }

    /// The MPU's presentation time.
    pub fn time(&self) -> Ntp
        ensures { result.0 ≡ (view_entry self.now).time }
    {
        self.times.time
    }

    /// How many access unit times there are, at most 255.
    pub fn count(&self) -> u32
        ensures exact { result ≡ length (view_entry self.now).aus }
        ensures most { result ≤ 255 }
    {
        self.count as u32
    }

    /// The access unit times, from first to last.
    pub fn times(&self) -> Times<'a>
        ensures { times_left result ≡ (view_entry self.now).aus }
    {
        self.times
    }

    /// The access unit time at this place, the first being at 0. The place is below the count.
    pub fn time_of(&self, place: u32) -> Ntp
        requires { place < length (view_entry self.now).aus }
        ensures { result.0 ≡ get_or (view_entry self.now).aus place 0 }
    {
        let mut times = self.times;
        let mut left = place;
        while left > 0 {
            times.next();
            left -= 1;
        }
        match times.next() {
            Some(time) => time,
            None => self.times.time,
        }
    }

    /// The greatest of the presentation time and all access unit times.
    pub fn greatest(&self) -> Ntp
        ensures { result.0 ≡ fold max (view_entry self.now).time (view_entry self.now).aus }
    {
        let mut greatest = self.times.time;
        for time in self.times {
            greatest = greatest.max(time);
        }
        greatest
    }
}
