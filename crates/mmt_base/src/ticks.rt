//! Ticks of 1/65536 second, and NTP times.
#![tactic(auto, unfolding(crate::specs::Ticks::ahead_of, crate::specs::Ticks::is_after, crate::specs::Ticks::plus, crate::specs::Ticks::low, crate::specs::Ticks::is_passed, crate::specs::Ticks::due_of, crate::specs::Ticks::advance))]

ghost use Rattle.std.specs.Prelude.{◌≡◌};
ghost use Rattle.mmt_base.specs.Ticks.{ahead_of as ahead, is_after as after, plus as more, low as short, is_passed as passed, due_of as due, advance as further};

/// A time in ticks of 1/65536 second, modulo 2^32: the timestamp of an MMTP packet (ISO/IEC
/// 23008-1, MMTP packet header).
#[derive(Clone, Copy, Debug, PartialEq, Eq)]
pub struct Tick(pub u32);

/// A time in ticks of 1/65536 second that does not wrap.
#[derive(Clone, Copy, Debug, PartialEq, Eq, PartialOrd, Ord)]
pub struct LongTick(pub u64);

/// An NTP time in units of 2^-32 second (RFC 5905, the 64-bit timestamp).
#[derive(Clone, Copy, Debug, PartialEq, Eq, PartialOrd, Ord)]
pub struct Ntp(pub u64);

impl Tick {
    /// How many ticks this one stands ahead of the other, modulo 2^32.
    pub fn ahead_of(self, other: Tick) -> u32
        ensures { result ≡ ahead self.0 other.0 }
    {
        self.0.wrapping_sub(other.0)
    }

    /// Whether this tick is at least 1 and less than 2^31 ticks ahead of the other.
    pub fn is_after(self, other: Tick) -> bool
        ensures { result ≡ after self.0 other.0 }
    {
        let ahead = self.ahead_of(other);
        1 <= ahead && ahead < 1 << 31
    }

    /// Whether a clock that goes from one tick to another comes to this one or past it.
    pub fn is_passed(self, from: Tick, to: Tick) -> bool
        ensures { result ≡ passed self.0 from.0 to.0 }
    {
        let ahead = self.ahead_of(from);
        1 <= ahead && ahead <= to.ahead_of(from)
    }

    /// The tick so many ticks later, modulo 2^32.
    pub fn plus(self, ticks: u32) -> Tick
        ensures { result.0 ≡ more self.0 ticks }
    {
        Tick(self.0.wrapping_add(ticks))
    }
}

impl LongTick {
    /// The tick modulo 2^32.
    pub fn low(self) -> Tick
        ensures { result.0 ≡ short self.0 }
    {
        Tick((self.0 % (1 << 32)) as u32)
    }
}

/// The first tick at or after an NTP time.
pub fn long_due_of(time: Ntp) -> LongTick
    ensures { result.0 ≡ due time.0 }
{
    LongTick(time.0.div_ceil(1 << 16))
}

/// The first tick at or after an NTP time, modulo 2^32.
pub fn due_of(time: Ntp) -> Tick
    ensures { result.0 ≡ short (due time.0) }
{
    long_due_of(time).low()
}

/// The clock after a timestamp was heard: the timestamp where it is after the clock, and else the
/// clock as it was.
pub fn advance(clock: Tick, heard: Tick) -> Tick
    ensures { result.0 ≡ further clock.0 heard.0 }
{
    if heard.is_after(clock) { heard } else { clock }
}
