//! The packets of a cast as bytes: what each is read as, and which of a delivery are heard.

ghost use Rattle.mmt_headline.specs.Heard.{PayloadsAreRead, PayloadsSpell, PacketsAreHeard, DeliveriesAreHeard, EachIsHeard};

/// A payload that is written is read as what it spells.
pub fn payloads_are_read()
    ensures { PayloadsAreRead }
{}

/// The payload of a packet spells what the packet carries.
pub fn payloads_spell()
    ensures { PayloadsSpell }
{}

/// A sent packet is heard as the one at its place of the cast.
pub fn packets_are_heard()
    ensures { PacketsAreHeard }
{}

/// Of a delivery the packets are heard from the first that has a full header on.
pub fn deliveries_are_heard()
    ensures { DeliveriesAreHeard }
{}

/// A packet of a delivery is heard, or refused since no full header came before.
pub fn each_is_heard()
    ensures { EachIsHeard }
{}
