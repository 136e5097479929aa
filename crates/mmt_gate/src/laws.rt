//! What a gateway keeps of a stream: its datagrams. Each law is the contract of a function that
//! does nothing.

ghost use Rattle.mmt_gate.specs.Promises.{ExpandingKeepsDatagrams, SqueezingKeepsDatagrams};

/// The datagrams of an expanded stream are those of the stream with at most 65,487 payload bytes, in
/// their order.
pub fn expanding_keeps_datagrams()
    ensures { ExpandingKeepsDatagrams }
{}

/// The datagrams of a squeezed stream are those of the packets of type 2 of the stream, in their
/// order: packets of type 3 are left out, and no other packet has a datagram.
pub fn squeezing_keeps_datagrams()
    ensures { SqueezingKeepsDatagrams }
{}
