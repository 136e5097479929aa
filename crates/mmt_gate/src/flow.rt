//! What headers are looked up by.

ghost use Rattle.std.specs.Prelude.{◌≡◌};
ghost use Rattle.mmt_gate.specs.Keeping.{flow_of as of_header};

use mmt_ip::Ip6Header;

/// The fields of the IPv6 and UDP headers that the packets of one context share.
#[derive(Clone, Copy, Debug, PartialEq, Eq, Hash)]
pub struct Flow {
    pub traffic_class: u8,
    pub flow_label: u32,
    pub hop_limit: u8,
    pub source: u128,
    pub destination: u128,
    pub source_port: u16,
    pub destination_port: u16,
}

/// The fields of a header.
pub fn flow_of(header: &Ip6Header) -> Flow
    ensures { result ≡ of_header header.now }
{
    Flow {
        traffic_class: header.traffic_class,
        flow_label: header.flow_label,
        hop_limit: header.hop_limit,
        source: header.source,
        destination: header.destination,
        source_port: header.source_port,
        destination_port: header.destination_port,
    }
}
