//! Which packets tune a receiver, and with which values.

ghost use Rattle.std.specs.Prelude.{◌<◌, ◌^◌, length};

use crate::{Config, tuning_values};
use mmt_base::Tick;
use mmt_model::{FlowChoice, Params};
use mmt_packet::{Kind, Packet};

/// A buffer message with a bound of 4,000 bytes, a window of 65,536 ticks and a delay of 1,000.
const ONE: &[u8] = b"\x00\x00\xf1\x00\x00\x00\x0c\x00\x00\x0f\xa0\x00\x01\x00\x00\x00\x00\x03\xe8";

/// The same message, then one with a bound of 3,000 bytes, a window of 512 ticks and a delay of 256.
const TWO: &[u8] =
    b"\x01\x00\x00\x11\xf1\x00\x00\x00\x0c\x00\x00\x0f\xa0\x00\x01\x00\x00\x00\x00\x03\xe8\x00\x11\xf1\x00\x00\x00\x0c\x00\x00\x0b\xb8\x00\x00\x02\x00\x00\x00\x01\x00";

/// The bytes of the buffer message as the last part of a message.
const PART: &[u8] = b"\xc0\x00\xf1\x00\x00\x00\x0c\x00\x00\x0f\xa0\x00\x01\x00\x00\x00\x00\x03\xe8";

const FIRST: Params = Params {
    bound: 4000,
    window: 65536,
    delay: 1000,
};

const SECOND: Params = Params {
    bound: 3000,
    window: 512,
    delay: 256,
};

// The values with which a packet tunes a receiver that keeps so many bytes.
fn values(
    bound: u32,
    assumed: Option<(u32, u32)>,
    kind: Kind,
    packet_id: u16,
    payload: &[u8],
) -> Option<Params>
    requires { length payload.now < 2 ^ 31 }
{
    let config = Config {
        bound,
        flow: FlowChoice::Any,
        sample_base: 1,
        timescale: 90_000,
        assumed,
    };
    let packet = Packet {
        counter: None,
        rap: false,
        reserved: 0,
        kind,
        packet_id,
        time: Tick(65_536_000),
        number: 0,
        extension: None,
        payload,
    };
    tuning_values(&config, &packet)
}

#[test]
fn tunes_with_the_first_buffer_message_that_fits(rt: HostRuntime) {
    let signalling = Kind::Signalling;
    let cases: [(u32, &[u8], Option<Params>); 7] = [
        (4000, ONE, Some(FIRST)),
        (4001, ONE, Some(FIRST)),
        (3999, ONE, None),
        (4000, TWO, Some(FIRST)),
        (3999, TWO, Some(SECOND)),
        (2999, TWO, None),
        (4000, b"\x00", None),
    ];
    for (bound, payload, want) in cases {
        assert!(rt; payload.len() < 64);
        assert_eq!(rt; values(bound, None, signalling, 0, payload), want);
    }
}

#[test]
fn other_packets_tune_nothing(rt: HostRuntime) {
    assert_eq!(rt; values(4000, None, Kind::Signalling, 0, PART), None);
    assert_eq!(rt; values(4000, None, Kind::Signalling, 1, ONE), None);
    assert_eq!(rt; values(4000, None, Kind::Mpu, 0, ONE), None);
    assert_eq!(rt; values(4000, None, Kind::Generic, 0, ONE), None);
}

#[test]
fn every_packet_tunes_with_assumed_values(rt: HostRuntime) {
    let assumed = Some((131_072, 2000));
    let want = Some(Params {
        bound: 3999,
        window: 131_072,
        delay: 2000,
    });
    for payload in [ONE, TWO, PART, b""] {
        assert!(rt; payload.len() < 64);
        assert_eq!(rt; values(3999, assumed, Kind::Signalling, 0, payload), want);
        assert_eq!(rt; values(3999, assumed, Kind::Mpu, 256, payload), want);
    }
}
