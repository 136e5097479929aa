//! Messages in parts, found from each of their packets.

ghost use Rattle.std.specs.Prelude.{◌<◌, ◌^◌, length};

use crate::Runs;
use mmt_base::Tick;
use mmt_packet::{Kind, Packet};
use mmt_pool::{Pool, Span};
use std::test::Fail;

fn span(packet_id: u16, number: u32) -> Span {
    Span { packet_id, number }
}

// Keeps a signalling packet with this payload, and says whether it is kept.
fn keep(pool: &mut Pool, packet_id: u16, number: u32, payload: &[u8]) -> bool
    requires { length payload.now < 2 ^ 31 }
{
    let packet = Packet {
        counter: None,
        rap: false,
        reserved: 0,
        kind: Kind::Signalling,
        packet_id,
        time: Tick(100),
        number,
        extension: None,
        payload,
    };
    pool.store(Tick(100), 1000, payload, 0, &packet).is_ok()
}

// The packet of this span is a part of a message of these three parts, with so many bytes in all.
fn joins(
    runs: &Runs,
    pool: &Pool,
    span: Span,
    length: u32,
    first: &[u8],
    second: &[u8],
    third: &[u8],
) -> bool {
    let Some(mut message) = runs.whole_message(pool, span) else {
        return false;
    };
    let whole = message.length();
    let parts = (message.next(), message.next(), message.next());
    let rest = message.length();
    parts == (Some(first), Some(second), Some(third))
        && message.next().is_none()
        && whole == length
        && rest == 0
}

fn is_none(runs: &Runs, pool: &Pool, span: Span) -> bool {
    runs.whole_message(pool, span).is_none()
}

#[test]
fn a_message_is_found_from_each_of_its_packets(rt: HostRuntime) -> Result<(), Fail> {
    let runs = Runs::new(rt.alloc());
    let mut pool = Pool::new(rt.alloc(), 100)?;
    assert!(rt; keep(&mut pool, 0, 7, b"\x40\x00ab"));
    assert!(rt; keep(&mut pool, 0, 8, b"\x80\x00c"));
    assert!(rt; keep(&mut pool, 0, 9, b"\xc0\x00def"));
    assert!(rt; joins(&runs, &pool, span(0, 7), 6, b"ab", b"c", b"def"));
    assert!(rt; joins(&runs, &pool, span(0, 8), 6, b"ab", b"c", b"def"));
    assert!(rt; joins(&runs, &pool, span(0, 9), 6, b"ab", b"c", b"def"));
    Ok(())
}

#[test]
fn a_message_is_none_while_a_part_is_missing(rt: HostRuntime) -> Result<(), Fail> {
    let runs = Runs::new(rt.alloc());
    let mut pool = Pool::new(rt.alloc(), 100)?;
    assert!(rt; keep(&mut pool, 0, 7, b"\x40\x00ab"));
    assert!(rt; keep(&mut pool, 0, 9, b"\xc0\x00def"));
    assert!(rt; is_none(&runs, &pool, span(0, 7)));
    assert!(rt; is_none(&runs, &pool, span(0, 9)));
    // The packet of the lost number comes late, with a part of no bytes.
    assert!(rt; keep(&mut pool, 0, 8, b"\x80\x00"));
    assert!(rt; joins(&runs, &pool, span(0, 8), 5, b"ab", b"", b"def"));
    Ok(())
}

#[test]
fn numbers_go_on_at_zero(rt: HostRuntime) -> Result<(), Fail> {
    let runs = Runs::new(rt.alloc());
    let mut pool = Pool::new(rt.alloc(), 100)?;
    assert!(rt; keep(&mut pool, 0, 0xffff_ffff, b"\x40\x00a"));
    assert!(rt; keep(&mut pool, 0, 0, b"\x80\x00b"));
    assert!(rt; keep(&mut pool, 0, 1, b"\xc0\x00c"));
    assert!(rt; joins(&runs, &pool, span(0, 1), 3, b"a", b"b", b"c"));
    Ok(())
}

#[test]
fn parts_of_another_packet_id_are_not_taken(rt: HostRuntime) -> Result<(), Fail> {
    let runs = Runs::new(rt.alloc());
    let mut pool = Pool::new(rt.alloc(), 100)?;
    assert!(rt; keep(&mut pool, 0, 7, b"\x40\x00ab"));
    assert!(rt; keep(&mut pool, 5, 8, b"\x80\x00c"));
    assert!(rt; keep(&mut pool, 0, 9, b"\xc0\x00d"));
    assert!(rt; is_none(&runs, &pool, span(0, 7)));
    assert!(rt; is_none(&runs, &pool, span(5, 8)));
    Ok(())
}

#[test]
fn messages_side_by_side_are_kept_apart(rt: HostRuntime) -> Result<(), Fail> {
    let runs = Runs::new(rt.alloc());
    let mut pool = Pool::new(rt.alloc(), 100)?;
    assert!(rt; keep(&mut pool, 0, 7, b"\x40\x00a"));
    assert!(rt; keep(&mut pool, 0, 8, b"\x80\x00b"));
    assert!(rt; keep(&mut pool, 0, 9, b"\xc0\x00c"));
    assert!(rt; keep(&mut pool, 0, 10, b"\x40\x00d"));
    assert!(rt; keep(&mut pool, 0, 11, b"\x80\x00e"));
    assert!(rt; keep(&mut pool, 0, 12, b"\xc0\x00f"));
    assert!(rt; keep(&mut pool, 0, 13, b"\x00\x00g"));
    assert!(rt; joins(&runs, &pool, span(0, 9), 3, b"a", b"b", b"c"));
    assert!(rt; joins(&runs, &pool, span(0, 10), 3, b"d", b"e", b"f"));
    // A message of one packet is no message in parts.
    assert!(rt; is_none(&runs, &pool, span(0, 13)));
    Ok(())
}

// A message of nine parts whose packets are kept in this order is none until all of them are kept, and
// is then found from each of them.
fn is_whole_at_the_last(runs: &Runs, pool: &mut Pool, order: &[u32; 9]) -> bool {
    for (place, number) in order.iter().enumerate() {
        let payload: &[u8] = match *number {
            100 => b"\x40\x00first",
            108 => b"\xc0\x00last",
            _ => b"\x80\x00-",
        };
        if !keep(pool, 0, *number, payload) {
            return false;
        }
        if runs.whole_message(pool, span(0, *number)).is_some() != (place == 8) {
            return false;
        }
    }
    for number in order {
        match runs.whole_message(pool, span(0, *number)) {
            Some(message) => {
                if message.length() != 16 {
                    return false;
                }
            }
            None => return false,
        }
    }
    true
}

#[test]
fn a_long_message_is_whole_with_its_last_packet_in_any_order(rt: HostRuntime) -> Result<(), Fail> {
    let runs = Runs::new(rt.alloc());
    let orders: [[u32; 9]; 6] = [
        [100, 101, 102, 103, 104, 105, 106, 107, 108],
        [108, 107, 106, 105, 104, 103, 102, 101, 100],
        [101, 103, 105, 107, 100, 102, 104, 106, 108],
        [100, 102, 104, 106, 108, 107, 105, 103, 101],
        [100, 108, 101, 107, 102, 106, 103, 105, 104],
        [104, 102, 106, 101, 107, 100, 108, 103, 105],
    ];
    for order in &orders {
        let mut pool = Pool::new(rt.alloc(), 100)?;
        assert!(rt; is_whole_at_the_last(&runs, &mut pool, order));
    }
    Ok(())
}

#[test]
fn a_message_breaks_off_at_a_packet_that_is_no_part_of_it(rt: HostRuntime) -> Result<(), Fail> {
    let runs = Runs::new(rt.alloc());
    let mut pool = Pool::new(rt.alloc(), 100)?;
    // A last part in front of middle parts, and a first part behind them.
    assert!(rt; keep(&mut pool, 0, 7, b"\xc0\x00a"));
    assert!(rt; keep(&mut pool, 0, 8, b"\x80\x00b"));
    assert!(rt; keep(&mut pool, 0, 9, b"\x80\x00c"));
    assert!(rt; keep(&mut pool, 0, 10, b"\x40\x00d"));
    assert!(rt; is_none(&runs, &pool, span(0, 7)));
    assert!(rt; is_none(&runs, &pool, span(0, 8)));
    assert!(rt; is_none(&runs, &pool, span(0, 9)));
    assert!(rt; is_none(&runs, &pool, span(0, 10)));
    Ok(())
}
