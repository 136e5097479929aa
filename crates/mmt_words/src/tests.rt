//! The words of refusals.

use crate::{
    put_message_why, put_mpt_why, put_mpu_why, put_number, put_sig_why, put_times_why, put_why,
};
use itoa::Buffer;
use mmt_hear::Why;
use mmt_mpt::MptWhy;
use mmt_mpu::MpuWhy;
use mmt_sig::{MessageWhy, SigWhy};
use mmt_times::TimesWhy;
use std::test::Fail;

#[test]
fn words_with_numbers(rt: HostRuntime) -> Result<(), Fail> {
    let mut digits = Buffer::new();
    let mut out = Vec::new(rt.alloc());
    out.reserve(200)?;
    put_number(&mut digits, &mut out, b"at ", 18446744073709551615);
    put_why(&mut digits, &mut out, Why::CtxNone(4095));
    put_mpu_why(&mut digits, &mut out, MpuWhy::FragmentType(15));
    let words: &[u8] = b"at 18446744073709551615ctx-none 4095mpu-type 15";
    assert_eq!(rt; out.as_slice(), words);
    Ok(())
}

#[test]
fn numbers_of_one_to_twenty_digits(rt: HostRuntime) -> Result<(), Fail> {
    let mut digits = Buffer::new();
    let mut out = Vec::new(rt.alloc());
    out.reserve(400)?;
    put_number(&mut digits, &mut out, b" ", 0);
    put_number(&mut digits, &mut out, b" ", 9);
    put_number(&mut digits, &mut out, b" ", 10);
    put_number(&mut digits, &mut out, b" ", 99);
    put_number(&mut digits, &mut out, b" ", 100);
    put_number(&mut digits, &mut out, b" ", 987);
    put_number(&mut digits, &mut out, b" ", 1000);
    put_number(&mut digits, &mut out, b" ", 9876);
    put_number(&mut digits, &mut out, b" ", 10000);
    put_number(&mut digits, &mut out, b" ", 65535);
    put_number(&mut digits, &mut out, b" ", u64::MAX);
    let words: &[u8] = b" 0 9 10 99 100 987 1000 9876 10000 65535 18446744073709551615";
    assert_eq!(rt; out.as_slice(), words);
    Ok(())
}

#[test]
fn words_of_signalling(rt: HostRuntime) -> Result<(), Fail> {
    let mut out = Vec::new(rt.alloc());
    out.reserve(200)?;
    put_sig_why(&mut out, SigWhy::AggregatedPart);
    put_message_why(&mut out, MessageWhy::HrbmValues);
    put_mpt_why(&mut out, MptWhy::ClockRelation(7));
    put_mpt_why(&mut out, MptWhy::LocationKind(6));
    put_times_why(&mut out, TimesWhy::OffsetType);
    let words: &[u8] = b"sig-aggregated-parthrbm-valuesmpt-clockmpt-locationtimes-offset-type";
    assert_eq!(rt; out.as_slice(), words);
    Ok(())
}
