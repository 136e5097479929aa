//! The refusals of each layer as those of hearing.

ghost use Rattle.std.specs.Prelude.{◌≡◌};
ghost use Rattle.mmt_hear.specs.Hearing.{ip_reason as of_ip, ctx_reason as of_ctx, mmtp_reason as of_mmtp};

use crate::why::Why;
use mmt_ctx::CtxWhy;
use mmt_ip::IpWhy;
use mmt_packet::PacketWhy;

/// The refusal of an IPv6 or UDP layer as one of hearing.
pub fn ip_reason(why: IpWhy) -> Why
    ensures { result ≡ of_ip why }
{
    match why {
        IpWhy::Short => Why::IpShort,
        IpWhy::Version(version) => Why::IpVersion(version),
        IpWhy::NextHeader(next) => Why::IpNext(next),
        IpWhy::Length => Why::IpLength,
        IpWhy::Checksum => Why::IpChecksum,
    }
}

/// The refusal of a header-compressed packet as one of hearing.
pub fn ctx_reason(why: CtxWhy) -> Why
    ensures { result ≡ of_ctx why }
{
    match why {
        CtxWhy::Short => Why::CtxShort,
        CtxWhy::OtherKind(kind) => Why::CtxKind(kind),
        CtxWhy::Version(version) => Why::IpVersion(version),
        CtxWhy::NextHeader(next) => Why::IpNext(next),
        CtxWhy::NoContext(context) => Why::CtxNone(context),
    }
}

/// The refusal of an MMTP packet as one of hearing.
pub fn mmtp_reason(why: PacketWhy) -> Why
    ensures { result ≡ of_mmtp why }
{
    match why {
        PacketWhy::Short => Why::MmtpShort,
        PacketWhy::Version(version) => Why::MmtpVersion(version),
        PacketWhy::Fec(fec) => Why::MmtpFec(fec),
        PacketWhy::Kind(kind) => Why::MmtpKind(kind),
        PacketWhy::Scrambled => Why::Scrambled,
    }
}
