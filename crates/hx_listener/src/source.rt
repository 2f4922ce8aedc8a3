//! Whom a connection counts for.
ghost use Rattle.hx_listener.specs.Sources.{IsSourceOf};

use std::net::{IpAddr, Ipv6Addr};

/// The address that a connection from this one counts for: an IPv4 address for itself, an IPv6 address for its network,
/// the first 64 bits, since one host may have all addresses of it.
pub fn source_of(address: IpAddr) -> IpAddr
    ensures { IsSourceOf address result }
{
    match address.to_canonical() {
        IpAddr::V4(ip) => IpAddr::V4(ip),
        IpAddr::V6(ip) => {
            let [a, b, c, d, ..] = ip.segments();
            IpAddr::V6(Ipv6Addr::new(a, b, c, d, 0, 0, 0, 0))
        }
    }
}
