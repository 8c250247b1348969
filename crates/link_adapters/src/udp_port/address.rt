//! Endpoints as the addresses of the standard library.

ghost use Rattle.std.specs.Prelude.{◌≡◌, Some};
ghost use Rattle.link_adapters.specs.Sockets.{endpoint_at};

use lk_base::Endpoint;
use std::net::{Ipv4Addr, SocketAddr, SocketAddrV4};

/// The IPv4 address of an endpoint.
///
/// Waits: no. Memory: none.
pub fn address_of(endpoint: Endpoint) -> SocketAddr
    ensures { endpoint_at result ≡ Some endpoint }
{
    SocketAddr::V4(SocketAddrV4::new(Ipv4Addr::from_bits(endpoint.addr), endpoint.port))
}

/// The endpoint of an IPv4 address, and `None` of an IPv6 address.
///
/// Waits: no. Memory: none.
pub fn endpoint_of(address: SocketAddr) -> Option<Endpoint>
    ensures { result ≡ endpoint_at address }
{
    match address {
        SocketAddr::V4(address) => Some(Endpoint {
            addr: address.ip().to_bits(),
            port: address.port(),
        }),
        SocketAddr::V6(_) => None,
    }
}
