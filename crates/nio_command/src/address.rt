//! Addresses of sockets, as texts.
ghost use Rattle.std.specs.Prelude.{◌≡◌, IfSome, Some};
ghost use Rattle.nio_command.specs.Values.{IsAddress, address_text};

use crate::number::read_number;
use nio_base::Addr;
use std::net::Ipv4Addr;

/// Reads an IPv4 address and a port, such as `127.0.0.1:8080`: four numbers from 0 to 255 joined by dots, a colon, and
/// a port from 1 to 65,535. None where the text isn't written so.
pub fn read_address(text: &str) -> Option<Addr>
    ensures found { IfSome result (λ a. IsAddress a × (text.now ≡ address_text a)) }
    ensures only { (a : Addr) → IsAddress a → text.now ≡ address_text a → result ≡ Some a }
{
    let (ip, port) = text.split_once(':')?;
    let ip = ip.parse::<Ipv4Addr>().ok()?;
    let port = read_number(port, 1, 65_535)?;
    Some(Addr {
        ip: ip.octets(),
        port: port as u16,
    })
}
