// The tests of handshake packets: net/mod.rs for hosts, who give their own kind as a number.
// Proved: each answer is the definition's in crates/net.
ghost use Rattle.std.specs.Prelude.{◌≡◌};
ghost use Rattle.net.specs.Hello.{host_in, is_hello, is_client_ack};
ghost use Rattle.flat.specs.Headers.{header_in};

use flat::headers::Header;
use net::BluefinHost;

// A type number above 6 counts as the last type here: neither test asks for that one.
#[unsafe(no_mangle)]
pub extern "C" fn bluefin_is_hello_packet(host: u8, header: Header) -> bool
    ensures { result ≡ is_hello (host_in host) (header_in header) }
{
    net::is_hello_packet(BluefinHost::from(host), header.to_header())
}

#[unsafe(no_mangle)]
pub extern "C" fn bluefin_is_client_ack_packet(host: u8, header: Header) -> bool
    ensures { result ≡ is_client_ack (host_in host) (header_in header) }
{
    net::is_client_ack_packet(BluefinHost::from(host), header.to_header())
}
