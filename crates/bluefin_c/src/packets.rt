// Packets and datagrams: core/packet.rs for hosts.
// Proved: what each call answers and leaves is the flat form of the definition in crates/packet.
ghost use Rattle.std.specs.Prelude.{◌≡◌};
ghost use Rattle.packet.specs.Packet.{serialises_into, deserialises};
ghost use Rattle.packet.specs.Datagram.{parses, indexes};
ghost use Rattle.flat.specs.Answers.{first_by};
ghost use Rattle.flat.specs.Headers.{header_in, unless_unknown, written_of, header_read_of};
ghost use Rattle.flat.specs.Packets.{parsed_of, flat_index};

use flat::headers::{Header, HeaderRead, Written};
use flat::packets::Parsed;
use header::BluefinHeader;

#[unsafe(no_mangle)]
pub extern "C" fn bluefin_packet_serialise_into(
    header: Header,
    payload: &[u8],
    buf: &mut [u8],
) -> Written
    ensures { (result, buf.new)
        ≡ first_by written_of (unless_unknown header buf.old (serialises_into (record { header = header_in header; payload = payload.now }) buf.old)) }
{
    match BluefinHeader::try_from(header) {
        Ok(header) => packet::serialise_into(header, payload, buf).into(),
        Err(refusal) => Written::from(Err(refusal)),
    }
}

#[unsafe(no_mangle)]
pub extern "C" fn bluefin_packet_deserialise(bytes: &[u8]) -> HeaderRead
    ensures { result ≡ header_read_of (deserialises bytes.now) }
{
    packet::deserialise(bytes).into()
}

#[unsafe(no_mangle)]
pub extern "C" fn bluefin_from_bytes(datagram: &[u8], index: &mut [u32]) -> Parsed
    ensures { (result, index.new) ≡ first_by parsed_of (parses datagram.now index.old) }
{
    packet::from_bytes(datagram, index).into()
}

#[unsafe(no_mangle)]
pub extern "C" fn bluefin_from_bytes_into(datagram: &[u8], index: &mut [u32]) -> Parsed
    ensures { (result, index.new) ≡ flat_index (indexes datagram.now index.old) }
{
    packet::index_packets(datagram, index).into()
}
