// What net/mod.rs gives the link: its sizes, the tests of handshake packets, the packet without payload; and the headers that close a connection.
// Carries the end of document 01's "Closing". A packet is a header beside its payload, so that the tests take a header, and the empty packet is one.
// Proved: each call's answer, and what it leaves in the lent buffer, are the definition's of specs/; a FIN is read back as it was written (proofs/Laws.antt).
#![tactic(auto)]

ghost use Rattle.std.specs.Prelude.{◌≡◌, List, ℕ};
ghost use Rattle.refusal.specs.Said.{Said, says};
ghost use Rattle.net.specs.Hello.{host_in, is_hello, is_client_ack};
ghost use Rattle.net.specs.Control.{header_alone, writes_control, writes_fin, writes_fin_ack};

use header::{BluefinHeader, BluefinSecurityFields, HEADER_SIZE, PacketType};
use refusal::Refusal;

// net/mod.rs, the sizes of document 01: a header of 20 bytes, payloads of up to 1,500, ten packets in a datagram, and so up to 15,200 bytes.
pub const BLUEFIN_HEADER_SIZE_BYTES: usize = HEADER_SIZE;

pub const MAX_BLUEFIN_PAYLOAD_SIZE_BYTES: usize = 1500;

pub const MAX_BLUEFIN_PACKETS_IN_UDP_DATAGRAM: usize = 10;

pub const MAX_BLUEFIN_BYTES_IN_UDP_DATAGRAM: usize = MAX_BLUEFIN_PACKETS_IN_UDP_DATAGRAM
    * (BLUEFIN_HEADER_SIZE_BYTES + MAX_BLUEFIN_PAYLOAD_SIZE_BYTES);

// The side of a connection. The Rust compares its own with the first two only: `Other` stands for every further one.
#[derive(Clone, Copy, Debug, PartialEq, Eq)]
pub enum BluefinHost {
    PackLeader,
    Client,
    Other,
}

// A host that hands its kind over as a number: 0 is PackLeader, 1 Client, any other some other host.
impl From<u8> for BluefinHost {
    ghost from_gives = { λ n host. host ≡ host_in n };

    fn from(number: u8) -> Self {
        match number {
            0 => Self::PackLeader,
            1 => Self::Client,
            _ => Self::Other,
        }
    }
}

// The two ends of a connection, as the headers of one side name them.
#[derive(Clone, Copy, Debug, PartialEq, Eq)]
pub struct ConnectionIds {
    pub source: u32,
    pub destination: u32,
}

// net/mod.rs, `is_hello_packet`.
pub fn is_hello_packet(host_type: BluefinHost, header: BluefinHeader) -> bool
    ensures { result ≡ is_hello host_type header }
{
    let other_id = header.source_connection_id;
    let this_id = header.destination_connection_id;
    match host_type {
        BluefinHost::PackLeader => header.type_field == PacketType::UnencryptedClientHello
            && other_id != 0
            && this_id == 0,
        BluefinHost::Client => header.type_field == PacketType::UnencryptedServerHello
            && other_id != 0
            && this_id != 0,
        BluefinHost::Other => true,
    }
}

// net/mod.rs, `is_client_ack_packet`.
pub fn is_client_ack_packet(host_type: BluefinHost, header: BluefinHeader) -> bool
    ensures { result ≡ is_client_ack host_type header }
{
    let other_id = header.source_connection_id;
    let this_id = header.destination_connection_id;
    match host_type {
        BluefinHost::PackLeader => header.type_field == PacketType::ClientAck
            && other_id != 0
            && this_id != 0,
        BluefinHost::Client => false,
        BluefinHost::Other => false,
    }
}

// net/mod.rs, `build_empty_encrypted_packet`: for all its name, the packet is marked as not encrypted.
pub fn build_empty_encrypted_packet(
    ids: ConnectionIds,
    packet_number: u64,
    packet_type: PacketType,
) -> BluefinHeader
    ensures { result ≡ header_alone packet_type ids.source ids.destination packet_number }
{
    let security_fields = BluefinSecurityFields::new(false, 0);
    BluefinHeader::new(
        ids.source,
        ids.destination,
        packet_type,
        0,
        security_fields,
    ).with_packet_number(packet_number)
}

// worker/writer.rs, `send_control_packet`, without its socket. Version and mask are 0, so that nothing but the room can be wrong.
fn write_control(
    packet_type: PacketType,
    ids: ConnectionIds,
    packet_number: u64,
    buf: &mut [u8],
) -> Result<usize, Refusal>
    ensures { ◌≡◌ {A = Said ℕ × List ℕ} (says (λ n. n) result, buf.new) (writes_control packet_type ids.source ids.destination packet_number buf.old) }
{
    build_empty_encrypted_packet(ids, packet_number, packet_type).serialise_into(buf)
}

// worker/writer.rs, `send_fin`, without its socket.
pub fn write_fin(ids: ConnectionIds, packet_number: u64, buf: &mut [u8]) -> Result<usize, Refusal>
    ensures { ◌≡◌ {A = Said ℕ × List ℕ} (says (λ n. n) result, buf.new) (writes_fin ids.source ids.destination packet_number buf.old) }
{
    write_control(PacketType::Fin, ids, packet_number, buf)
}

// worker/writer.rs, `send_fin_ack`, without its socket: the number is that of the FIN which it answers.
pub fn write_fin_ack(
    ids: ConnectionIds,
    packet_number: u64,
    buf: &mut [u8],
) -> Result<usize, Refusal>
    ensures { ◌≡◌ {A = Said ℕ × List ℕ} (says (λ n. n) result, buf.new) (writes_fin_ack ids.source ids.destination packet_number buf.old) }
{
    write_control(PacketType::FinAck, ids, packet_number, buf)
}
