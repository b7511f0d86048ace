// A packet is a header beside its payload, and a datagram is packets end to end.
// Ports core/packet.rs; document 01, "From a datagram to packets" and "The header, last leaf"; document 02 §1.
// Proved: what each call says and leaves in lent memory is the definition's, on every input; written packets are read back (proofs/Trip.antt).
#![tactic(auto)]

ghost use Rattle.std.specs.Prelude.{◌≡◌, List, ℕ, ◌+◌, ◌≤◌, Err, length, take, drop};
ghost use Rattle.refusal.specs.Said.{Said, says, read_says};
ghost use Rattle.packet.specs.Packet.{serialises_into, deserialises, payload_of};
ghost use Rattle.packet.specs.Datagram.{parses, parses_into, indexes};

use header::{BluefinHeader, HEADER_SIZE, HeaderAt};
use parse::Packets;
use refusal::{ReadError, Refusal};

mod parse;

// The longest datagram that is read, document 02 §1: IPv4's total length of 65,535, less 20 bytes of its own header and 8 of UDP's.
pub const READING_LIMIT: usize = 65507;

// Two numbers for each packet that the longest datagram holds.
pub const INDEX_LEN: usize = READING_LIMIT / HEADER_SIZE * 2;

// core/packet.rs, `BluefinPacket::len`.
pub fn len(payload: &[u8]) -> usize
    ensures { result ≡ 20 + length payload.now }
{
    HEADER_SIZE + payload.len()
}

// core/packet.rs, `BluefinPacket::serialise_into`. Answers the bytes written.
#[tactic(auto, using(crate::proofs::Alone::behind_header))]
pub fn serialise_into(
    header: BluefinHeader,
    payload: &[u8],
    buf: &mut [u8],
) -> Result<usize, Refusal>
    ensures { ◌≡◌ {A = Said ℕ × List ℕ} (says (λ n. n) result, buf.new) (serialises_into (record { header = header; payload = payload.now }) buf.old) }
{
    if header.fields_too_large() {
        return Err(Refusal::OutOfRange);
    }
    let total = len(payload);
    if buf.len() < total {
        return Err(Refusal::BufferShort);
    }
    header.serialise_at_unchecked(buf, 0);
    parts::put(payload, buf, HEADER_SIZE);
    Ok(total)
}

// core/packet.rs, `BluefinPacket::deserialise`: the header. The payload is `payload_of` the same bytes.
pub fn deserialise(bytes: &[u8]) -> Result<BluefinHeader, ReadError>
    ensures { read_says (λ h. h) result ≡ deserialises bytes.now }
{
    if bytes.len() < HEADER_SIZE {
        return Err(ReadError::at(Refusal::Short, 0));
    }
    HeaderAt { bytes, at: 0 }.deserialise()
}

// All bytes after a header, as a part of the slice; none where there is no whole header.
pub fn payload_of(bytes: &[u8]) -> &[u8]
    ensures { result.now ≡ payload_of bytes.now }
{
    &bytes[bytes.len().min(HEADER_SIZE)..]
}

// A packet in a datagram, known to lie within it: its header from `at` on, and the `len` bytes behind it.
#[derive(Clone, Copy)]
pub struct PacketAt<'a> {
    pub datagram: &'a [u8],
    pub at: usize,
    pub len: usize,
    ghost within: { at + 20 + len ≤ length datagram.now },
}

impl<'a> PacketAt<'a> {
    pub fn header(&self) -> HeaderAt<'a>
        ensures { (result.bytes.now ≡ self.now.datagram.now) × (result.at ≡ self.now.at) }
    {
        HeaderAt {
            bytes: self.datagram,
            at: self.at,
        }
    }

    pub fn payload(&self) -> &'a [u8]
        ensures { result.now ≡ take self.now.len (drop (self.now.at + 20) self.now.datagram.now) }
    {
        let begin = self.at + HEADER_SIZE;
        &self.datagram[begin..begin + self.len]
    }
}

// What `from_bytes_into` answers, and how many packets stand in the index, refused or not.
#[derive(Clone, Copy, Debug, PartialEq, Eq)]
pub struct Indexed {
    pub answer: Result<usize, ReadError>,
    pub cells: usize,
}

// Refused before any packet was met.
impl From<ReadError> for Indexed {
    ghost from_gives = { λ e indexed. indexed ≡ record { answer = Err e; cells = 0 } };

    fn from(error: ReadError) -> Self {
        Self {
            answer: Err(error),
            cells: 0,
        }
    }
}

// One pass, so that what was met before a refusal stands in the index.
#[tactic(auto, using(crate::proofs::Walk::out_all))]
pub fn index_packets(datagram: &[u8], index: &mut [u32]) -> Indexed
    ensures { ◌≡◌ {A = Said ℕ × List ℕ × ℕ} (read_says (λ n. n) result.answer, index.new, result.cells) (indexes datagram.now index.old) }
{
    match Packets::new(datagram, index.len() / 2) {
        Ok(mut packets) => {
            let answer = packets.write_cells(index);
            Indexed {
                answer,
                cells: packets.met,
            }
        }
        Err(error) => error.into(),
    }
}

// core/packet.rs, `BluefinPacket::from_bytes_into`.
pub fn from_bytes_into(datagram: &[u8], index: &mut [u32]) -> Result<usize, ReadError>
    ensures { ◌≡◌ {A = Said ℕ × List ℕ} (read_says (λ n. n) result, index.new) (parses_into datagram.now index.old) }
{
    index_packets(datagram, index).answer
}

// core/packet.rs, `BluefinPacket::from_bytes`: a pass of tests alone first, so that a refusal leaves the index as it was.
pub fn from_bytes(datagram: &[u8], index: &mut [u32]) -> Result<usize, ReadError>
    ensures { ◌≡◌ {A = Said ℕ × List ℕ} (read_says (λ n. n) result, index.new) (parses datagram.now index.old) }
{
    let mut packets = Packets::new(datagram, index.len() / 2)?;
    while let Some(_) = packets.next_packet()? {}
    from_bytes_into(datagram, index)
}
