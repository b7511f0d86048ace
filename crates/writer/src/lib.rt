// Packing what is queued into datagrams, and making an empty packet. Ports worker/writer.rs without its sockets, tasks and signalling;
// document 01, "From the queue to a datagram"; document 02, §3 and §5.
// Proved: what each call says and leaves in lent memory is the definition's, on every input; what is packed is read back (proofs/Made.antt).
#![tactic(auto)]

ghost use Rattle.std.specs.Prelude.{◌≡◌, ℕ, ◌+◌, ◌^◌, ◌<◌, ◌≤◌, SomeIff, length, eqb};
ghost use Rattle.std.proofs.Math.Seq.{paste};
ghost use Rattle.refusal.specs.Said.{says};
ghost use Rattle.lists.specs.Numbers.{largest};
ghost use Rattle.packet.specs.Packet.{packet_bytes};
ghost use Rattle.outstanding.specs.Outstanding.{store_now, SameLent};
ghost use Rattle.writer.specs.Packing.{queue_in, packets_for, packed_size, data_packet, all_packed, removal, removed, sum, leaves, packing};
ghost use Rattle.writer.specs.Sending.{consumes_data, sending_of};
ghost use Rattle.writer.specs.Empty.{packs_empty, sending_empty_of};
ghost use Rattle.writer.specs.PayloadBytes.{payload_bytes};
ghost use Rattle.writer.specs.Reserve.{reserving};

use header::{BluefinHeader, BluefinSecurityFields, HEADER_SIZE, HeaderAt, PacketType};
use net::ConnectionIds;
use outstanding::{PACKET_SIZE, PLACES, StoreViewMut};
use refusal::Refusal;

pub mod acks;

const PAYLOAD_SIZE: usize = net::MAX_BLUEFIN_PAYLOAD_SIZE_BYTES;

// The payload bytes of a full datagram: its 15,200 bytes less ten headers.
const BYTE_LIMIT: usize = net::MAX_BLUEFIN_PACKETS_IN_UDP_DATAGRAM * PAYLOAD_SIZE;

// The entries whose lengths are summed at once, which the compiler makes wide, where the end of what leaves the queue is looked for.
const BLOCK: usize = 64;

// What a packing took and made: payload bytes, packets, the number after the last one, entries removed from the queue's front, and bytes cut
// from the first entry left.
#[derive(Clone, Copy, Debug, PartialEq, Eq)]
pub struct DataPacked {
    pub bytes: usize,
    pub packets: usize,
    pub next_packet_num: u64,
    pub entries_removed: usize,
    pub bytes_cut: usize,
}

// A FIN's number, and the next one.
#[derive(Clone, Copy, Debug, PartialEq, Eq)]
pub struct Reservation {
    pub number: u64,
    pub next_packet_num: u64,
}

// The entries that leave the queue, and the bytes cut from the first one left.
#[derive(Clone, Copy)]
struct Removal {
    entries: usize,
    cut: usize,
}

// What is queued: the bytes of its entries end to end, and their lengths.
#[derive(Clone, Copy)]
pub struct Queue<'a> {
    pub bytes: &'a [u8],
    pub lengths: &'a [u32],
}

// A plain sum, which the compiler makes wide: fewer than 2^32 entries cannot overflow it.
#[tactic(auto, using(crate::proofs::Entries::sum_is))]
fn sum_of(lengths: &[u32]) -> usize
    requires { length lengths.now < 2 ^ 32 }
    ensures { result ≡ sum lengths.now }
{
    lengths.iter().map(|length| *length as usize).sum()
}

// The sum for any number of entries: none where it overflows.
fn checked_sum_of(lengths: &[u32]) -> Option<usize>
    ensures { SomeIff result (sum lengths.now < 2 ^ 64) (sum lengths.now) }
{
    let mut sum: usize = 0;
    for length in lengths {
        sum = sum.checked_add(*length as usize)?;
    }
    Some(sum)
}

// The entries of a block that go with q bytes.
fn removed_in(lengths: &[u32], q: usize) -> Removal
    ensures { ◌≡◌ {A = ℕ × ℕ} (result.entries, result.cut) (removal q lengths.now) }
{
    let mut left = q;
    for (i, length) in lengths.iter().enumerate() {
        let entry = *length as usize;
        if left == 0 || entry > left {
            return Removal {
                entries: i,
                cut: left,
            };
        }
        left -= entry;
    }
    Removal {
        entries: lengths.len(),
        cut: 0,
    }
}

// Writes one data packet at the output's start.
fn write_packet(payload: &[u8], packet_number: u64, ids: ConnectionIds, out: &mut [u8])
    requires { (length payload.now < 65536) × (20 + length payload.now ≤ length out.old) }
    ensures { out.new ≡ paste out.old 0 (packet_bytes (data_packet ids.source ids.destination packet_number payload.now)) (20 + length payload.now) }
{
    let header = BluefinHeader::new(
        ids.source,
        ids.destination,
        PacketType::UnencryptedData,
        payload.len() as u16,
        BluefinSecurityFields::new(false, 0),
    );
    header
        .with_packet_number(packet_number)
        .serialise_at_unchecked(out, 0);
    parts::put(payload, out, HEADER_SIZE);
}

// Writes all of `taken` as packets, from the output's start.
fn write_packets(taken: &[u8], next_packet_num: u64, ids: ConnectionIds, out: &mut [u8])
    requires { (next_packet_num + packets_for (length taken.now) ≤ largest) × (packed_size (length taken.now) ≤ length out.old) }
    ensures { out.new ≡ paste out.old 0 (all_packed ids.source ids.destination next_packet_num taken.now) (packed_size (length taken.now)) }
{
    for (i, payload) in taken.chunks(PAYLOAD_SIZE).enumerate() {
        let at = i * PACKET_SIZE;
        write_packet(payload, next_packet_num + i as u64, ids, &mut out[at..]);
    }
}

impl Queue<'_> {
    // Refusal 12 where it answers no: "lengths not adding up to the bytes".
    fn adds_up(&self) -> bool
        ensures { result ≡ eqb (sum self.now.lengths.now) (length self.now.bytes.now) }
    {
        if self.lengths.len() <= u32::MAX as usize {
            return sum_of(self.lengths) == self.bytes.len();
        }
        checked_sum_of(self.lengths) == Some(self.bytes.len())
    }

    // The entries that go with the first q bytes: block by block, and one by one in the block where they end.
    fn removed_with(&self, q: usize) -> Removal
        ensures { ◌≡◌ {A = ℕ × ℕ} (result.entries, result.cut) (removal q self.now.lengths.now) }
    {
        let mut left = q;
        let mut passed = 0;
        for block in self.lengths.chunks(BLOCK) {
            let bytes = sum_of(block);
            if bytes >= left {
                let last = removed_in(block, left);
                return Removal {
                    entries: passed + last.entries,
                    cut: last.cut,
                };
            }
            left -= bytes;
            passed += block.len();
        }
        Removal {
            entries: passed,
            cut: 0,
        }
    }

    // What leaves the queue: below the limit every entry, empty ones too.
    fn removed_up_to(&self, limit: usize) -> Removal
        ensures { ◌≡◌ {A = ℕ × ℕ} (result.entries, result.cut) (removed limit (queue_in self.now)) }
    {
        if self.bytes.len() < limit {
            return Removal {
                entries: self.lengths.len(),
                cut: 0,
            };
        }
        self.removed_with(limit)
    }

    // Packs at most `limit` bytes.
    fn pack_up_to(
        &self,
        limit: usize,
        next_packet_num: u64,
        ids: ConnectionIds,
        out: &mut [u8],
    ) -> Result<DataPacked, Refusal>
        ensures { leaves result out.new ≡ packing limit (queue_in self.now) next_packet_num ids.source ids.destination out.old }
    {
        if !self.adds_up() {
            return Err(Refusal::Malformed);
        }
        let q = self.bytes.len().min(limit);
        let p = q.div_ceil(PAYLOAD_SIZE);
        let next = next_packet_num
            .checked_add(p as u64)
            .ok_or(Refusal::Exhausted)?;
        if out.len() < q + HEADER_SIZE * p {
            return Err(Refusal::BufferShort);
        }
        write_packets(&self.bytes[..q], next_packet_num, ids, out);
        let removal = self.removed_up_to(limit);
        Ok(DataPacked {
            bytes: q,
            packets: p,
            next_packet_num: next,
            entries_removed: removal.entries,
            bytes_cut: removal.cut,
        })
    }
}

// worker/writer.rs, `WriterHandler::consume_data_into`. What leaves the queue is answered.
// The packets made are kept in the store (document 02, §3), and take no more places than it has free.
pub fn consume_data_into(
    store: &mut StoreViewMut,
    queue: &Queue,
    next_packet_num: u64,
    ids: ConnectionIds,
    out: &mut [u8],
) -> Result<DataPacked, Refusal>
    ensures lent { SameLent store.old store.new }
    ensures sent { sending_of result out.new (store_now store.new)
        ≡ consumes_data (store_now store.old) (queue_in queue.now) next_packet_num ids.source ids.destination out.old }
{
    if !store.view().well_formed_below(next_packet_num) {
        return Err(Refusal::Malformed);
    }
    let free = PLACES - store.state.count;
    let limit = BYTE_LIMIT.min(PAYLOAD_SIZE * free);
    let packed = queue.pack_up_to(limit, next_packet_num, ids, out)?;
    if free == 0 {
        return Err(Refusal::NoPlace);
    }
    let end = packed.bytes + HEADER_SIZE * packed.packets;
    store.keep(next_packet_num, packed.bytes, packed.packets, &out[..end]);
    Ok(packed)
}

// An empty data packet (document 02, §5), which the Rust does not make: a header alone, written from the output's start and kept in the store like a packet of data.
// To stand last in a datagram it is given the output behind what was packed. Answers the next number.
pub fn pack_empty_into(
    store: &mut StoreViewMut,
    next_packet_num: u64,
    ids: ConnectionIds,
    out: &mut [u8],
) -> Result<u64, Refusal>
    ensures lent { SameLent store.old store.new }
    ensures sent { sending_empty_of result out.new (store_now store.new)
        ≡ packs_empty (store_now store.old) next_packet_num ids.source ids.destination out.old }
{
    if !store.view().well_formed_below(next_packet_num) {
        return Err(Refusal::Malformed);
    }
    let next = next_packet_num.checked_add(1).ok_or(Refusal::Exhausted)?;
    if out.len() < HEADER_SIZE {
        return Err(Refusal::BufferShort);
    }
    if store.state.count == PLACES {
        return Err(Refusal::NoPlace);
    }
    let header = net::build_empty_encrypted_packet(
        ids,
        next_packet_num,
        PacketType::UnencryptedData,
    );
    header.serialise_at_unchecked(out, 0);
    store.keep(next_packet_num, 0, 1, &out[..HEADER_SIZE]);
    Ok(next)
}

// worker/writer.rs, `WriterHandler::payload_bytes_in_datagram`. No chain: each header's field says where the next one begins.
pub fn payload_bytes_in_datagram(datagram: &[u8]) -> usize
    ensures { result ≡ payload_bytes datagram.now }
{
    let mut total = 0;
    let mut at = 0;
    while datagram.len() - at >= HEADER_SIZE {
        let header = HeaderAt {
            bytes: datagram,
            at,
        };
        let field = header.field() as usize;
        if datagram.len() - at - HEADER_SIZE < field {
            return total;
        }
        total += field;
        at += HEADER_SIZE + field;
    }
    total
}

// worker/writer.rs, `reserve_close_packet_num`. The Rust raises a mirror of the counter; here there is one counter, which packing takes its numbers from too.
pub fn reserve_close_packet_num(next_packet_num: u64) -> Result<Reservation, Refusal>
    ensures { says (λ v. (v.number, v.next_packet_num)) result ≡ reserving next_packet_num }
{
    let next = next_packet_num.checked_add(1).ok_or(Refusal::Exhausted)?;
    Ok(Reservation {
        number: next_packet_num,
        next_packet_num: next,
    })
}
