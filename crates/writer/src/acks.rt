// Packing queued acks into a datagram. Ports worker/writer.rs, `consume_acks_into`; document 01, "From the queue to a datagram", its second paragraph.
// The acks lie in a lent run of records, used as the ring of crates/ring_buffer.
// Proved: the call says, and leaves behind in ring, cells and output, what its definition in specs/Acks.antt gives.
// proofs/AckLaws.antt relates this to the queue's records in order.
ghost use Rattle.std.specs.Prelude.{◌≡◌, ◌+◌, ◌≤◌, true, length, take};
ghost use Rattle.std.proofs.Math.Seq.{paste};
ghost use Rattle.refusal.specs.Said.{says};
ghost use Rattle.header.specs.Header.{header_bytes};
ghost use Rattle.ring_buffer.specs.Ring.{well_formed, contents};
ghost use Rattle.ring_buffer.specs.Views.{SameLent};
ghost use Rattle.writer.specs.Acks.{ack_header, any_too_large, leaving, consumes_acks};

use header::{BluefinHeader, BluefinSecurityFields, HEADER_SIZE, PacketType};
use net::ConnectionIds;
use refusal::Refusal;
use ring_buffer::{AckData, RingView, RingViewMut};

// How many acks were packed, and whether there is anything to send.
#[derive(Clone, Copy, Debug, PartialEq, Eq)]
pub struct AcksPacked {
    pub acks: usize,
    pub to_send: bool,
}

// The largest count that a header's field holds.
const LARGEST_COUNT: u32 = u16::MAX as u32;

// An ack is sent as a header alone.
const ACK_SIZE: usize = HEADER_SIZE;

// Whether there is a count too large among the k acks in front.
fn any_too_large(ring: &RingView, k: usize) -> bool
    requires few { k ≤ ring.now.state.len }
    requires well { well_formed ring.now.state (length ring.now.records.now) ≡ true }
    ensures { result ≡ any_too_large (take k (contents ring.now.state ring.now.records.now)) }
{
    (0..k).any(|i| ring.record_unchecked(i).num_packets_consumed > LARGEST_COUNT)
}

// The header of an ack, written from `at` on.
fn write_ack(ack: AckData, ids: ConnectionIds, out: &mut [u8], at: usize)
    requires count { ack.num_packets_consumed ≤ 65535 }
    requires room { at + 20 ≤ length out.old }
    ensures { out.new ≡ paste out.old at (header_bytes (ack_header ids.source ids.destination ack)) 20 }
{
    let security = BluefinSecurityFields::new(false, 0);
    let header = BluefinHeader::new(
        ids.source,
        ids.destination,
        PacketType::Ack,
        ack.num_packets_consumed as u16,
        security,
    );
    header
        .with_packet_number(ack.base_packet_num)
        .serialise_at_unchecked(out, at);
}

// worker/writer.rs, `WriterHandler::consume_acks_into`, which cuts a count above 65,535.
#[tactic(auto, unfolding(crate::specs::Acks::consumes_acks, crate::specs::Acks::datagram_limit))]
pub fn consume_acks_into(
    ring: &mut RingViewMut,
    used: usize,
    ids: ConnectionIds,
    out: &mut [u8],
) -> Result<AcksPacked, Refusal>
    ensures lent { SameLent ring.old ring.new }
    ensures packed { leaving (says (λ p. p) result) ring.new out.new
        ≡ consumes_acks ring.old.state ring.old.records.now used ids.source ids.destination out.old }
{
    let queued = ring.state.len;
    if !ring.state.well_formed(ring.records.len()) || out.len() < used {
        return Err(Refusal::Malformed);
    }
    let fitting = net::MAX_BLUEFIN_BYTES_IN_UDP_DATAGRAM.saturating_sub(used) / ACK_SIZE;
    let acks = queued.min(fitting);
    if any_too_large(&ring.view(), acks) {
        return Err(Refusal::OutOfRange);
    }
    if out.len() - used < ACK_SIZE * acks {
        return Err(Refusal::BufferShort);
    }
    for i in 0..acks {
        let ack = ring.pop_front_unchecked();
        write_ack(ack, ids, out, used + ACK_SIZE * i);
    }
    Ok(AcksPacked {
        acks,
        to_send: queued > 0 && used + ACK_SIZE * acks > 0,
    })
}
