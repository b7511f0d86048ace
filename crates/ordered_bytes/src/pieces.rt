// `consume_bytes`: carry-over and held packets as pieces. They are counted first, so that 10 and 8 are decided before anything moves.
// Ports `consume_bytes` of net/ordered_bytes.rs; document 01, "From packets to the reader".
// Proved: the pieces counted and copied and their lengths are the definition's.
ghost use Rattle.std.specs.Prelude.{◌≡◌, cond, length, eqb};
ghost use Rattle.ordered_bytes.specs.Buffer.{buffer_in};
ghost use Rattle.ordered_bytes.specs.Steps.{held_payloads, pieces_of, PayloadsCounted, PiecesCounted, RoomFor, PiecesCopied};

use crate::ConsumeResult;
use crate::checked::Checked;

// Payloads of held packets from the front on, and their bytes.
#[derive(Clone, Copy)]
struct Payloads {
    packets: usize,
    bytes: usize,
}

impl Checked<'_> {
    // "carry-over is one piece", and a length of 0 means none.
    fn carry_pieces(&self) -> usize
        ensures { result ≡ cond (eqb self.now.view.state.carry_len 0) 0 1 }
    {
        usize::from(self.view.state.carry_len > 0)
    }

    // Held payloads from the front on, at most so many. A loop, as the copy of them below: a chain of held slots would need an iterator with laws of its own.
    fn count_payloads(&self, most: usize) -> Payloads
        ensures { PayloadsCounted (held_payloads (buffer_in self.now.view) most) result }
    {
        let view = self.view;
        let mut counted = Payloads {
            packets: 0,
            bytes: 0,
        };
        for distance in 0..most.min(view.marks.len()) {
            let slot = self.slot_at(distance);
            if !view.marks[slot] {
                break;
            }
            counted = Payloads {
                packets: distance + 1,
                bytes: counted.bytes + view.lengths[slot] as usize,
            };
        }
        counted
    }

    // "carry-over is one piece, then held packets while pieces are fewer than the limit": what they give, and how many they are.
    pub(crate) fn count_pieces(&self, limit: usize) -> (ConsumeResult, usize)
        ensures { PiecesCounted (buffer_in self.now.view) limit result.0 result.1 }
    {
        let first = self.carry_pieces();
        let counted = self.count_payloads(limit.saturating_sub(first));
        (
            ConsumeResult {
                num_packets_consumed: counted.packets,
                base_packet_number: self.base_packet_number(),
                bytes_consumed: (self.view.state.carry_len + counted.bytes) as u64,
            },
            first + counted.packets,
        )
    }

    // Copies the payloads of packets held from the front on to `buf` from `at` on, and their lengths to `list` from `first` on.
    #[tactic(auto, using(crate::proofs::Payloads::held_few))]
    fn copy_payloads(
        &self,
        packets: usize,
        buf: &mut [u8],
        at: usize,
        list: &mut [u32],
        first: usize,
    )
        requires all_held { length (held_payloads (buffer_in self.now.view) packets) ≡ packets }
        requires room_for { RoomFor (held_payloads (buffer_in self.now.view) packets) buf.old at list.old first }
        ensures { PiecesCopied (held_payloads (buffer_in self.now.view) packets) buf.old buf.new at list.old list.new first }
    {
        let view = self.view;
        let mut given = at;
        for distance in 0..packets {
            let slot = self.slot_at(distance);
            let size = view.lengths[slot];
            parts::copy_part(
                view.store,
                slot * view.state.slot_width,
                size as usize,
                buf,
                given,
            );
            list[first + distance] = size;
            given += size as usize;
        }
    }

    // Copies the carry-over and the payloads of `packets` held packets, and the lengths of all pieces.
    #[tactic(auto, using(crate::proofs::Gathered::room_behind))]
    pub(crate) fn copy_pieces(&self, packets: usize, buf: &mut [u8], list: &mut [u32])
        requires all_held { length (held_payloads (buffer_in self.now.view) packets) ≡ packets }
        requires room_for { RoomFor (pieces_of (buffer_in self.now.view) packets) buf.old 0 list.old 0 }
        ensures { PiecesCopied (pieces_of (buffer_in self.now.view) packets) buf.old buf.new 0 list.old list.new 0 }
    {
        let carry_len = self.view.state.carry_len;
        parts::copy_part(self.view.store, self.carry_at(), carry_len, buf, 0);
        if carry_len > 0 {
            list[0] = carry_len as u32;
        }
        self.copy_payloads(packets, buf, carry_len, list, self.carry_pieces());
    }
}
