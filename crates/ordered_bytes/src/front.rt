// What the buffer keeps: a packet in its slot, and what is left once packets have left theirs.
// Ports the state changes of `buffer_in_packet`, `consume` and `consume_bytes` of net/ordered_bytes.rs; document 01, "From packets to the reader".
// Proved: the buffer left is the definition's.
ghost use Rattle.std.specs.Prelude.{◌≡◌, true, ◌+◌, ◌*◌, ◌≤◌, ◌<◌, length, take, drop};
ghost use Rattle.ordered_bytes.specs.Buffer.{buffer_now, well_formed, stored, taken, SameLent};
ghost use Rattle.ordered_bytes.specs.Steps.{held_payloads};

use crate::{BufferViewMut, SlotLength};

impl BufferViewMut<'_> {
    // Stores a payload in a slot: its mark, its length and its bytes.
    pub(crate) fn store_in(&mut self, slot: usize, payload: &[u8])
        requires in_ring { (slot < length self.old.marks.now) × (slot < length self.old.lengths.now) }
        requires fits { (length payload.now ≤ 65535) × (slot * self.old.state.slot_width + length payload.now ≤ length self.old.store.now) }
        ensures lent { SameLent self.old self.new }
        ensures state { self.new.state ≡ self.old.state }
        ensures value { buffer_now self.new ≡ stored (buffer_now self.old) slot payload.now }
    {
        self.marks[slot] = true;
        self.lengths[slot] = payload.len() as SlotLength;
        let at = slot * self.state.slot_width;
        parts::copy_part(payload, 0, payload.len(), self.store, at);
    }

    // Takes packets from the front out of their slots, and makes a part of the store the carry-over.
    #[tactic(auto, using(crate::proofs::Given::payloads_fit, crate::proofs::Payloads::held_few))]
    pub(crate) fn take_packets(&mut self, packets: usize, rest_at: usize, rest: usize)
        requires passed { well_formed (buffer_now self.old) ≡ true }
        requires all_held { length (held_payloads (buffer_now self.old) packets) ≡ packets }
        requires rest_in_store { (rest_at + rest ≤ length self.old.store.now) × (rest ≤ self.old.state.slot_width) }
        ensures lent { SameLent self.old self.new }
        ensures value { buffer_now self.new ≡ taken (buffer_now self.old) packets (take rest (drop rest_at self.old.store.now)) }
    {
        let carry_at = self.assume_checked().carry_at();
        parts::move_part(self.store, rest_at, rest, carry_at);
        let front_slot = self.state.front_slot;
        slots::take_slots(front_slot, packets, self.marks, self.lengths);
        self.state.front_slot = slots::wrap_index(self.marks.len(), front_slot, packets);
        self.state.front_number += packets as u64;
        self.state.carry_len = rest;
    }
}
