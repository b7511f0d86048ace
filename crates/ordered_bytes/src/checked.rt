// A view that has passed the test of refusal 12, so that the steps of a read ask it of no caller.
// Proved: the base and the slots are the definition's.
ghost use Rattle.std.specs.Prelude.{◌≡◌, true, false, Err, ◌<◌, length, OnOk, OnErr, IfOk};
ghost use Rattle.refusal.specs.declared.Refusal.TheVariants.{Malformed};
ghost use Rattle.refusal.specs.Said.{says};
ghost use Rattle.ordered_bytes.specs.Receiver.{base};
ghost use Rattle.ordered_bytes.specs.Buffer.{buffer_in, buffer_now, view, well_formed, slot_at};
ghost use Rattle.ordered_bytes.specs.Good.{Good};
ghost use Rattle.ordered_bytes.specs.Calls.{peeking};
ghost use Rattle.ordered_bytes.specs.Steps.{InRing, CarryAt};

use crate::{BufferView, BufferViewMut};
use refusal::Refusal;

#[derive(Clone, Copy)]
pub struct Checked<'a> {
    pub view: BufferView<'a>,
    ghost good: { Good (buffer_in view) },
}

impl<'a> BufferView<'a> {
    // Refusal 12, or a view that needs no further test.
    pub fn checked(&self) -> Result<Checked<'a>, Refusal>
        ensures ok { OnOk result (well_formed (buffer_in self.now) ≡ true) }
        ensures same { IfOk result (λ checked. checked.view ≡ self.now) }
        ensures err { OnErr result ((well_formed (buffer_in self.now) ≡ false) × (result ≡ Err Malformed)) }
    {
        if self.well_formed() {
            Ok(Checked { view: *self })
        } else {
            Err(Refusal::Malformed)
        }
    }
}

impl BufferViewMut<'_> {
    // Of a buffer that has passed the test before.
    pub(crate) fn assume_checked(&self) -> Checked<'_>
        requires { well_formed (buffer_now self.now) ≡ true }
        ensures good { Good (buffer_now self.now) }
        ensures whole { buffer_in result.view ≡ buffer_now self.now }
        ensures state { result.view.state ≡ self.now.state }
        ensures marks { result.view.marks.now ≡ self.now.marks.now }
        ensures store { result.view.store.now ≡ self.now.store.now }
    {
        Checked { view: self.view() }
    }
}

impl Checked<'_> {
    // "Base is the front packet's number before the walk, or 0 if none is held."
    #[tactic(auto, using(crate::proofs::Places::base_at))]
    pub(crate) fn base_packet_number(&self) -> u64
        ensures { result ≡ base (view (buffer_in self.now.view)) }
    {
        let state = self.view.state;
        if self.view.marks[state.front_slot] {
            state.front_number
        } else {
            0
        }
    }

    // "Yes if carry-over or the front slot is held".
    #[tactic(auto, using(crate::proofs::WellFormed::is_good, crate::proofs::Places::available_at), unfolding(crate::specs::Calls::peeking))]
    pub fn peek(&self) -> Result<(), Refusal>
        ensures { says (λ u. u) result ≡ peeking (buffer_in self.now.view) }
    {
        let state = self.view.state;
        if 0 < state.carry_len || self.view.marks[state.front_slot] {
            Ok(())
        } else {
            Err(Refusal::Empty)
        }
    }

    // The slot at a distance from the front.
    pub(crate) fn slot_at(&self, distance: usize) -> usize
        requires { distance < length self.now.view.marks.now }
        ensures value { result ≡ slot_at (buffer_in self.now.view) distance }
        ensures in_ring { InRing (buffer_in self.now.view) result }
    {
        slots::wrap_index(self.view.marks.len(), self.view.state.front_slot, distance)
    }

    // Where the carry-over stands in the store.
    pub(crate) fn carry_at(&self) -> usize
        ensures { CarryAt (buffer_in self.now.view) result }
    {
        self.view.marks.len() * self.view.state.slot_width
    }
}
