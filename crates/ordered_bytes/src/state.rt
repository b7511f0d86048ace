// Refusal 12's test; document 01, the refusal table. What concerns the slots alone is tested in crates/slots.
// Proved: each test is the definition's.
ghost use Rattle.std.specs.Prelude.{◌≡◌, ◌≤◌, ◌<◌, length, drop};
ghost use Rattle.ordered_bytes.specs.Receiver.{numbers_fit, any_held};
ghost use Rattle.ordered_bytes.specs.Buffer.{buffer_in, view, shape_fits, well_formed};

use crate::{BufferView, OrderedBytes, SlotLength};
use lists::LARGEST;

// net/ordered_bytes.rs, MAX_BUFFER_SIZE: the most slots.
const MAX_BUFFER_SIZE: usize = 2000;

const MAX_SLOT_WIDTH: usize = 65535;

impl BufferView<'_> {
    // N, W and the lent lists' lengths.
    pub(crate) fn shape_fits(&self) -> bool
        ensures { result ≡ shape_fits self.now.state.slot_width self.now.marks.now self.now.lengths.now self.now.store.now }
    {
        let n = self.marks.len();
        let slot_width = self.state.slot_width;
        (1..=MAX_BUFFER_SIZE).contains(&n)
            && (1..=MAX_SLOT_WIDTH).contains(&slot_width)
            && self.lengths.len() == n
            && self.store.len() == (n + 1) * slot_width
    }

    #[tactic(auto, unfolding(crate::specs::Buffer::well_formed))]
    pub fn well_formed(&self) -> bool
        ensures { result ≡ well_formed (buffer_in self.now) }
    {
        let OrderedBytes {
            slot_width,
            front_slot,
            carry_len,
            ..
        } = self.state;
        self.shape_fits()
            && front_slot < self.marks.len()
            && carry_len <= slot_width
            && slots::lengths_within(slot_width as SlotLength, self.lengths)
            && self.held_numbers_fit()
    }

    // Whether a slot is held at this distance from the front slot or farther.
    pub(crate) fn held_from(&self, distance: u64) -> bool
        requires { (length self.now.marks.now ≤ 2000) × (self.now.state.front_slot < length self.now.marks.now) }
        ensures { result ≡ any_held (drop distance (view (buffer_in self.now)).held) }
    {
        let BufferView { state, marks, .. } = *self;
        let n = marks.len();
        (distance..n as u64).any(|d| marks[slots::wrap_index(n, state.front_slot, d as usize)])
    }

    // No held number above 2^64 − 2: looks only at the distances that lead there, which are none unless the front number is above 2^64 − 1 − N.
    #[tactic(auto, using(crate::proofs::Tests::fit_late))]
    fn held_numbers_fit(&self) -> bool
        requires { (length self.now.marks.now ≤ 2000) × (self.now.state.front_slot < length self.now.marks.now) }
        ensures { result ≡ numbers_fit self.now.state.front_number (view (buffer_in self.now)).held }
    {
        !self.held_from(LARGEST - self.state.front_number)
    }
}
