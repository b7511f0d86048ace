// The receive buffer: packets held by number until the reader takes their bytes in order.
// Ports net/ordered_bytes.rs; document 01, "From packets to the reader".
// Proved: what each call answers, the state and every lent list that it leaves are the definition's in specs/Calls.antt, on every input.
#![tactic(auto)]

ghost use Rattle.std.specs.Prelude.{◌≡◌, true, Err};
ghost use Rattle.refusal.specs.Refusal.{number_of};
ghost use Rattle.refusal.specs.Said.{refuses, says};
ghost use Rattle.ordered_bytes.specs.declared.AcceptError.TheVariants.{Refused};
ghost use Rattle.ordered_bytes.specs.Buffer.{buffer_in, buffer_now, well_formed, SameLent};
ghost use Rattle.ordered_bytes.specs.Calls.{creation_of, creating, starting, accepted_says, acceptance_of, accepting, peeking};
ghost use Rattle.ordered_bytes.specs.Calls.{consumption_of, consuming, piece_consumption_of, consuming_bytes};

pub use checked::Checked;
use lists::LARGEST;
use refusal::Refusal;
pub use slots::SlotLength;
use thiserror::Error;

mod checked;
mod front;
mod pieces;
mod state;
mod stream;

// What is small of the buffer. The rest is lent beside it: a mark and a length for each slot, and the store of (N + 1) × W bytes.
#[repr(C)]
#[derive(Clone, Copy, Debug, PartialEq, Eq, Default)]
pub struct OrderedBytes {
    pub slot_width: usize,
    pub front_slot: usize,
    pub front_number: u64,
    pub carry_len: usize,
}

// The buffer with what is lent beside it. Marks and lengths are two lists, since C lends them so.
#[derive(Clone, Copy)]
pub struct BufferView<'a> {
    pub state: OrderedBytes,
    pub marks: &'a [bool],
    pub lengths: &'a [SlotLength],
    pub store: &'a [u8],
}

// The same to change.
#[derive(Drop)]
pub struct BufferViewMut<'a> {
    pub state: OrderedBytes,
    pub marks: &'a mut [bool],
    pub lengths: &'a mut [SlotLength],
    pub store: &'a mut [u8],
}

// What a read gave: the packets that left their slots, the number of the front one or 0, and the bytes given.
#[derive(Clone, Copy, Debug, PartialEq, Eq)]
pub struct ConsumeResult {
    pub num_packets_consumed: usize,
    pub base_packet_number: u64,
    pub bytes_consumed: u64,
}

// Refusal 5 stands apart: it gives an ack, of that number and count 1, in the form of a read's (document 02, §3).
#[derive(Clone, Copy, Debug, PartialEq, Eq, Error)]
pub enum AcceptError {
    #[error("{}", Refusal::Below)]
    Below(ConsumeResult),
    #[error("{0}")]
    Refused(Refusal),
}

// Without the ack.
impl From<AcceptError> for Refusal {
    ghost from_gives = { λ e refusal. accepted_says (Err e) ≡ refuses (number_of refusal) };

    fn from(error: AcceptError) -> Self {
        match error {
            AcceptError::Below(_) => Refusal::Below,
            AcceptError::Refused(refusal) => refusal,
        }
    }
}

impl From<Refusal> for AcceptError {
    ghost from_gives = { λ refusal e. e ≡ Refused refusal };

    fn from(refusal: Refusal) -> Self {
        Self::Refused(refusal)
    }
}

impl OrderedBytes {
    // net/ordered_bytes.rs, OrderedBytes::new. The store is not written.
    #[tactic(auto, unfolding(crate::specs::Calls::creating))]
    pub fn new(
        slot_width: usize,
        start_packet_number: u64,
        marks: &mut [bool],
        lengths: &mut [SlotLength],
        store: &[u8],
    ) -> Result<Self, Refusal>
        ensures { creation_of result marks.new lengths.new ≡ creating slot_width start_packet_number marks.old lengths.old store.now }
    {
        let state = Self {
            slot_width,
            front_slot: 0,
            front_number: start_packet_number,
            carry_len: 0,
        };
        let view = BufferView {
            state,
            marks,
            lengths,
            store,
        };
        if !view.shape_fits() {
            return Err(Refusal::Malformed);
        }
        slots::clear_slots(marks, lengths);
        Ok(state)
    }
}

impl BufferView<'_> {
    // net/ordered_bytes.rs, OrderedBytes::set_start_packet_number, which has no refusal.
    #[tactic(auto, using(crate::proofs::WellFormed::good), unfolding(crate::specs::Calls::starting))]
    pub fn set_start_packet_number(&self, start_packet_number: u64) -> Result<OrderedBytes, Refusal>
        ensures { says (λ o. o) result ≡ starting (buffer_in self.now) start_packet_number }
    {
        self.checked()?;
        if self.held_from(0) {
            return Err(Refusal::PacketsHeld);
        }
        Ok(OrderedBytes {
            front_number: start_packet_number,
            ..self.state
        })
    }

    // net/ordered_bytes.rs, OrderedBytes::peek.
    #[tactic(auto, unfolding(crate::specs::Calls::peeking))]
    pub fn peek(&self) -> Result<(), Refusal>
        ensures { says (λ u. u) result ≡ peeking (buffer_in self.now) }
    {
        self.checked()?.peek()
    }
}

impl BufferViewMut<'_> {
    pub fn view(&self) -> BufferView<'_>
        ensures whole { buffer_in result ≡ buffer_now self.now }
        ensures state { result.state ≡ self.now.state }
        ensures marks { result.marks.now ≡ self.now.marks.now }
        ensures store { result.store.now ≡ self.now.store.now }
    {
        BufferView {
            state: self.state,
            marks: self.marks,
            lengths: self.lengths,
            store: self.store,
        }
    }

    // net/ordered_bytes.rs, OrderedBytes::buffer_in_packet.
    #[tactic(auto, unfolding(crate::specs::Calls::accepting))]
    pub fn buffer_in_packet(&mut self, n: u64, payload: &[u8]) -> Result<(), AcceptError>
        ensures lent { SameLent self.old self.new }
        ensures state { self.new.state ≡ self.old.state }
        ensures value { acceptance_of result self.new ≡ accepting (buffer_now self.old) n payload.now }
    {
        self.view().checked()?;
        self.buffer_in_packet_unchecked(n, payload)
    }

    // The same without refusal 12's test.
    #[tactic(auto, using(crate::proofs::Accept::accepting_below, crate::proofs::Accept::accepting_beyond, crate::proofs::Accept::accepting_near))]
    pub fn buffer_in_packet_unchecked(&mut self, n: u64, payload: &[u8]) -> Result<(), AcceptError>
        requires { well_formed (buffer_now self.old) ≡ true }
        ensures lent { SameLent self.old self.new }
        ensures state { self.new.state ≡ self.old.state }
        ensures value { acceptance_of result self.new ≡ accepting (buffer_now self.old) n payload.now }
    {
        if n < self.state.front_number {
            return Err(AcceptError::Below(ConsumeResult {
                num_packets_consumed: 1,
                base_packet_number: n,
                bytes_consumed: 0,
            }));
        }
        let distance = n - self.state.front_number;
        if self.marks.len() as u64 <= distance {
            return Err(Refusal::Beyond.into());
        }
        if n == LARGEST {
            return Err(Refusal::Exhausted.into());
        }
        let slot = self.assume_checked().slot_at(distance as usize);
        if self.marks[slot] {
            return Err(Refusal::AlreadyHeld.into());
        }
        if self.state.slot_width < payload.len() {
            return Err(Refusal::OutOfRange.into());
        }
        self.store_in(slot, payload);
        Ok(())
    }

    // net/ordered_bytes.rs, OrderedBytes::consume.
    #[tactic(auto, unfolding(crate::specs::Calls::consuming))]
    pub fn consume(&mut self, len: usize, buf: &mut [u8]) -> Result<ConsumeResult, Refusal>
        ensures lent { SameLent self.old self.new }
        ensures value { consumption_of result self.new buf.new ≡ consuming (buffer_now self.old) len buf.old }
    {
        self.view().checked()?;
        self.consume_unchecked(len, buf)
    }

    // The same without refusal 12's test.
    pub fn consume_unchecked(
        &mut self,
        len: usize,
        buf: &mut [u8],
    ) -> Result<ConsumeResult, Refusal>
        requires { well_formed (buffer_now self.old) ≡ true }
        ensures lent { SameLent self.old self.new }
        ensures value { consumption_of result self.new buf.new ≡ consuming (buffer_now self.old) len buf.old }
    {
        if buf.len() < len {
            return Err(Refusal::BufferShort);
        }
        let read = self.assume_checked().read_bytes(len, buf);
        self.take_packets(read.packets, read.rest_at, read.rest);
        read.answer
    }

    // net/ordered_bytes.rs, OrderedBytes::consume_bytes. The pieces are copied to `buf` end to end, their lengths to `list`.
    #[tactic(auto, unfolding(crate::specs::Calls::consuming_bytes))]
    pub fn consume_bytes(
        &mut self,
        limit: usize,
        buf: &mut [u8],
        list: &mut [u32],
    ) -> Result<(ConsumeResult, usize), Refusal>
        ensures lent { SameLent self.old self.new }
        ensures value { piece_consumption_of result self.new buf.new list.new
            ≡ consuming_bytes (buffer_now self.old) limit buf.old list.old }
    {
        self.view().checked()?;
        self.consume_bytes_unchecked(limit, buf, list)
    }

    // The same without refusal 12's test.
    pub fn consume_bytes_unchecked(
        &mut self,
        limit: usize,
        buf: &mut [u8],
        list: &mut [u32],
    ) -> Result<(ConsumeResult, usize), Refusal>
        requires { well_formed (buffer_now self.old) ≡ true }
        ensures lent { SameLent self.old self.new }
        ensures value { piece_consumption_of result self.new buf.new list.new
            ≡ consuming_bytes (buffer_now self.old) limit buf.old list.old }
    {
        let checked = self.assume_checked();
        let (taken, pieces) = checked.count_pieces(limit);
        if (buf.len() as u64) < taken.bytes_consumed || list.len() < pieces {
            return Err(Refusal::BufferShort);
        }
        if pieces == 0 {
            return Err(Refusal::Empty);
        }
        checked.copy_pieces(taken.num_packets_consumed, buf, list);
        self.take_packets(taken.num_packets_consumed, 0, 0);
        Ok((taken, pieces))
    }
}
