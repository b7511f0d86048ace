// The ring of queued acks: records in a lent run of cells that is used round and round. Document 01, "The ring"; the Rust's utils/ring_buffer.rs.
// The state is small and goes by value; with its lent cells it is a view, `RingView` to read and `RingViewMut` to change. The number of cells is the capacity.
// Calls that touch no cell are the state's, and take the capacity alone.
// Proved: each call says, and leaves behind in state and cells, what its definition in specs/Ring.antt gives; `slot` and `popped_by` have theirs in specs/Places.antt.
// proofs/Laws.antt relates these to the queue's records in order.
#![tactic(auto)]

ghost use Rattle.std.specs.Prelude.{◌≡◌, ◌<◌, true, length, get_or, set};
ghost use Rattle.refusal.specs.Said.{says, answers};
ghost use Rattle.ring_buffer.specs.Ring.{blank, fresh, well_formed, contents, len_of, is_empty, is_full, push_back, push_front, pop_front, front, clear};
ghost use Rattle.ring_buffer.specs.Views.{SameLent, leaving, given_back};
ghost use Rattle.ring_buffer.specs.Places.{slot_of, popped_by};

use refusal::Refusal;

// The Rust's worker/writer.rs, `AckData`; the count has document 01's 32 bits.
#[repr(C)]
#[derive(Clone, Copy, Debug, PartialEq, Eq, Default)]
pub struct AckData {
    pub base_packet_num: u64,
    pub num_packets_consumed: u32,
}

impl AckData {
    // What a popped cell becomes.
    pub const BLANK: Self = Self {
        base_packet_num: 0,
        num_packets_consumed: 0,
    };
}

// The Rust's utils/ring_buffer.rs, `RingBuffer`, without the buffer, which is lent, and the capacity, which is its length.
#[repr(C)]
#[derive(Clone, Copy, Debug, PartialEq, Eq, Default)]
pub struct RingBuffer {
    pub head: usize,
    pub tail: usize,
    pub len: usize,
}

// A ring with its cells, to read.
#[derive(Clone, Copy)]
pub struct RingView<'a> {
    pub state: RingBuffer,
    pub records: &'a [AckData],
}

// A ring with its cells, to change.
#[derive(Drop)]
pub struct RingViewMut<'a> {
    pub state: RingBuffer,
    pub records: &'a mut [AckData],
}

// The i-th position from a cell on, round the end; the capacity, which is no cell, where `position` is none.
// The sum never passes the capacity, so it cannot overflow.
pub fn slot(position: usize, capacity: usize, i: usize) -> usize
    ensures { result ≡ slot_of position capacity i }
{
    if capacity <= position {
        return capacity;
    }
    slot_from(position, capacity, i)
}

// The same from a cell, for what is done once for each record of the queue: no test is left.
fn slot_from(position: usize, capacity: usize, i: usize) -> usize
    requires { position < capacity }
    ensures { result ≡ slot_of position capacity i }
{
    let left = capacity - position;
    if i < left { position + i } else { i - left }
}

// a is stored at i, and what lay there is handed back. Past the end nothing is stored, and a itself handed back.
pub fn swap_record(records: &mut [AckData], i: usize, a: AckData) -> AckData
    ensures { (result ≡ get_or records.old i a) × (records.new ≡ set records.old i a) }
{
    if records.len() <= i {
        return a;
    }
    let old = records[i];
    records[i] = a;
    old
}

// What lies at i, or the blank record past the end.
pub fn record_at(records: &[AckData], i: usize) -> AckData
    ensures { result ≡ get_or records.now i blank }
{
    records.get(i).copied().unwrap_or(AckData::BLANK)
}

impl RingBuffer {
    // utils/ring_buffer.rs, `RingBuffer::new`. The lent cells are not written: those outside the queue hold anything.
    pub fn new() -> Self
        ensures { result ≡ fresh }
    {
        Self::default()
    }

    // The test of refusal 12.
    #[tactic(auto, using(crate::proofs::Positions::slot_is))]
    pub fn well_formed(self, capacity: usize) -> bool
        ensures { result ≡ well_formed self capacity }
    {
        if self.len > capacity {
            return false;
        }
        if capacity == 0 {
            return self.head == 0 && self.tail == 0;
        }
        self.head < capacity && self.tail == slot(self.head, capacity, self.len)
    }

    // utils/ring_buffer.rs, `RingBuffer::len`.
    pub fn len(self, capacity: usize) -> Result<usize, Refusal>
        ensures { says (λ n. n) result ≡ len_of self capacity }
    {
        if !self.well_formed(capacity) {
            return Err(Refusal::Malformed);
        }
        Ok(self.len)
    }

    // utils/ring_buffer.rs, `RingBuffer::is_empty`.
    pub fn is_empty(self, capacity: usize) -> Result<bool, Refusal>
        ensures { says (λ b. b) result ≡ is_empty self capacity }
    {
        Ok(self.len(capacity)? == 0)
    }

    // utils/ring_buffer.rs, `RingBuffer::is_full`.
    pub fn is_full(self, capacity: usize) -> Result<bool, Refusal>
        ensures { says (λ b. b) result ≡ is_full self capacity }
    {
        Ok(self.len(capacity)? == capacity)
    }

    // The ring once the k records in front are popped; the ring as it was where there are fewer.
    pub fn popped_by(self, capacity: usize, k: usize) -> Self
        ensures { result ≡ popped_by self capacity k }
    {
        if k == 0 || self.len < k {
            return self;
        }
        Self {
            head: slot(self.head, capacity, k),
            len: self.len - k,
            ..self
        }
    }
}

impl RingView<'_> {
    // utils/ring_buffer.rs, `RingBuffer::front`.
    pub fn front(&self) -> Result<AckData, Refusal>
        ensures { says (λ a. a) result ≡ front self.now.state self.now.records.now }
    {
        if self.state.is_empty(self.records.len())? {
            return Err(Refusal::Empty);
        }
        Ok(record_at(self.records, self.state.head))
    }

    // The queue's i-th record, for a caller that has proved the ring well formed and that there is one.
    #[tactic(auto, using(crate::proofs::Positions::head_in, crate::proofs::Positions::room, crate::proofs::Positions::slot_queued, crate::proofs::Laws::record_in))]
    pub fn record_unchecked(&self, i: usize) -> AckData
        requires held { i < self.now.state.len }
        requires well { well_formed self.now.state (length self.now.records.now) ≡ true }
        ensures { result ≡ get_or (contents self.now.state self.now.records.now) i blank }
    {
        self.records[slot_from(self.state.head, self.records.len(), i)]
    }
}

impl RingViewMut<'_> {
    pub fn view(&self) -> RingView<'_>
        ensures { (result.state ≡ self.now.state) × (result.records.now ≡ self.now.records.now) }
    {
        RingView {
            state: self.state,
            records: self.records,
        }
    }

    // utils/ring_buffer.rs, `RingBuffer::push_back`: where the ring is full, the record comes back.
    #[tactic(auto, using(crate::proofs::Positions::slot_is, crate::proofs::Positions::tail_in, crate::proofs::Positions::room))]
    pub fn push_back(&mut self, a: AckData) -> Result<Option<AckData>, Refusal>
        ensures lent { SameLent self.old self.new }
        ensures pushed { leaving (says given_back result) self.new ≡ push_back self.old.state self.old.records.now a }
    {
        let capacity = self.records.len();
        if self.state.is_full(capacity)? {
            return Ok(Some(a));
        }
        let tail = self.state.tail;
        swap_record(self.records, tail, a);
        self.state.tail = slot(tail, capacity, 1);
        self.state.len += 1;
        Ok(None)
    }

    // utils/ring_buffer.rs, `RingBuffer::push_front`: where the ring is full, the record comes back.
    pub fn push_front(&mut self, a: AckData) -> Result<Option<AckData>, Refusal>
        ensures lent { SameLent self.old self.new }
        ensures pushed { leaving (says given_back result) self.new ≡ push_front self.old.state self.old.records.now a }
    {
        let capacity = self.records.len();
        if self.state.is_full(capacity)? {
            return Ok(Some(a));
        }
        let head = self.state.head;
        let place = if head == 0 { capacity - 1 } else { head - 1 };
        swap_record(self.records, place, a);
        self.state.head = place;
        self.state.len += 1;
        Ok(None)
    }

    // utils/ring_buffer.rs, `RingBuffer::pop_front`.
    pub fn pop_front(&mut self) -> Result<AckData, Refusal>
        ensures lent { SameLent self.old self.new }
        ensures popped { leaving (says (λ a. a) result) self.new ≡ pop_front self.old.state self.old.records.now }
    {
        if self.state.is_empty(self.records.len())? {
            return Err(Refusal::Empty);
        }
        let capacity = self.records.len();
        let record = swap_record(self.records, self.state.head, AckData::BLANK);
        self.state = self.state.popped_by(capacity, 1);
        Ok(record)
    }

    // The same, for a caller that has proved the ring well formed and that there is a record, so that nothing is tested.
    #[tactic(auto, using(crate::proofs::Positions::slot_is, crate::proofs::Positions::head_in, crate::proofs::Positions::room))]
    pub fn pop_front_unchecked(&mut self) -> AckData
        requires held { 0 < self.old.state.len }
        requires well { well_formed self.old.state (length self.old.records.now) ≡ true }
        ensures lent { SameLent self.old self.new }
        ensures popped { leaving (answers result) self.new ≡ pop_front self.old.state self.old.records.now }
    {
        let capacity = self.records.len();
        let head = self.state.head;
        let record = self.records[head];
        self.records[head] = AckData::BLANK;
        self.state.head = slot_from(head, capacity, 1);
        self.state.len -= 1;
        record
    }

    // utils/ring_buffer.rs, `RingBuffer::clear`, which pops until the queue is empty.
    #[tactic(auto, using(crate::proofs::Popping::none_popped, crate::proofs::Popping::popped_well, crate::proofs::Popping::popped_held))]
    pub fn clear(&mut self) -> Result<(), Refusal>
        ensures lent { SameLent self.old self.new }
        ensures cleared { leaving (says (λ u. u) result) self.new ≡ clear self.old.state self.old.records.now }
    {
        let len = self.state.len(self.records.len())?;
        for _ in 0..len {
            self.pop_front_unchecked();
        }
        Ok(())
    }
}
