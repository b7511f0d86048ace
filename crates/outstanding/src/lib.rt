// The packets that were packed and are not yet answered, kept to be sent again: document 02, §3. The Rust keeps none.
// Proved: what each call answers, and what it leaves of the state and of every lent list, is the definition's, on every input.
#![tactic(auto)]

ghost use Rattle.std.specs.Prelude.{◌≡◌, true, ℕ, ◌+◌, ◌≤◌, List, length};
ghost use Rattle.refusal.specs.Said.{Said, says};
ghost use Rattle.lists.specs.Numbers.{largest};
ghost use Rattle.lists.specs.Within.{all_within};
ghost use Rattle.packet.specs.Sizes.{payload_size};
ghost use Rattle.outstanding.specs.Outstanding.{Store, store_in, store_now, SameLent, fresh, numbers_of, lengths_of, size, roomy, well_formed, well_formed_below, listing, up_to, without, answering};
ghost use Rattle.outstanding.specs.Steps.{counting, sizes_for, kept_as};

use header::HEADER_SIZE;
use lists::longest;
use refusal::Refusal;

// The most packets that are kept.
pub const PLACES: usize = 64;

const PAYLOAD_SIZE: usize = net::MAX_BLUEFIN_PAYLOAD_SIZE_BYTES;

// A packet with the longest payload.
pub const PACKET_SIZE: usize = HEADER_SIZE + PAYLOAD_SIZE;

// How many packets are kept: all of the store that is not lent.
#[repr(C)]
#[derive(Clone, Copy, Debug, Default, PartialEq, Eq)]
pub struct Outstanding {
    pub count: usize,
}

impl Outstanding {
    pub fn new() -> Self
        ensures { result ≡ fresh }
    {
        Self::default()
    }
}

// A store as it is read: its state, and what is lent beside it, the packets' numbers and payload lengths, a cell to each, and the packets whole and end to end.
#[derive(Clone, Copy)]
pub struct StoreView<'a> {
    pub state: Outstanding,
    pub numbers: &'a [u64],
    pub lengths: &'a [u32],
    pub packets: &'a [u8],
}

// A store as it is changed.
#[derive(Drop)]
pub struct StoreViewMut<'a> {
    pub state: Outstanding,
    pub numbers: &'a mut [u64],
    pub lengths: &'a mut [u32],
    pub packets: &'a mut [u8],
}

#[tactic(auto, using(lists::proofs::Within::longest_within), unfolding(packet::specs::Sizes::payload_size))]
fn are_payloads(lengths: &[u32]) -> bool
    ensures { result ≡ all_within payload_size lengths.now }
{
    longest(lengths) as usize <= PAYLOAD_SIZE
}

// The bytes of packets with these payload lengths.
#[tactic(auto, using(crate::proofs::Loops::size_is))]
fn size_of(lengths: &[u32]) -> usize
    requires { length lengths.now ≤ 64 }
    ensures { result ≡ size lengths.now }
{
    lengths
        .iter()
        .map(|length| HEADER_SIZE + *length as usize)
        .sum()
}

// Writes `next`, `next` + 1 and so on.
fn put_numbers(numbers: &mut [u64], next: u64)
    requires { next + length numbers.old ≤ largest }
    ensures { numbers.new ≡ counting next (length numbers.old) }
{
    for (i, number) in numbers.iter_mut().enumerate() {
        *number = next + i as u64;
    }
}

// Writes the lengths of the payloads that q bytes fill.
fn put_lengths(lengths: &mut [u32], q: usize)
    ensures { lengths.new ≡ sizes_for q (length lengths.old) }
{
    let mut left = q;
    for length in lengths.iter_mut() {
        let part = PAYLOAD_SIZE.min(left);
        *length = part as u32;
        left -= part;
    }
}

impl StoreView<'_> {
    #[tactic(auto, unfolding(crate::specs::Outstanding::places, packet::specs::Sizes::payload_size))]
    fn is_roomy(&self) -> bool
        ensures { result ≡ roomy self.now.numbers.now self.now.lengths.now self.now.packets.now }
    {
        self.numbers.len() >= PLACES
            && self.lengths.len() >= PLACES
            && self.packets.len() >= PLACES * PACKET_SIZE
    }

    // Refusal 12's test, without a next number.
    #[tactic(auto, using(crate::proofs::Laws::roomy_is), unfolding(crate::specs::Outstanding::well_formed, crate::specs::Outstanding::places))]
    pub fn well_formed(&self) -> bool
        ensures { result ≡ well_formed (store_in self.now) }
    {
        let count = self.state.count;
        self.is_roomy()
            && count <= PLACES
            && lists::is_rising(&self.numbers[..count])
            && are_payloads(&self.lengths[..count])
    }

    // Refusal 12's test with a next number: as the numbers rise, only the last is compared with it.
    #[tactic(auto, using(crate::proofs::Laws::room), unfolding(crate::specs::Outstanding::well_formed_below))]
    pub fn well_formed_below(&self, next: u64) -> bool
        ensures { result ≡ well_formed_below next (store_in self.now) }
    {
        let count = self.state.count;
        self.well_formed() && (count == 0 || self.numbers[count - 1] < next)
    }

    // The bytes of all that is kept.
    fn size(&self) -> usize
        requires { (self.now.state.count ≤ 64) × (self.now.state.count ≤ length self.now.lengths.now) }
        ensures { result ≡ size (lengths_of (store_in self.now)) }
    {
        size_of(&self.lengths[..self.state.count])
    }

    // How many packets have at most the last number answered: as the numbers rise, those in front.
    fn answered_by(&self, last: u64) -> usize
        requires { well_formed (store_in self.now) ≡ true }
        ensures { result ≡ up_to last (numbers_of (store_in self.now)) }
    {
        self.numbers[..self.state.count].partition_point(|number| *number <= last)
    }

    #[tactic(auto, unfolding(crate::specs::Outstanding::listing))]
    pub fn list_into(&self, out: &mut [u8]) -> Result<usize, Refusal>
        ensures { ◌≡◌ {A = Said ℕ × List ℕ} (says (λ n. n) result, out.new) (listing (store_in self.now) out.old) }
    {
        if !self.well_formed() {
            return Err(Refusal::Malformed);
        }
        let total = self.size();
        if out.len() < total {
            return Err(Refusal::BufferShort);
        }
        out[..total].copy_from_slice(&self.packets[..total]);
        Ok(self.state.count)
    }
}

impl StoreViewMut<'_> {
    pub fn view(&self) -> StoreView<'_>
        ensures { store_in result ≡ store_now self.now }
    {
        StoreView {
            state: self.state,
            numbers: self.numbers,
            lengths: self.lengths,
            packets: self.packets,
        }
    }

    // Drops the first n packets. What is left moves to the front; nothing else is written. The bytes go by `move_part`,
    // for the reason that stands there.
    fn drop_first(&mut self, n: usize)
        requires { (well_formed (store_now self.old) ≡ true) × (n ≤ self.old.state.count) }
        ensures lent { SameLent self.old self.new }
        ensures left { store_now self.new ≡ without n (store_now self.old) }
    {
        let count = self.state.count;
        let store = self.view();
        let gone = size_of(&store.lengths[..n]);
        let total = store.size();
        self.numbers.copy_within(n..count, 0);
        self.lengths.copy_within(n..count, 0);
        parts::move_part(self.packets, gone, total - gone, 0);
        self.state.count -= n;
    }

    // Drops the packets up to the last number that the window's `consume` answered.
    pub fn drop_answered(&mut self, last: u64) -> Result<(), Refusal>
        ensures lent { SameLent self.old self.new }
        ensures left { ◌≡◌ {A = Said Unit × Store} (says (λ u. u) result, store_now self.new) (answering (store_now self.old) last) }
    {
        let store = self.view();
        if !store.well_formed() {
            return Err(Refusal::Malformed);
        }
        let answered = store.answered_by(last);
        self.drop_first(answered);
        Ok(())
    }

    // Keeps c packets more, with one copy of the datagram that they stand in: for packing, which has shown that they fit.
    pub fn keep(&mut self, next: u64, q: usize, c: usize, datagram: &[u8])
        requires { (self.old.state.count + c ≤ 64) × (next + c ≤ largest)
            × (self.old.state.count + c ≤ length self.old.numbers.now) × (self.old.state.count + c ≤ length self.old.lengths.now)
            × (size (lengths_of (store_now self.old)) + length datagram.now ≤ length self.old.packets.now) }
        ensures lent { SameLent self.old self.new }
        ensures kept { store_now self.new ≡ kept_as (store_now self.old) next q c datagram.now }
    {
        let count = self.state.count;
        let total = self.view().size();
        self.packets[total..total + datagram.len()].copy_from_slice(datagram);
        put_numbers(&mut self.numbers[count..count + c], next);
        put_lengths(&mut self.lengths[count..count + c], q);
        self.state.count += c;
    }
}
