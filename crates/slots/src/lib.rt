// The slots of the receive buffer: whether their lengths are within the width, which slot stands where round the ring, slots that are emptied.
// Ports `wrap_index` of net/ordered_bytes.rs; document 01, "From packets to the reader".
// Internal to this library, so a function may ask that a slot lies in the ring; every public call above it refuses first. Marks and lengths go apart here:
// a host lends two lists, and what takes the store as well is the buffer's own (crates/ordered_bytes).
// Proved: which slot, each lent list as it is left, and that each test is the definition's.
#![tactic(auto)]

ghost use Rattle.std.specs.Prelude.{◌≡◌, false, ◌+◌, ◌≤◌, ◌<◌, length, replicate};
ghost use Rattle.lists.specs.Within.{all_within};
ghost use Rattle.slots.specs.Slots.{wrap, cleared};

use lists::longest;

// What the length of a slot is stored in. A width is at most 65,535, so a narrower type would hold it as well.
pub type SlotLength = u32;

// How many lengths refusal 12's test takes at once.
const BLOCK: usize = 64;

// Of refusal 12's test: no slot's length out of range. This test is most of what an accept costs, so it stops only between blocks of a size that the compiler
// knows: it lays each out with no loop, and compares many lengths at once.
pub fn lengths_within(slot_width: SlotLength, lengths: &[SlotLength]) -> bool
    ensures { result ≡ all_within slot_width lengths.now }
{
    let (blocks, rest) = lengths.as_chunks::<BLOCK>();
    blocks.iter().all(|block| longest(block) <= slot_width) && longest(rest) <= slot_width
}

// net/ordered_bytes.rs, wrap_index. A compare and a subtract; N need not be a power of two.
pub fn wrap_index(n: usize, base: usize, offset: usize) -> usize
    requires { (n ≤ 2000) × (base < n) × (offset ≤ n) }
    ensures { result ≡ wrap n (base + offset) }
{
    let raw = base + offset;
    if raw < n { raw } else { raw - n }
}

// Empties all slots.
pub fn clear_slots(marks: &mut [bool], lengths: &mut [SlotLength])
    ensures marks_after { marks.new ≡ replicate (length marks.old) false }
    ensures lengths_after { lengths.new ≡ replicate (length lengths.old) 0 }
{
    marks.fill(false);
    lengths.fill(0);
}

// "A taken slot loses its mark, its length becomes 0." Empties the `count` slots from `first` on, round the ring.
pub fn take_slots(first: usize, count: usize, marks: &mut [bool], lengths: &mut [SlotLength])
    requires { (length marks.old ≤ 2000) × (first < length marks.old) × (length lengths.old ≡ length marks.old) }
    ensures marks_after { marks.new ≡ cleared (length marks.old) first count false marks.old }
    ensures lengths_after { lengths.new ≡ cleared (length marks.old) first count 0 lengths.old }
{
    let n = marks.len();
    let mut slot = first;
    for _ in 0..count {
        marks[slot] = false;
        lengths[slot] = 0;
        slot = wrap_index(n, slot, 1);
    }
}
