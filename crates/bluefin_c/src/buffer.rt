// The receive buffer: net/ordered_bytes.rs for hosts.
// Proved: what each call answers and leaves is the flat form of the definition in crates/ordered_bytes.
ghost use Rattle.std.specs.Prelude.{◌≡◌};
ghost use Rattle.refusal.specs.Said.{refusal_in};
ghost use Rattle.ordered_bytes.specs.Buffer.{buffer_of};
ghost use Rattle.ordered_bytes.specs.Calls.{creating, starting, accepting, peeking, consuming, consuming_bytes};
ghost use Rattle.flat.specs.Buffer.{started_of, flat_creation, flat_acceptance, flat_consumption, flat_pieces};

use flat::buffer::{Accepted, Consumed, ConsumedBytes, Started};
use ordered_bytes::{BufferView, BufferViewMut, OrderedBytes, SlotLength};

#[unsafe(no_mangle)]
pub extern "C" fn bluefin_ordered_bytes_new(
    slot_width: usize,
    start_packet_number: u64,
    marks: &mut [bool],
    lengths: &mut [SlotLength],
    store: &[u8],
) -> Started
    ensures { (result, marks.new, lengths.new)
        ≡ flat_creation (creating slot_width start_packet_number marks.old lengths.old store.now) }
{
    Started::created(OrderedBytes::new(slot_width, start_packet_number, marks, lengths, store))
}

#[unsafe(no_mangle)]
pub extern "C" fn bluefin_ordered_bytes_set_start_packet_number(
    o: OrderedBytes,
    start_packet_number: u64,
    marks: &[bool],
    lengths: &[SlotLength],
    store: &[u8],
) -> Started
    ensures { result ≡ started_of o (starting (buffer_of o marks.now lengths.now store.now) start_packet_number) }
{
    let buffer = BufferView {
        state: o,
        marks,
        lengths,
        store,
    };
    Started::new(o, buffer.set_start_packet_number(start_packet_number))
}

#[unsafe(no_mangle)]
pub extern "C" fn bluefin_ordered_bytes_buffer_in_packet(
    o: OrderedBytes,
    n: u64,
    payload: &[u8],
    marks: &mut [bool],
    lengths: &mut [SlotLength],
    store: &mut [u8],
) -> Accepted
    ensures { (result, buffer_of o marks.new lengths.new store.new)
        ≡ flat_acceptance (accepting (buffer_of o marks.old lengths.old store.old) n payload.now) }
{
    let mut buffer = BufferViewMut {
        state: o,
        marks,
        lengths,
        store,
    };
    buffer.buffer_in_packet(n, payload).into()
}

#[unsafe(no_mangle)]
pub extern "C" fn bluefin_ordered_bytes_peek(
    o: OrderedBytes,
    marks: &[bool],
    lengths: &[SlotLength],
    store: &[u8],
) -> u8
    ensures { result ≡ refusal_in (peeking (buffer_of o marks.now lengths.now store.now)) }
{
    let buffer = BufferView {
        state: o,
        marks,
        lengths,
        store,
    };
    refusal::refusal_in(buffer.peek())
}

#[unsafe(no_mangle)]
pub extern "C" fn bluefin_ordered_bytes_consume(
    o: OrderedBytes,
    len: usize,
    buf: &mut [u8],
    marks: &mut [bool],
    lengths: &mut [SlotLength],
    store: &mut [u8],
) -> Consumed
    ensures { (result, buffer_of result.state marks.new lengths.new store.new, buf.new)
        ≡ flat_consumption (consuming (buffer_of o marks.old lengths.old store.old) len buf.old) }
{
    let mut buffer = BufferViewMut {
        state: o,
        marks,
        lengths,
        store,
    };
    let answer = buffer.consume(len, buf);
    Consumed::new(buffer.state, answer)
}

#[unsafe(no_mangle)]
pub extern "C" fn bluefin_ordered_bytes_consume_bytes(
    o: OrderedBytes,
    limit: usize,
    buf: &mut [u8],
    list: &mut [u32],
    marks: &mut [bool],
    lengths: &mut [SlotLength],
    store: &mut [u8],
) -> ConsumedBytes
    ensures { (result, buffer_of result.state marks.new lengths.new store.new, buf.new, list.new)
        ≡ flat_pieces (consuming_bytes (buffer_of o marks.old lengths.old store.old) limit buf.old list.old) }
{
    let mut buffer = BufferViewMut {
        state: o,
        marks,
        lengths,
        store,
    };
    let answer = buffer.consume_bytes(limit, buf, list);
    ConsumedBytes::new(buffer.state, answer)
}
