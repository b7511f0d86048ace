// The queue of acks to send, a ring over lent records, and its packing: utils/ring_buffer.rs and the acks of worker/writer.rs for hosts.
// Each call makes a view of the state and the lent records; its answer is written flat by value, in crates/flat, with the view's state after it.
// Proved: what each call answers and leaves is the flat form of the definition in crates/ring_buffer or crates/writer.
ghost use Rattle.std.specs.Prelude.{◌≡◌};
ghost use Rattle.ring_buffer.specs.Ring.{fresh, push_back, push_front, pop_front, front, clear};
ghost use Rattle.writer.specs.Acks.{consumes_acks};
ghost use Rattle.flat.specs.Ring.{flat, pushed_of, popped_of, cleared_of, flat_acks};

use flat::ring::{AcksPacked, Cleared, Popped, Pushed};
use net::ConnectionIds;
use ring_buffer::{AckData, RingBuffer, RingView, RingViewMut};

#[unsafe(no_mangle)]
pub extern "C" fn bluefin_ring_new() -> RingBuffer
    ensures { result ≡ fresh }
{
    RingBuffer::new()
}

#[unsafe(no_mangle)]
pub extern "C" fn bluefin_ring_push_back(
    ring: RingBuffer,
    records: &mut [AckData],
    a: AckData,
) -> Pushed
    ensures { (result, records.new) ≡ flat pushed_of (push_back ring records.old a) }
{
    let mut view = RingViewMut {
        state: ring,
        records,
    };
    let answer = view.push_back(a);
    Pushed::new(view.state, answer)
}

#[unsafe(no_mangle)]
pub extern "C" fn bluefin_ring_push_front(
    ring: RingBuffer,
    records: &mut [AckData],
    a: AckData,
) -> Pushed
    ensures { (result, records.new) ≡ flat pushed_of (push_front ring records.old a) }
{
    let mut view = RingViewMut {
        state: ring,
        records,
    };
    let answer = view.push_front(a);
    Pushed::new(view.state, answer)
}

#[unsafe(no_mangle)]
pub extern "C" fn bluefin_ring_pop_front(ring: RingBuffer, records: &mut [AckData]) -> Popped
    ensures { (result, records.new) ≡ flat popped_of (pop_front ring records.old) }
{
    let mut view = RingViewMut {
        state: ring,
        records,
    };
    let answer = view.pop_front();
    Popped::new(view.state, answer)
}

#[unsafe(no_mangle)]
pub extern "C" fn bluefin_ring_front(ring: RingBuffer, records: &[AckData]) -> Popped
    ensures { result ≡ popped_of ring (front ring records.now) }
{
    let view = RingView {
        state: ring,
        records,
    };
    Popped::new(ring, view.front())
}

#[unsafe(no_mangle)]
pub extern "C" fn bluefin_ring_clear(ring: RingBuffer, records: &mut [AckData]) -> Cleared
    ensures { (result, records.new) ≡ flat cleared_of (clear ring records.old) }
{
    let mut view = RingViewMut {
        state: ring,
        records,
    };
    let answer = view.clear();
    Cleared::new(view.state, answer)
}

#[unsafe(no_mangle)]
pub extern "C" fn bluefin_consume_acks_into(
    ring: RingBuffer,
    records: &mut [AckData],
    used: usize,
    src_conn_id: u32,
    dst_conn_id: u32,
    out: &mut [u8],
) -> AcksPacked
    ensures { (result, records.new, out.new)
        ≡ flat_acks (consumes_acks ring records.old used src_conn_id dst_conn_id out.old) }
{
    let mut view = RingViewMut {
        state: ring,
        records,
    };
    let ids = ConnectionIds {
        source: src_conn_id,
        destination: dst_conn_id,
    };
    let answer = writer::acks::consume_acks_into(&mut view, used, ids, out);
    AcksPacked::new(view.state, answer)
}
