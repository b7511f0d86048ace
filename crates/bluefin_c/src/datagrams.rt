// Whole datagrams by one call: crates/receive for hosts.
// Proved: what each call answers and leaves is the flat form of the definition in crates/receive.
ghost use Rattle.std.specs.Prelude.{◌≡◌};
ghost use Rattle.ordered_bytes.specs.Buffer.{buffer_of};
ghost use Rattle.receive.specs.Datagram.{receiving, receiving_acks};
ghost use Rattle.flat.specs.Datagrams.{flat_reception, flat_acks_reception};

use flat::datagrams::AcksReceived;
use flat::packets::Parsed;
use ordered_bytes::{BufferViewMut, OrderedBytes, SlotLength};
use window::{SlidingWindow, WindowViewMut};

#[unsafe(no_mangle)]
pub extern "C" fn bluefin_receive(
    o: OrderedBytes,
    datagram: &[u8],
    index: &mut [u32],
    answers: &mut [u8],
    marks: &mut [bool],
    lengths: &mut [SlotLength],
    store: &mut [u8],
) -> Parsed
    ensures { (result, index.new, answers.new, buffer_of o marks.new lengths.new store.new)
        ≡ flat_reception (receiving (buffer_of o marks.old lengths.old store.old) datagram.now index.old answers.old) }
{
    let mut buffer = BufferViewMut {
        state: o,
        marks,
        lengths,
        store,
    };
    receive::receive(&mut buffer, datagram, index, answers).into()
}

#[unsafe(no_mangle)]
pub extern "C" fn bluefin_receive_acks(
    w: SlidingWindow,
    cells: &mut [u64],
    datagram: &[u8],
    index: &mut [u32],
    answers: &mut [u8],
) -> AcksReceived
    ensures { (result, cells.new, index.new, answers.new)
        ≡ flat_acks_reception (receiving_acks w cells.old datagram.now index.old answers.old) }
{
    let mut window = WindowViewMut { state: w, cells };
    let received = receive::receive_acks(&mut window, datagram, index, answers);
    AcksReceived::new(window.state, received)
}
