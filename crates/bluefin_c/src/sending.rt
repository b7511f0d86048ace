// Packing queued data, which is kept to be sent again, and closing: worker/writer.rs for hosts, without its acks.
// Proved: what each call answers and leaves is the flat form of the definition in crates/writer or crates/net.
ghost use Rattle.std.specs.Prelude.{◌≡◌};
ghost use Rattle.net.specs.Control.{writes_fin, writes_fin_ack};
ghost use Rattle.outstanding.specs.Outstanding.{store_of};
ghost use Rattle.writer.specs.Packing.{queued};
ghost use Rattle.writer.specs.Sending.{consumes_data};
ghost use Rattle.writer.specs.PayloadBytes.{payload_bytes};
ghost use Rattle.writer.specs.Reserve.{reserving};
ghost use Rattle.flat.specs.Answers.{first_by};
ghost use Rattle.flat.specs.Headers.{written_of};
ghost use Rattle.flat.specs.Sending.{flat_sending, reserved_of};

use flat::headers::Written;
use flat::sending::{DataPacked, Reserved};
use net::ConnectionIds;
use outstanding::{Outstanding, StoreViewMut};
use writer::Queue;

#[unsafe(no_mangle)]
pub extern "C" fn bluefin_consume_data_into(
    o: Outstanding,
    bytes: &[u8],
    lengths: &[u32],
    next_packet_num: u64,
    src_conn_id: u32,
    dst_conn_id: u32,
    out: &mut [u8],
    numbers: &mut [u64],
    payload_lengths: &mut [u32],
    packets: &mut [u8],
) -> DataPacked
    ensures { (result, out.new, store_of result.outstanding numbers.new payload_lengths.new packets.new)
        ≡ flat_sending (consumes_data (store_of o numbers.old payload_lengths.old packets.old)
        (queued bytes.now lengths.now) next_packet_num src_conn_id dst_conn_id out.old) }
{
    let mut store = StoreViewMut {
        state: o,
        numbers,
        lengths: payload_lengths,
        packets,
    };
    let queue = Queue { bytes, lengths };
    let ids = ConnectionIds {
        source: src_conn_id,
        destination: dst_conn_id,
    };
    let answer = writer::consume_data_into(&mut store, &queue, next_packet_num, ids, out);
    DataPacked::new(store.state, answer)
}

#[unsafe(no_mangle)]
pub extern "C" fn bluefin_payload_bytes_in_datagram(datagram: &[u8]) -> usize
    ensures { result ≡ payload_bytes datagram.now }
{
    writer::payload_bytes_in_datagram(datagram)
}

#[unsafe(no_mangle)]
pub extern "C" fn bluefin_reserve_close_packet_num(next_packet_num: u64) -> Reserved
    ensures { result ≡ reserved_of (reserving next_packet_num) }
{
    writer::reserve_close_packet_num(next_packet_num).into()
}

#[unsafe(no_mangle)]
pub extern "C" fn bluefin_write_fin(
    src_conn_id: u32,
    dst_conn_id: u32,
    packet_number: u64,
    buf: &mut [u8],
) -> Written
    ensures { (result, buf.new) ≡ first_by written_of (writes_fin src_conn_id dst_conn_id packet_number buf.old) }
{
    let ids = ConnectionIds {
        source: src_conn_id,
        destination: dst_conn_id,
    };
    net::write_fin(ids, packet_number, buf).into()
}

#[unsafe(no_mangle)]
pub extern "C" fn bluefin_write_fin_ack(
    src_conn_id: u32,
    dst_conn_id: u32,
    packet_number: u64,
    buf: &mut [u8],
) -> Written
    ensures { (result, buf.new)
        ≡ first_by written_of (writes_fin_ack src_conn_id dst_conn_id packet_number buf.old) }
{
    let ids = ConnectionIds {
        source: src_conn_id,
        destination: dst_conn_id,
    };
    net::write_fin_ack(ids, packet_number, buf).into()
}
