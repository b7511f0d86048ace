// Replays worker/writer.rs: stdin has the questions that oracle/src/components/writer.rs asked, stdout the Rust's answers.
// By hand: one entry about each multiple of 1,500 bytes, totals one below 15,000, at it and above it, cut at each kind of place and with empty entries about
// the last byte taken, the last numbers of 64 bits; datagrams cut at each kind of place, with an ack's field and unknown types; then seeded random queues,
// most of them about a multiple of 1,500, and random datagrams, half of them with a fault.
// Left out: numbers that reach 2^64 (9), where the Rust overflows. The output is as long as needed, or longer: none is refused with 10. The bytes of the queue
// follow from their places.
#![tactic(auto)]

ghost use Rattle.std.specs.Prelude.{◌≤◌, length, IfOk};

use net::ConnectionIds;
use outstanding::{Outstanding, PLACES, StoreViewMut};
use recorded::Replay;
use std::io::{self, Read, Write};
use writer::{DataPacked, Queue};

// The longest queue that is asked about, in bytes and in entries.
const QUEUE_LEN: usize = 65536;

const MOST_ENTRIES: usize = 64;

const OUT_LEN: usize = 16384;

// The bytes that a store is lent.
const STORE_LEN: usize = PLACES * outstanding::PACKET_SIZE;

// What output bytes hold before a packing.
const BEFORE: u8 = 9;

fn queued_byte(at: usize) -> u8 {
    ((at % 256 * 31 + at / 256 % 256) % 256) as u8
}

fn fill_queue(bytes: &mut [u8]) {
    for (at, byte) in bytes.iter_mut().enumerate() {
        *byte = queued_byte(at);
    }
}

// The lengths of the queue's entries, recorded behind their number. Answers how many of the cells they are: none where the cells are too few.
fn read_entries(
    replay: &mut Replay<impl Read, impl Write>,
    lengths: &mut [u32],
) -> io::Result<usize>
    ensures { IfOk result (λ n. n ≤ length lengths.new) }
{
    let n = replay.read_word()? as usize;
    if n > lengths.len() {
        return Ok(0);
    }
    for length in &mut lengths[..n] {
        *length = replay.read_u32()?;
    }
    Ok(n)
}

fn print_packed(replay: &mut Replay<impl Read, impl Write>, p: DataPacked) -> io::Result<()> {
    write!(replay.answers, "0 {} {} ", p.bytes, p.packets)?;
    write!(
        replay.answers,
        "{} {} {}",
        p.next_packet_num, p.entries_removed, p.bytes_cut
    )
}

// Every byte of the output counts in the sum: those past the packets stay at 9. Each packing is lent an empty store: with ten places free it answers what the Rust,
// which has no store, does.
fn pack_into(
    replay: &mut Replay<impl Read, impl Write>,
    next_packet_num: u64,
    ids: ConnectionIds,
    out: &mut [u8],
    queue: &Queue,
) -> io::Result<()> {
    let mut numbers = [0u64; PLACES];
    let mut payload_lengths = [0u32; PLACES];
    let mut packets = [0u8; STORE_LEN];
    let mut store = StoreViewMut {
        state: Outstanding::new(),
        numbers: &mut numbers,
        lengths: &mut payload_lengths,
        packets: &mut packets,
    };
    match writer::consume_data_into(&mut store, queue, next_packet_num, ids, out) {
        Ok(packed) => print_packed(replay, packed)?,
        Err(refusal) => replay.begin_line(refusal.number())?,
    }
    replay.print(recorded::sum_of(out))
}

fn pack(replay: &mut Replay<impl Read, impl Write>, bytes: &[u8]) -> io::Result<()> {
    let next_packet_num = replay.read_word()?;
    let ids = ConnectionIds {
        source: replay.read_u32()?,
        destination: replay.read_u32()?,
    };
    let mut out = [BEFORE; OUT_LEN];
    let room = replay.read_length(&out)?;
    let total = replay.read_length(bytes)?;
    let mut lengths = [0u32; MOST_ENTRIES];
    let entries = read_entries(replay, &mut lengths)?;
    let queue = Queue {
        bytes: &bytes[..total],
        lengths: &lengths[..entries],
    };
    pack_into(replay, next_packet_num, ids, &mut out[..room], &queue)
}

fn count(replay: &mut Replay<impl Read, impl Write>) -> io::Result<()> {
    let mut buf = [0u8; 512];
    let n = replay.read_bytes(&mut buf)?;
    replay.begin_line(0)?;
    replay.print(writer::payload_bytes_in_datagram(&buf[..n]))
}

fn main(rt: HostRuntime) -> io::Result<()> {
    let mut bytes = [0u8; QUEUE_LEN];
    fill_queue(&mut bytes);
    recorded::answer_each(&rt, |command, replay| match command {
        1 => pack(replay, &bytes),
        _ => count(replay),
    })
}
