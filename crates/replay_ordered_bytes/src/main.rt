// Replays net/ordered_bytes.rs: stdin has the questions that oracle/src/components/ordered_bytes.rs asked, stdout the Rust's answers.
// By hand: numbers at both ends of the slots, splits and carry-overs read at each length and limit about their own, empty packets at every place, all slots
// held, the front at the slots' end, the start set anew, the last numbers of 64 bits; then seeded random commands, from a new number every 250, one in five of
// them near 2^64. The Rust's 2,000 slots; payloads of at most 64 bytes, which follow from number and length.
// Left out: 2^64 - 1 (9), which the Rust stores, and a start set anew with packets held (13). Widths and buffers are such that none is refused with 10 or 11.
#![tactic(auto)]

use ordered_bytes::{BufferView, BufferViewMut, ConsumeResult, OrderedBytes, SlotLength};
use recorded::Replay;
use refusal::{Refusal, refusal_in};
use std::io::{self, Read, Write};

const SLOTS: usize = 2000;

const WIDTH: usize = 64;

const STORE_LEN: usize = (SLOTS + 1) * WIDTH;

// What output bytes hold before a read.
const BEFORE: u8 = 9;

// Takes the state that a call gives; where it refuses, the buffer stays.
fn take_state(
    replay: &mut Replay<impl Read, impl Write>,
    buffer: &mut BufferViewMut<'_>,
    answer: Result<OrderedBytes, Refusal>,
) -> io::Result<()> {
    match answer {
        Ok(state) => {
            buffer.state = state;
            replay.begin_line(0)
        }
        Err(r) => replay.begin_line(r.number()),
    }
}

fn start(
    replay: &mut Replay<impl Read, impl Write>,
    buffer: &mut BufferViewMut<'_>,
) -> io::Result<()> {
    let number = replay.read_word()?;
    let store = &mut *buffer.store;
    let state = OrderedBytes::new(WIDTH, number, buffer.marks, buffer.lengths, store);
    take_state(replay, buffer, state)
}

fn set_start(
    replay: &mut Replay<impl Read, impl Write>,
    buffer: &mut BufferViewMut<'_>,
) -> io::Result<()> {
    let number = replay.read_word()?;
    let state = buffer.view().set_start_packet_number(number);
    take_state(replay, buffer, state)
}

// The payload of a packet follows from its number.
fn fill_payload(n: u64, payload: &mut [u8]) {
    let mut byte = (n % 256 * 101 % 256) as u8;
    for place in payload {
        *place = byte;
        byte = byte.wrapping_add(1);
    }
}

// Stores a packet as long as the lent payload. The Rust gives no ack where it refuses, so that of 5 is left out.
fn accept_one(buffer: &mut BufferViewMut<'_>, n: u64, payload: &mut [u8]) -> Result<(), Refusal> {
    fill_payload(n, payload);
    buffer.buffer_in_packet(n, payload).map_err(Refusal::from)
}

fn accept(
    replay: &mut Replay<impl Read, impl Write>,
    buffer: &mut BufferViewMut<'_>,
) -> io::Result<()> {
    let n = replay.read_word()?;
    let mut payload = [0u8; WIDTH];
    let length = replay.read_length(&payload)?;
    let accepted = accept_one(buffer, n, &mut payload[..length]);
    replay.begin_line(refusal_in(accepted))
}

// Packets of one length in the numbers' order, up to the first refusal.
fn accept_run(
    replay: &mut Replay<impl Read, impl Write>,
    buffer: &mut BufferViewMut<'_>,
) -> io::Result<()> {
    let first = replay.read_word()?;
    let count = replay.read_word()?;
    let mut payload = [0u8; WIDTH];
    let length = replay.read_length(&payload)?;
    for i in 0..count {
        let n = first.wrapping_add(i);
        if let Err(r) = accept_one(buffer, n, &mut payload[..length]) {
            return write!(replay.answers, "{} {i}", r.number());
        }
    }
    write!(replay.answers, "0 {count}")
}

fn print_result(replay: &mut Replay<impl Read, impl Write>, r: ConsumeResult) -> io::Result<()> {
    write!(replay.answers, "0 {} ", r.num_packets_consumed)?;
    write!(
        replay.answers,
        "{} {}",
        r.base_packet_number, r.bytes_consumed
    )
}

// A number of at most 16 bits, as two bytes.
fn add_number(sum: u64, n: u64) -> u64 {
    recorded::add_byte(
        recorded::add_byte(sum, (n / 256 % 256) as u8),
        (n % 256) as u8,
    )
}

// At most so many of the bytes from `start` on. `skip` would go over all bytes before.
fn add_part(sum: u64, bytes: &[u8], start: usize, count: usize) -> u64 {
    let rest = bytes.get(start..).unwrap_or(&[]);
    rest.iter()
        .take(count)
        .fold(sum, |sum, &byte| recorded::add_byte(sum, byte))
}

// The output is as long as the length.
fn consume(
    replay: &mut Replay<impl Read, impl Write>,
    buffer: &mut BufferViewMut<'_>,
) -> io::Result<()> {
    let mut buf = [BEFORE; STORE_LEN];
    let len = replay.read_length(&buf)?;
    let out = &mut buf[..len];
    match buffer.consume(len, out) {
        Ok(result) => print_result(replay, result)?,
        Err(r) => replay.begin_line(r.number())?,
    }
    replay.print(recorded::sum_of(out))
}

// How many pieces there are, and their lengths.
fn print_pieces(
    replay: &mut Replay<impl Read, impl Write>,
    list: &[u32],
    pieces: usize,
) -> io::Result<()> {
    replay.print(pieces)?;
    for length in list.iter().take(pieces) {
        replay.print(length)?;
    }
    Ok(())
}

fn consume_bytes(
    replay: &mut Replay<impl Read, impl Write>,
    buffer: &mut BufferViewMut<'_>,
) -> io::Result<()> {
    let limit = replay.read_word()? as usize;
    let mut buf = [BEFORE; STORE_LEN];
    let mut list = [0u32; SLOTS + 1];
    match buffer.consume_bytes(limit, &mut buf, &mut list) {
        Ok((result, pieces)) => {
            print_result(replay, result)?;
            print_pieces(replay, &list, pieces)?;
            replay.print(add_part(0, &buf, 0, result.bytes_consumed as usize))
        }
        Err(r) => {
            replay.begin_line(r.number())?;
            print_pieces(replay, &list, 0)?;
            replay.print(0)
        }
    }
}

// The sum of all held packets, each with its distance from the front, its length and its bytes, and the sum of the carry-over.
// The views do not say how many slots are lent: `get` asks.
fn print_held(
    replay: &mut Replay<impl Read, impl Write>,
    buffer: BufferView<'_>,
) -> io::Result<()> {
    let BufferView {
        state,
        marks,
        lengths,
        store,
    } = buffer;
    let mut sum = 0;
    for distance in 0..SLOTS {
        let slot = (state.front_slot % SLOTS + distance) % SLOTS;
        if let (Some(&true), Some(&length)) = (marks.get(slot), lengths.get(slot)) {
            sum = add_number(add_number(sum, distance as u64), length as u64);
            sum = add_part(sum, store, slot * WIDTH, length as usize);
        }
    }
    let carried = add_part(0, store, SLOTS * WIDTH, state.carry_len);
    write!(replay.answers, "0 {sum} {carried}")
}

fn print_state(replay: &mut Replay<impl Read, impl Write>, state: OrderedBytes) -> io::Result<()> {
    replay.print(state.front_number)?;
    replay.print(state.front_slot)?;
    replay.print(state.carry_len)
}

fn answer(
    command: u64,
    replay: &mut Replay<impl Read, impl Write>,
    buffer: &mut BufferViewMut<'_>,
) -> io::Result<()> {
    match command {
        0 => start(replay, buffer)?,
        1 => set_start(replay, buffer)?,
        2 => accept(replay, buffer)?,
        3 => accept_run(replay, buffer)?,
        4 => replay.begin_line(refusal_in(buffer.view().peek()))?,
        5 => consume(replay, buffer)?,
        6 => consume_bytes(replay, buffer)?,
        _ => print_held(replay, buffer.view())?,
    }
    print_state(replay, buffer.state)
}

fn main(rt: HostRuntime) -> io::Result<()> {
    let mut marks = [false; SLOTS];
    let mut lengths: [SlotLength; SLOTS] = [0; SLOTS];
    let mut store = [0u8; STORE_LEN];
    let mut buffer = BufferViewMut {
        state: OrderedBytes {
            slot_width: WIDTH,
            front_slot: 0,
            front_number: 0,
            carry_len: 0,
        },
        marks: &mut marks,
        lengths: &mut lengths,
        store: &mut store,
    };
    recorded::answer_each(&rt, |command, replay| answer(command, replay, &mut buffer))
}
