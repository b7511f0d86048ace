// Replays core/packet.rs: stdin has the questions that oracle/src/components/packet.rs asked, stdout the Rust's answers.
// By hand: every type alone with a field that is not its length, payloads one byte short, whole and one byte long, tails of 1 to 20 bytes, empty data packets,
// the longest datagrams; then seeded random datagrams, half of them cut, lengthened or with a bit or a field changed, and packets written and read alone.
// Left out: unknown types (4), at which the Rust panics; datagrams above the reading limit, fields out of range and short buffers (11, 10).
#![tactic(auto)]

use recorded::Replay;
use recorded_header::Numbers;
use refusal::ReadError;
use std::io::{self, Read, Write};

// No offset and no length: a cell that holds it was not written.
const UNWRITTEN: u32 = 0xffff_ffff;

// A parse as it is recorded: its kind, and the number of packets or the cursor.
fn recorded_as(parsed: Result<usize, ReadError>) -> (u8, usize) {
    match parsed {
        Ok(n) => (0, n),
        Err(e) => (e.refusal.number(), e.cursor.unwrap_or(0)),
    }
}

fn parse<F: FnOnce(&[u8], &mut [u32]) -> Result<usize, ReadError>>(
    replay: &mut Replay<impl Read, impl Write>,
    datagram: &[u8],
    from_bytes: F,
) -> io::Result<()>
    requires { F.IsAlwaysCallable from_bytes }
{
    let mut index = [UNWRITTEN; packet::INDEX_LEN];
    let (kind, number) = recorded_as(from_bytes(datagram, &mut index));
    write!(replay.answers, "{kind} {number}")?;
    for cell in index.iter().take_while(|cell| **cell != UNWRITTEN) {
        replay.print(cell)?;
    }
    Ok(())
}

// Both parses, on one line.
fn parse_both(replay: &mut Replay<impl Read, impl Write>) -> io::Result<()> {
    let mut buf = [0u8; 65536];
    let n = replay.read_bytes(&mut buf)?;
    parse(replay, &buf[..n], packet::from_bytes)?;
    write!(replay.answers, " ")?;
    parse(replay, &buf[..n], packet::from_bytes_into)
}

// Every byte of the buffer is printed: those past the packet stay at 9.
fn serialise_into(replay: &mut Replay<impl Read, impl Write>) -> io::Result<()> {
    let h = recorded_header::read_header(replay)?;
    let mut buf = [9u8; 64];
    let room = replay.read_length(&buf)?;
    let mut payload = [0u8; 64];
    let n = replay.read_bytes(&mut payload)?;
    let out = &mut buf[..room];
    replay.begin_answer(packet::serialise_into(h, &payload[..n], out))?;
    replay.print_bytes(out)
}

fn print_read(replay: &mut Replay<impl Read, impl Write>, bytes: &[u8]) -> io::Result<()> {
    match packet::deserialise(bytes) {
        Ok(h) => {
            let payload = packet::payload_of(bytes);
            write!(replay.answers, "0 {} {}", Numbers(h), payload.len())?;
            replay.print_bytes(payload)
        }
        Err(error) => replay.begin_line(error.refusal.number()),
    }
}

fn deserialise(replay: &mut Replay<impl Read, impl Write>) -> io::Result<()> {
    let mut buf = [0u8; 64];
    let n = replay.read_bytes(&mut buf)?;
    print_read(replay, &buf[..n])
}

fn main(rt: HostRuntime) -> io::Result<()> {
    recorded::answer_each(&rt, |command, replay| match command {
        1 => parse_both(replay),
        2 => serialise_into(replay),
        _ => deserialise(replay),
    })
}
