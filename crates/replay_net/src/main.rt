// Replays net/mod.rs, and the headers that worker/writer.rs sends to close: stdin has the questions that oracle/src/components/net.rs asked, stdout the
// Rust's answers. By hand: every host, every type, and ids of 0, 1 and 2^32 - 1; each header at the ends of its numbers; then seeded random ones.
// Left out: short buffers (10). The Rust has no such test, as it writes a header of its own.
#![tactic(auto)]

use header::BluefinHeader;
use net::{BluefinHost, ConnectionIds};
use recorded::Replay;
use recorded_header::Numbers;
use refusal::Refusal;
use std::io::{self, Read, Write};

fn read_host(replay: &mut Replay<impl Read, impl Write>) -> io::Result<BluefinHost> {
    let number = u8::try_from(replay.read_word()?);
    Ok(number.map_or(BluefinHost::Other, BluefinHost::from))
}

fn read_ids(replay: &mut Replay<impl Read, impl Write>) -> io::Result<ConnectionIds> {
    Ok(ConnectionIds {
        source: replay.read_u32()?,
        destination: replay.read_u32()?,
    })
}

fn test<F: FnOnce(BluefinHost, BluefinHeader) -> bool>(
    replay: &mut Replay<impl Read, impl Write>,
    is_met: F,
) -> io::Result<()>
    requires { F.IsAlwaysCallable is_met }
{
    let host = read_host(replay)?;
    let packet_type = recorded_header::read_type(replay)?;
    let ids = read_ids(replay)?;
    let h = net::build_empty_encrypted_packet(ids, 0, packet_type);
    replay.begin_line(is_met(host, h) as u8)
}

// The payload's length comes first: a header alone has none.
fn build_empty(replay: &mut Replay<impl Read, impl Write>) -> io::Result<()> {
    let ids = read_ids(replay)?;
    let number = replay.read_word()?;
    let packet_type = recorded_header::read_type(replay)?;
    let h = net::build_empty_encrypted_packet(ids, number, packet_type);
    replay.begin_line(0)?;
    replay.print(Numbers(h))
}

// The bytes written, and each of them.
fn control<F: FnOnce(ConnectionIds, u64, &mut [u8]) -> Result<usize, Refusal>>(
    replay: &mut Replay<impl Read, impl Write>,
    write: F,
) -> io::Result<()>
    requires { F.IsAlwaysCallable write }
{
    let ids = read_ids(replay)?;
    let number = replay.read_word()?;
    let mut buf = [9u8; net::BLUEFIN_HEADER_SIZE_BYTES];
    let written = write(ids, number, &mut buf);
    replay.begin_line(written.unwrap_or(0))?;
    replay.print_bytes(&buf)
}

fn main(rt: HostRuntime) -> io::Result<()> {
    recorded::answer_each(&rt, |command, replay| match command {
        1 => test(replay, net::is_hello_packet),
        2 => test(replay, net::is_client_ack_packet),
        3 => build_empty(replay),
        4 => control(replay, net::write_fin),
        _ => control(replay, net::write_fin_ack),
    })
}
