// Replays core/header.rs: stdin has the questions that oracle/src/components/header.rs asked, stdout the Rust's answers.
// By hand: the security byte at its ends and read from every byte, each field of a header alone, every first byte, lengths about 20; then seeded random
// fields and bytes. Left out: versions above 15, masks above 127 and short buffers (11, 10), unknown types (4).
#![tactic(auto)]

use header::{BluefinHeader, BluefinSecurityFields};
use recorded::Replay;
use recorded_header::Numbers;
use refusal::ReadError;
use std::fmt::Display;
use std::io::{self, Read, Write};

fn security_serialise(replay: &mut Replay<impl Read, impl Write>) -> io::Result<()> {
    let fields = recorded_header::read_security(replay)?;
    replay.begin_answer(fields.serialise())
}

// Every byte of the buffer is printed: those past the header stay at 9.
fn serialise_into(replay: &mut Replay<impl Read, impl Write>) -> io::Result<()> {
    let h = recorded_header::read_header(replay)?;
    let mut buf = [9u8; 64];
    let room = replay.read_length(&buf)?;
    let out = &mut buf[..room];
    replay.begin_answer(h.serialise_into(out))?;
    replay.print_bytes(out)
}

fn deserialise<T: Drop, F: FnOnce(&[u8]) -> Result<T, ReadError>>(
    replay: &mut Replay<impl Read, impl Write>,
    read: F,
) -> io::Result<()>
where
    Numbers<T>: Display,
    requires { F.IsAlwaysCallable read }
{
    let mut buf = [0u8; 64];
    let n = replay.read_bytes(&mut buf)?;
    let answer = read(&buf[..n]).map(Numbers);
    replay.begin_answer(answer.map_err(|error| error.refusal))
}

fn main(rt: HostRuntime) -> io::Result<()> {
    recorded::answer_each(&rt, |command, replay| match command {
        1 => security_serialise(replay),
        2 => deserialise(replay, BluefinSecurityFields::deserialise),
        3 => serialise_into(replay),
        _ => deserialise(replay, BluefinHeader::deserialise),
    })
}
