// Replays utils/ring_buffer.rs, the calls that touch no cell: stdin has the questions that oracle/src/components/ring_tests.rs asked, stdout the Rust's answers.
// Asked is every ring that a list of calls can leave, at each capacity from 0 to 8. hosts/replay/ring_buffer replays the calls over cells.
#![tactic(auto)]

use recorded::Replay;
use refusal::Refusal;
use ring_buffer::RingBuffer;
use std::io::{self, Read, Write};

fn answer(replay: &mut Replay<impl Read, impl Write>) -> io::Result<()> {
    let capacity = replay.read_word()? as usize;
    let ring = RingBuffer {
        head: replay.read_word()? as usize,
        tail: replay.read_word()? as usize,
        len: replay.read_word()? as usize,
    };
    replay.begin_line(0)?;
    print_counted(replay, ring.len(capacity))?;
    print_tested(replay, ring.is_empty(capacity))?;
    print_tested(replay, ring.is_full(capacity))
}

// What a call counts, or the number of its refusal.
fn print_counted(
    replay: &mut Replay<impl Read, impl Write>,
    counted: Result<usize, Refusal>,
) -> io::Result<()> {
    match counted {
        Ok(n) => replay.print(n),
        Err(r) => replay.print(r.number()),
    }
}

fn print_tested(
    replay: &mut Replay<impl Read, impl Write>,
    tested: Result<bool, Refusal>,
) -> io::Result<()> {
    print_counted(replay, tested.map(usize::from))
}

// There is but one command.
fn main(rt: HostRuntime) -> io::Result<()> {
    recorded::answer_each(&rt, |_, replay| answer(replay))
}
