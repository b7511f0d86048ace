// Replays net/close_handler.rs: stdin has the questions that oracle/src/components/close_handler.rs asked, stdout the Rust's answers.
// By hand: every list of three events, with equal and other numbers, from either flag; then seeded random events, from a new record every 250 or less.
// The transitions by value are called: the calls on a lent record are proved equal to them.
#![tactic(auto)]

use close_handler::CloseBuffer;
use recorded::Replay;
use std::io::{self, Read, Write};

// 1 and the number, or 0 and 0.
fn print_maybe(replay: &mut Replay<impl Read, impl Write>, n: Option<u64>) -> io::Result<()> {
    replay.print(n.is_some() as u8)?;
    replay.print(n.unwrap_or(0))
}

// The record: state, FIN-ACK owed, FIN-ACK recorded, flag.
fn print_record(replay: &mut Replay<impl Read, impl Write>, c: CloseBuffer) -> io::Result<()> {
    let (state, fin) = c.state.numbers();
    replay.print(state)?;
    replay.print(fin.unwrap_or(0))?;
    print_maybe(replay, c.pending_fin_ack_send)?;
    print_maybe(replay, c.received_fin_ack_for)?;
    replay.print(c.peer_fin_observed as u8)
}

// The FIN-ACK that an event takes from the record: only event 4 takes one.
fn begin_event(replay: &mut Replay<impl Read, impl Write>, taken: Option<u64>) -> io::Result<()> {
    replay.begin_line(taken.is_some() as u8)?;
    replay.print(taken.unwrap_or(0))
}

fn answer(
    event: u64,
    replay: &mut Replay<impl Read, impl Write>,
    c: CloseBuffer,
) -> io::Result<CloseBuffer> {
    let taken = if event == 4 {
        c.pending_fin_ack_send
    } else {
        None
    };
    begin_event(replay, taken)?;
    let after = match event {
        0 => CloseBuffer::new(replay.read_word()? != 0),
        1 => c.after_fin(replay.read_word()?),
        2 => c.after_fin_ack(replay.read_word()?),
        3 => c.after_local_fin(replay.read_word()?),
        4 => c.after_take(),
        _ => c.after_closed(),
    };
    print_record(replay, after)?;
    Ok(after)
}

fn main(rt: HostRuntime) -> io::Result<()> {
    let mut c = CloseBuffer::new(false);
    recorded::answer_each(&rt, |event, replay| {
        c = answer(event, replay, c)?;
        Ok(())
    })
}
