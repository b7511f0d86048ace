// Replays utils/window.rs: stdin has the questions that oracle/src/components/window.rs asked, stdout the Rust's answers.
// By hand: numbers and ranges at both ends of the window, below it and beyond it, ranges that meet a held number at each place, the whole window in one
// range and in two, the last numbers of 64 bits; then seeded random commands, from a new number every 250, one in five of them near 2^64.
// Left out: 2^64 - 1 and ranges that reach it (9), where the Rust overflows. There are as many cells as numbers, so that none is refused with 10.
// The Rust has one error for 5 and 7: both are printed as 5.
#![tactic(auto)]

use recorded::Replay;
use refusal::Refusal;
use std::io::{self, Read, Write};
use window::{Run, SlidingWindow, WindowViewMut};

const CELLS: usize = window::MAX_SLIDING_WINDOW_SIZE as usize;

// The refusal as the Rust tells it.
fn class(r: Refusal) -> u8 {
    match r {
        Refusal::AlreadyHeld => 5,
        _ => r.number(),
    }
}

fn start(
    replay: &mut Replay<impl Read, impl Write>,
    window: &mut WindowViewMut<'_>,
) -> io::Result<()> {
    window.state = SlidingWindow::new(replay.read_word()?);
    replay.begin_line(0)
}

fn begin_answer(
    replay: &mut Replay<impl Read, impl Write>,
    answer: Result<(), Refusal>,
) -> io::Result<()> {
    replay.begin_line(answer.err().map_or(0, class))
}

fn insert(
    replay: &mut Replay<impl Read, impl Write>,
    window: &mut WindowViewMut<'_>,
) -> io::Result<()> {
    let n = replay.read_word()?;
    begin_answer(replay, window.insert_packet_number(n))
}

fn insert_range(
    replay: &mut Replay<impl Read, impl Write>,
    window: &mut WindowViewMut<'_>,
) -> io::Result<()> {
    let base = replay.read_word()?;
    let count = replay.read_u16()?;
    begin_answer(replay, window.insert_range(base, count))
}

// 0 where nothing is consumed; 1 with the run's last number and length.
fn consume(
    replay: &mut Replay<impl Read, impl Write>,
    window: &mut WindowViewMut<'_>,
) -> io::Result<()> {
    match window.consume() {
        Ok(Some(Run { last, length })) => write!(replay.answers, "1 {last} {length}"),
        Ok(None) => replay.begin_line(0),
        Err(r) => replay.begin_line(class(r)),
    }
}

// Each unbroken run of the held numbers: its first number, as its distance from the expected one, and that number's place.
fn print_runs(
    replay: &mut Replay<impl Read, impl Write>,
    expected: u64,
    held: &[u64],
) -> io::Result<()> {
    let mut before = None;
    for (place, &n) in held.iter().enumerate() {
        if before != Some(n.wrapping_sub(1)) {
            write!(replay.answers, " {} {place}", n.wrapping_sub(expected))?;
        }
        before = Some(n);
    }
    Ok(())
}

fn print_state(
    replay: &mut Replay<impl Read, impl Write>,
    window: &WindowViewMut<'_>,
) -> io::Result<()> {
    let w = window.state;
    write!(replay.answers, " {} {}", w.smallest_expected, w.count)?;
    let held = &window.cells[..w.count.min(window.cells.len())];
    print_runs(replay, w.smallest_expected, held)
}

fn answer(
    command: u64,
    replay: &mut Replay<impl Read, impl Write>,
    window: &mut WindowViewMut<'_>,
) -> io::Result<()> {
    match command {
        0 => start(replay, window)?,
        1 => insert(replay, window)?,
        2 => insert_range(replay, window)?,
        _ => consume(replay, window)?,
    }
    print_state(replay, window)
}

fn main(rt: HostRuntime) -> io::Result<()> {
    let mut cells = [0u64; CELLS];
    let mut window = WindowViewMut {
        state: SlidingWindow::new(0),
        cells: &mut cells,
    };
    recorded::answer_each(&rt, |command, replay| answer(command, replay, &mut window))
}
