// Recorded questions and answers, replayed: words of 8 bytes on an input, the highest byte first, and lines of decimal numbers on an output.
// oracle/ writes the records. Proved: reading stays within the buffer that is lent, whatever the input holds, and every loop ends.
// A read or a write that fails is answered with its error.
#![tactic(auto)]

ghost use Rattle.std.specs.Prelude.{◌≤◌, length, IfOk};

use refusal::Refusal;
use std::fmt::Display;
use std::io::{self, BufReader, BufWriter, Input, Print, Printer, Read, Write};

// A record that is replayed: the questions that are left to read, and where their answers go.
#[derive(Drop)]
pub struct Replay<R, W> {
    pub questions: R,
    pub answers: W,
}

// Answers each question of the standard input on a line of the standard output: their number comes first, and each begins with the number of its command.
// The programs match that number where they read it: an enum of commands, with its TryFrom, would list each of them twice.
pub fn answer_each<'rt, R: Input + Print + AllocGlobal, F>(
    rt: &'rt R,
    mut answer: F,
) -> io::Result<()>
where
    F: FnMut(u64, &mut Replay<BufReader<R::Reader>, BufWriter<Printer<'rt, R>>>) -> io::Result<()>,
    requires { F.IsAlwaysCallable answer }
{
    let mut replay = Replay {
        questions: BufReader::new(rt.alloc(), rt.reader())?,
        answers: BufWriter::new(rt.alloc(), io::writer(rt))?,
    };
    let commands = replay.read_word()?;
    for _ in 0..commands {
        let command = replay.read_word()?;
        answer(command, &mut replay)?;
        writeln!(replay.answers)?;
    }
    replay.answers.flush()
}

// Reads until buf is full or the input ends. Answers how many of buf's bytes were read; what is missing of a record is zeros.
fn read_full(input: &mut impl Read, buf: &mut [u8]) -> io::Result<usize>
    ensures { IfOk result (λ n. n ≤ length buf.new) }
{
    let mut done = 0;
    while done < buf.len() {
        let n = input.read(&mut buf[done..])?;
        if n == 0 {
            break;
        }
        done += n;
    }
    Ok(done)
}

impl<R: Read, W> Replay<R, W> {
    // The next word, or 0 where the input has ended.
    pub fn read_word(&mut self) -> io::Result<u64> {
        let mut word = [0u8; 8];
        read_full(&mut self.questions, &mut word)?;
        Ok(u64::from_be_bytes(word))
    }

    // The next word as a number of so many bits: the recorded ones fit.
    pub fn read_u8(&mut self) -> io::Result<u8> {
        Ok((self.read_word()? % 256) as u8)
    }

    pub fn read_u16(&mut self) -> io::Result<u16> {
        Ok((self.read_word()? % 65536) as u16)
    }

    pub fn read_u32(&mut self) -> io::Result<u32> {
        Ok((self.read_word()? % 4294967296) as u32)
    }

    // A length: the next word, or buf's length where that is less.
    pub fn read_length(&mut self, buf: &[u8]) -> io::Result<usize>
        ensures { IfOk result (λ n. n ≤ length buf.now) }
    {
        let n = self.read_word()? as usize;
        Ok(n.min(buf.len()))
    }

    // Bytes, recorded as their length and themselves, filled up to whole words. Answers how many of buf's bytes they are: none where buf is too short.
    pub fn read_bytes(&mut self, buf: &mut [u8]) -> io::Result<usize>
        ensures { IfOk result (λ n. n ≤ length buf.new) }
    {
        let n = self.read_word()? as usize;
        match n.checked_next_multiple_of(8) {
            Some(end) if end <= buf.len() => {
                read_full(&mut self.questions, &mut buf[..end])?;
                Ok(n)
            }
            _ => Ok(0),
        }
    }
}

impl<R, W: Write> Replay<R, W> {
    // An answer's line begins with its kind: 0, or the number of a refusal, unless the command says otherwise.
    pub fn begin_line(&mut self, kind: impl Display + Drop) -> io::Result<()> {
        write!(self.answers, "{kind}")
    }

    // 0 and what a call answers, or the number of its refusal.
    pub fn begin_answer(&mut self, answer: Result<impl Display + Drop, Refusal>) -> io::Result<()> {
        match answer {
            Ok(x) => write!(self.answers, "0 {x}"),
            Err(refusal) => self.begin_line(refusal.number()),
        }
    }

    pub fn print(&mut self, x: impl Display + Drop) -> io::Result<()> {
        write!(self.answers, " {x}")
    }

    pub fn print_bytes(&mut self, bytes: &[u8]) -> io::Result<()> {
        for byte in bytes {
            self.print(byte)?;
        }
        Ok(())
    }
}

// What stands for bytes that are too many to print: each of them, and where it stands, counts.
pub fn add_byte(sum: u64, byte: u8) -> u64 {
    sum % 1_000_000_007 * 257 + byte as u64 + 1
}

pub fn sum_of(bytes: &[u8]) -> u64 {
    bytes.iter().fold(0, |sum, &byte| add_byte(sum, byte))
}
