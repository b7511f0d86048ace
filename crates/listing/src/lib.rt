// A datagram as text: a line for each of its packets, or its refusal.
// Document 01, "A program reads one datagram from standard input and prints per packet, in decimal, type, field, number, payload length;
// or only `refused R at C`". Proved: each header that is printed is read within the datagram, with no test beside the parser's own,
// and is that of one of the datagram's packets, with that packet's payload length.
// A read or a write that fails is answered with its error.
#![tactic(auto)]

ghost use Rattle.std.specs.Prelude.{◌≡◌, ◌≤◌, length, IfOk};
ghost use Rattle.packet.specs.Datagram.{packets_of, flat};
ghost use Rattle.listing.specs.Cells.{IsPacket};

use header::HeaderAt;
use refusal::ReadError;
use std::io::{self, Read, Write};

// One byte more than the longest datagram, so that a longer one is seen to be too long.
const READ_LEN: usize = packet::READING_LIMIT + 1;

// Reads until buf is full or the input ends. Answers how many of buf's bytes were read. Each read is lent all that is left of buf: a socket that hands out
// whole messages would cut one that is longer than what it is lent.
fn read_full(input: &mut impl Read, buf: &mut [u8]) -> io::Result<usize>
    ensures { IfOk result (λ n. n ≤ length buf.new) }
{
    let mut done = 0;
    while done < buf.len() {
        let n = input.read(&mut buf[done..])?;
        if n == 0 {
            break;
        }
        done += n;
    }
    Ok(done)
}

// The datagram that the input has: all its bytes, to the end.
pub fn print_from(input: &mut impl Read, output: &mut impl Write) -> io::Result<()> {
    let mut bytes = [0u8; READ_LEN];
    let n = read_full(input, &mut bytes)?;
    print_datagram(output, &bytes[..n])
}

// Nothing is printed before the whole datagram is parsed. Refusals 10 and 11 have no cursor, and are printed with 0.
fn print_datagram(output: &mut impl Write, datagram: &[u8]) -> io::Result<()> {
    let mut index = [0u32; packet::INDEX_LEN];
    match packet::from_bytes(datagram, &mut index) {
        Ok(n) => print_packets(output, datagram, &index[..2 * n]),
        Err(e) => writeln!(output, "{e}"),
    }
}

fn print_packets(output: &mut impl Write, datagram: &[u8], cells: &[u32]) -> io::Result<()>
    requires { cells.now ≡ flat (packets_of datagram.now).cells }
{
    for cell in cells.chunks_exact(2) {
        let header = HeaderAt {
            bytes: datagram,
            at: cell[0] as usize,
        };
        print_packet(output, &header, cell[1])?;
    }
    Ok(())
}

// The walk has refused unknown types, so that the header of a listed packet is read.
fn print_packet(output: &mut impl Write, header: &HeaderAt<'_>, payload_len: u32) -> io::Result<()>
    requires { IsPacket header.now.bytes.now header.now.at payload_len }
{
    match header.deserialise() {
        Ok(h) => writeln!(
            output,
            "{} {} {} {payload_len}",
            u8::from(h.type_field),
            h.type_specific_payload,
            h.packet_number
        ),
        Err(error) => writeln!(output, "{error}"),
    }
}
