// Reads one datagram from standard input and prints its packets, or its refusal: document 01, "A program reads one datagram".
#![tactic(auto)]

use std::io::{self, BufWriter, Write};

fn main(rt: HostRuntime) -> io::Result<()> {
    let mut output = BufWriter::new(rt.alloc(), io::writer(&rt))?;
    listing::print_from(&mut rt.reader(), &mut output)?;
    output.flush()
}
