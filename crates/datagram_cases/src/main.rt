// Prints each datagram whose file an argument names, after the name, as the program `datagram` prints the one on its standard input.
// The files under data/ get every answer that a datagram can get there, at both ends of its length (data/README.md).
#![tactic(auto)]

use std::env;
use std::fs::File;
use std::io::{self, BufWriter, Write};
use std::rt::Files;

// A file that cannot be opened is named on standard error, and the next one is printed.
fn print_case(rt: &(impl Files + Eprint), output: &mut impl Write, name: &str) -> io::Result<()> {
    writeln!(output, "{name}")?;
    match File::open(rt, name) {
        Ok(mut file) => listing::print_from(&mut file, output),
        Err(e) => eprintln!(rt; "{name}: {e}"),
    }
}

fn main(rt: HostRuntime) -> io::Result<()> {
    let mut output = BufWriter::new(rt.alloc(), io::writer(&rt))?;
    for name in env::args(&rt)?.skip(1) {
        print_case(&rt, &mut output, name.as_str())?;
    }
    output.flush()
}
