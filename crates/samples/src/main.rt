// Document 01, "Bench samples". The starred ones are one table, specs/Samples.antt, proved by one statement, proofs/Samples.antt.
// The boundaries that they leave out are a second table, specs/Boundaries.antt, proved by one statement, proofs/Boundaries.antt.
// This program writes the sample header and compares it with the sample's bytes: its status is 0 where they are the same. Proved: the comparison holds.
#![tactic(auto)]

use header::{BluefinHeader, BluefinSecurityFields, PacketType};
use std::process::ExitCode;

// "data header, field 5, source 1, destination 2, number 7"
fn main() -> ExitCode {
    let security = BluefinSecurityFields::new(false, 0);
    let header = BluefinHeader::new(1, 2, PacketType::UnencryptedData, 5, security);
    let numbered = header.with_packet_number(7);
    let mut buf = [0u8; 20];
    let written = numbered.serialise_into(&mut buf);
    let same = written == Ok(20)
        && buf
            == *b"\x03\x00\x05\x00\x00\x00\x00\x01\x00\x00\x00\x02\x00\x00\x00\x00\x00\x00\x00\x07";
    prove!(same);
    if same {
        ExitCode::SUCCESS
    } else {
        ExitCode::FAILURE
    }
}
