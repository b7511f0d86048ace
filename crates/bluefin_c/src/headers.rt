// The header: core/header.rs for hosts. A type number that no packet has is refused on writing, before all else.
// Proved: what each call answers and leaves is the flat form of the definition in crates/header.
ghost use Rattle.std.specs.Prelude.{◌≡◌};
ghost use Rattle.header.specs.Header.{serialises_into, deserialises};
ghost use Rattle.flat.specs.Answers.{first_by};
ghost use Rattle.flat.specs.Headers.{header_in, unless_unknown, written_of, header_read_of};

use flat::headers::{Header, HeaderRead, Written};
use header::BluefinHeader;

#[unsafe(no_mangle)]
pub extern "C" fn bluefin_header_serialise_into(header: Header, buf: &mut [u8]) -> Written
    ensures { (result, buf.new)
        ≡ first_by written_of (unless_unknown header buf.old (serialises_into (header_in header) buf.old)) }
{
    match BluefinHeader::try_from(header) {
        Ok(header) => header.serialise_into(buf).into(),
        Err(refusal) => Written::from(Err(refusal)),
    }
}

#[unsafe(no_mangle)]
pub extern "C" fn bluefin_header_deserialise(bytes: &[u8]) -> HeaderRead
    ensures { result ≡ header_read_of (deserialises bytes.now) }
{
    BluefinHeader::deserialise(bytes).into()
}
