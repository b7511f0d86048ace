// A header in a record: eight numbers, in the order version, type, field, encrypted, mask, source, destination, packet number.
#![tactic(auto)]

use header::{BluefinHeader, BluefinSecurityFields, PacketType};
use recorded::Replay;
use std::fmt::{self, Display, Formatter};
use std::io::{self, Read};

// The type of a word: the recorded ones are 0 to 6.
pub fn read_type<R: Read, W>(replay: &mut Replay<R, W>) -> io::Result<PacketType> {
    Ok(PacketType::of_number(replay.read_u8()?))
}

pub fn read_security<R: Read, W>(replay: &mut Replay<R, W>) -> io::Result<BluefinSecurityFields> {
    let encrypted = replay.read_word()? != 0;
    let mask = replay.read_u8()?;
    Ok(BluefinSecurityFields::new(encrypted, mask))
}

pub fn read_header<R: Read, W>(replay: &mut Replay<R, W>) -> io::Result<BluefinHeader> {
    Ok(BluefinHeader {
        version: replay.read_u8()?,
        type_field: read_type(replay)?,
        type_specific_payload: replay.read_u16()?,
        security_fields: read_security(replay)?,
        source_connection_id: replay.read_u32()?,
        destination_connection_id: replay.read_u32()?,
        packet_number: replay.read_word()?,
    })
}

// Prints as the numbers of a record.
#[derive(Clone, Copy)]
pub struct Numbers<T>(pub T);

impl Display for Numbers<BluefinSecurityFields> {
    fn fmt<W: fmt::Write>(&self, f: &mut Formatter<W>) -> fmt::Result {
        let fields = self.0;
        write!(f, "{} {}", fields.encrypted() as u8, fields.mask())
    }
}

impl Display for Numbers<BluefinHeader> {
    fn fmt<W: fmt::Write>(&self, f: &mut Formatter<W>) -> fmt::Result {
        let BluefinHeader {
            version,
            type_field,
            type_specific_payload,
            security_fields,
            source_connection_id,
            destination_connection_id,
            packet_number,
        } = self.0;
        let type_number = u8::from(type_field);
        let security = Numbers(security_fields);
        write!(
            f,
            "{version} {type_number} {type_specific_payload} {security} "
        )?;
        write!(
            f,
            "{source_connection_id} {destination_connection_id} {packet_number}"
        )
    }
}
