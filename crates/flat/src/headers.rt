// Headers as hosts have them, every field a number, and the answers of crates/header.
// Proved: each conversion is that of specs/Headers.antt.
ghost use Rattle.std.specs.Prelude.{◌≡◌};
ghost use Rattle.refusal.specs.Said.{says, read_says};
ghost use Rattle.flat.specs.Headers.{header_in, header_known, flat_header, no_header, written_of, header_read_of};

use header::{BluefinHeader, BluefinSecurityFields, PacketType};
use refusal::{ReadError, Refusal};

#[repr(C)]
#[derive(Clone, Copy, Debug, PartialEq, Eq, Default)]
pub struct Header {
    pub packet_number: u64,
    pub source_connection_id: u32,
    pub destination_connection_id: u32,
    pub type_specific_payload: u16,
    pub version: u8,
    pub type_field: u8,
    pub header_protection_mask: u8,
    pub header_encrypted: bool,
}

#[repr(C)]
#[derive(Clone, Copy, Debug, PartialEq, Eq, Default)]
pub struct Written {
    pub bytes: usize,
    pub refusal: u8,
}

#[repr(C)]
#[derive(Clone, Copy, Debug, PartialEq, Eq, Default)]
pub struct HeaderRead {
    pub header: Header,
    pub cursor: usize,
    pub refusal: u8,
}

impl Header {
    // The header that the numbers mean. A type number above 6 stands for the last type: who writes refuses it first, by `try_from`.
    pub fn to_header(self) -> BluefinHeader
        ensures { result ≡ header_in self }
    {
        BluefinHeader {
            version: self.version,
            type_field: PacketType::of_number(self.type_field),
            type_specific_payload: self.type_specific_payload,
            security_fields: BluefinSecurityFields::new(
                self.header_encrypted,
                self.header_protection_mask,
            ),
            source_connection_id: self.source_connection_id,
            destination_connection_id: self.destination_connection_id,
            packet_number: self.packet_number,
        }
    }
}

impl TryFrom<Header> for BluefinHeader {
    type Error = Refusal;

    ghost try_from_gives = { λ h r. says (λ b. b) r ≡ header_known h };

    fn try_from(header: Header) -> Result<Self, Refusal> {
        PacketType::try_from(header.type_field)?;
        Ok(header.to_header())
    }
}

impl From<BluefinHeader> for Header {
    ghost from_gives = { λ b h. h ≡ flat_header b };

    fn from(header: BluefinHeader) -> Self {
        Self {
            packet_number: header.packet_number,
            source_connection_id: header.source_connection_id,
            destination_connection_id: header.destination_connection_id,
            type_specific_payload: header.type_specific_payload,
            version: header.version,
            type_field: header.type_field.into(),
            header_protection_mask: header.security_fields.header_protection_mask,
            header_encrypted: header.security_fields.header_encrypted,
        }
    }
}

impl From<Result<usize, Refusal>> for Written {
    ghost from_gives = { λ r w. w ≡ written_of (says (λ n. n) r) };

    fn from(answer: Result<usize, Refusal>) -> Self {
        match answer {
            Ok(bytes) => Self { bytes, refusal: 0 },
            Err(refusal) => Self {
                refusal: refusal.number(),
                ..Self::default()
            },
        }
    }
}

impl From<Result<BluefinHeader, ReadError>> for HeaderRead {
    ghost from_gives = { λ r h. h ≡ header_read_of (read_says (λ b. b) r) };

    fn from(answer: Result<BluefinHeader, ReadError>) -> Self {
        match answer {
            Ok(header) => Self {
                header: header.into(),
                ..Self::default()
            },
            Err(error) => Self {
                cursor: error.cursor.unwrap_or(0),
                refusal: error.refusal.number(),
                ..Self::default()
            },
        }
    }
}
