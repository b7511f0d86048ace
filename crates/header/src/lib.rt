// The header of 20 bytes (core/header.rs), and the table of the sixteen packet types.
// Proved: every call says and leaves what its definition in specs/Header.antt does, and the table keeps its rule at each row.
#![tactic(auto)]

ghost use Rattle.std.specs.Prelude.{◌≡◌, ℕ, ◌+◌, ◌<◌, ◌≤◌, List, length};
ghost use Rattle.std.proofs.Math.Seq.{paste};
ghost use Rattle.refusal.specs.Said.{Said, says, read_says};
ghost use Rattle.header.specs.Types.{type_number, type_of, typed, row_of, row_says, TypeTable};
ghost use Rattle.header.specs.Header.{security_byte, security_of, leading_bytes, header_bytes, type_at, field_at, packet_number_at, header_of, with_number};
ghost use Rattle.header.specs.Header.{serialises_security, deserialises_security, fields_too_large, serialises_into, deserialises_at, deserialises};

use refusal::{ReadError, Refusal};

// The bytes of a header.
pub const HEADER_SIZE: usize = 20;

#[derive(Clone, Copy, Debug, PartialEq, Eq)]
pub enum PacketType {
    UnencryptedClientHello = 0,
    UnencryptedServerHello = 1,
    ClientAck = 2,
    UnencryptedData = 3,
    Ack = 4,
    Fin = 5,
    FinAck = 6,
}

// What the table says of a type number.
#[derive(Clone, Copy, Debug, PartialEq, Eq)]
pub enum TypeRow {
    Unknown,
    HeaderAlone,
    WithPayload,
}

const TYPES: [TypeRow; 16] = [
    TypeRow::HeaderAlone,
    TypeRow::HeaderAlone,
    TypeRow::HeaderAlone,
    TypeRow::WithPayload,
    TypeRow::HeaderAlone,
    TypeRow::HeaderAlone,
    TypeRow::HeaderAlone,
    TypeRow::Unknown,
    TypeRow::Unknown,
    TypeRow::Unknown,
    TypeRow::Unknown,
    TypeRow::Unknown,
    TypeRow::Unknown,
    TypeRow::Unknown,
    TypeRow::Unknown,
    TypeRow::Unknown,
];

// Every read learns from here which types are known and which have a payload. (A type number that is given for writing is tried by `PacketType::try_from`,
// which keeps the table's rule.) The compiler builds the table anew wherever it is read, so a loop takes it once, before its first step.
#[derive(Clone, Copy)]
pub struct TypeRows {
    rows: [TypeRow; 16],
    ghost rule: { TypeTable rows },
}

impl TypeRows {
    pub fn new() -> Self {
        Self { rows: TYPES }
    }

    // The row of a header's type, which four bits hold.
    pub fn row(&self, header: &HeaderAt<'_>) -> TypeRow
        ensures { row_says result ≡ row_of (type_at header.now.bytes.now header.now.at) }
    {
        self.row_in_unchecked(header.type_number())
    }

    // The row of a type number that four bits hold, wherever it was read.
    pub fn row_in_unchecked(&self, number: u8) -> TypeRow
        requires { number < 16 }
        ensures { row_says result ≡ row_of number }
    {
        self.rows[number as usize]
    }
}

// core/header.rs, `PacketType as u8`.
impl From<PacketType> for u8 {
    ghost from_gives = { λ t n. n ≡ type_number t };

    fn from(t: PacketType) -> u8 {
        t as u8
    }
}

// core/header.rs, `PacketType::from_u8`, which panics from 7 on.
impl TryFrom<u8> for PacketType {
    type Error = Refusal;

    ghost try_from_gives = { λ n r. says (λ t. t) r ≡ typed n };

    fn try_from(number: u8) -> Result<Self, Refusal> {
        match number {
            0 => Ok(PacketType::UnencryptedClientHello),
            1 => Ok(PacketType::UnencryptedServerHello),
            2 => Ok(PacketType::ClientAck),
            3 => Ok(PacketType::UnencryptedData),
            4 => Ok(PacketType::Ack),
            5 => Ok(PacketType::Fin),
            6 => Ok(PacketType::FinAck),
            _ => Err(Refusal::UnknownType),
        }
    }
}

impl PacketType {
    // The type of a known number. The last type stands for every other number: who asks refuses those first, or asks for none of them.
    pub fn of_number(number: u8) -> Self
        ensures { result ≡ type_of number }
    {
        Self::try_from(number).unwrap_or(PacketType::FinAck)
    }
}

// A header's 20 bytes from `at` on, known to be there: what is read of them asks for no test.
#[derive(Clone, Copy)]
pub struct HeaderAt<'a> {
    pub bytes: &'a [u8],
    pub at: usize,
    ghost within: { at + 20 ≤ length bytes.now },
}

impl HeaderAt<'_> {
    pub fn type_number(&self) -> u8
        ensures { result ≡ type_at self.now.bytes.now self.now.at }
    {
        self.bytes[self.at] % 16
    }

    #[tactic(auto, using(parts::proofs::BigEndian::from_be_bytes_2))]
    pub fn field(&self) -> u16
        ensures { result ≡ field_at self.now.bytes.now self.now.at }
    {
        u16::from_be_bytes(parts::array_at(self.bytes, self.at + 1))
    }

    #[tactic(auto, using(parts::proofs::BigEndian::from_be_bytes_8))]
    pub fn number(&self) -> u64
        ensures { result ≡ packet_number_at self.now.bytes.now self.now.at }
    {
        u64::from_be_bytes(parts::array_at(self.bytes, self.at + 12))
    }

    // The whole header, or refusal 4.
    #[tactic(auto, using(parts::proofs::BigEndian::from_be_bytes_4), unfolding(crate::specs::Header::header_at))]
    pub fn deserialise(&self) -> Result<BluefinHeader, ReadError>
        ensures { read_says (λ h. h) result ≡ deserialises_at self.now.bytes.now self.now.at }
    {
        let HeaderAt { bytes, at } = *self;
        if TypeRows::new().row(self) == TypeRow::Unknown {
            return Err(ReadError::at(Refusal::UnknownType, at));
        }
        Ok(BluefinHeader {
            version: bytes[at] / 16,
            type_field: PacketType::of_number(self.type_number()),
            type_specific_payload: self.field(),
            security_fields: BluefinSecurityFields::from(bytes[at + 3]),
            source_connection_id: u32::from_be_bytes(parts::array_at(bytes, at + 4)),
            destination_connection_id: u32::from_be_bytes(parts::array_at(bytes, at + 8)),
            packet_number: self.number(),
        })
    }
}

// The security byte's fields. A mask above 127 may be held; writing refuses it.
#[derive(Clone, Copy, Debug, PartialEq, Eq)]
pub struct BluefinSecurityFields {
    pub header_encrypted: bool,
    pub header_protection_mask: u8,
}

impl BluefinSecurityFields {
    // core/header.rs, `BluefinSecurityFields::new`, which panics at a mask above 127.
    pub fn new(header_encrypted: bool, header_protection_mask: u8) -> Self
        ensures { (result.header_encrypted ≡ header_encrypted) × (result.header_protection_mask ≡ header_protection_mask) }
    {
        Self {
            header_encrypted,
            header_protection_mask,
        }
    }

    // core/header.rs, `BluefinSecurityFields::encrypted`.
    pub fn encrypted(self) -> bool
        ensures { result ≡ self.header_encrypted }
    {
        self.header_encrypted
    }

    // core/header.rs, `BluefinSecurityFields::mask`.
    pub fn mask(self) -> u8
        ensures { result ≡ self.header_protection_mask }
    {
        self.header_protection_mask
    }

    fn byte(self) -> u8
        requires { self.header_protection_mask ≤ 127 }
        ensures { result ≡ security_byte self }
    {
        if self.header_encrypted {
            128 + self.header_protection_mask
        } else {
            self.header_protection_mask
        }
    }

    // core/header.rs, `BluefinSecurityFields::serialise`.
    pub fn serialise(self) -> Result<u8, Refusal>
        ensures { says (λ b. b) result ≡ serialises_security self }
    {
        if self.header_protection_mask > 127 {
            return Err(Refusal::OutOfRange);
        }
        Ok(self.byte())
    }

    // core/header.rs, `BluefinSecurityFields::deserialise`.
    pub fn deserialise(bytes: &[u8]) -> Result<Self, ReadError>
        ensures { read_says (λ f. f) result ≡ deserialises_security bytes.now }
    {
        match bytes.first() {
            Some(&byte) => Ok(Self::from(byte)),
            None => Err(ReadError::at(Refusal::Short, 0)),
        }
    }
}

impl From<u8> for BluefinSecurityFields {
    ghost from_gives = { λ b f. f ≡ security_of b };

    fn from(byte: u8) -> Self {
        Self::new(byte >= 128, byte % 128)
    }
}

#[derive(Clone, Copy, Debug, PartialEq, Eq)]
pub struct BluefinHeader {
    pub version: u8,
    pub type_field: PacketType,
    pub type_specific_payload: u16,
    pub security_fields: BluefinSecurityFields,
    pub source_connection_id: u32,
    pub destination_connection_id: u32,
    pub packet_number: u64,
}

impl BluefinHeader {
    // core/header.rs, `BluefinHeader::new`.
    pub fn new(
        source_connection_id: u32,
        destination_connection_id: u32,
        type_field: PacketType,
        type_specific_payload: u16,
        security_fields: BluefinSecurityFields,
    ) -> Self
        ensures { result ≡ header_of source_connection_id destination_connection_id type_field type_specific_payload security_fields }
    {
        Self {
            version: 0,
            type_field,
            type_specific_payload,
            security_fields,
            source_connection_id,
            destination_connection_id,
            packet_number: 0,
        }
    }

    // core/header.rs, `BluefinHeader::with_packet_number`: the header comes back with the number.
    pub fn with_packet_number(self, packet_number: u64) -> Self
        ensures { result ≡ with_number self packet_number }
    {
        Self {
            packet_number,
            ..self
        }
    }

    fn leading_bytes(self) -> [u8; 4]
        requires { (self.version ≤ 15) × (self.security_fields.header_protection_mask ≤ 127) }
        ensures { result ≡ leading_bytes self }
    {
        let first = self.version * 16 + u8::from(self.type_field);
        let [high, low] = self.type_specific_payload.to_be_bytes();
        [first, high, low, self.security_fields.byte()]
    }

    // Writes the header from `at` on: fields and room are the caller's to check. Each part is a small array, and so one store.
    pub fn serialise_at_unchecked(self, buf: &mut [u8], at: usize)
        requires { (self.version ≤ 15) × (self.security_fields.header_protection_mask ≤ 127) × (at + 20 ≤ length buf.old) }
        ensures { buf.new ≡ paste buf.old at (header_bytes self) 20 }
    {
        parts::put(&self.leading_bytes(), buf, at);
        parts::put(&self.source_connection_id.to_be_bytes(), buf, at + 4);
        parts::put(&self.destination_connection_id.to_be_bytes(), buf, at + 8);
        parts::put(&self.packet_number.to_be_bytes(), buf, at + 12);
    }

    // Whether writing is refused with 11: a field that its bits do not hold.
    pub fn fields_too_large(self) -> bool
        ensures { result ≡ fields_too_large self }
    {
        self.version > 15 || self.security_fields.header_protection_mask > 127
    }

    // core/header.rs, `BluefinHeader::serialise_into`, which asserts the room.
    pub fn serialise_into(self, buf: &mut [u8]) -> Result<usize, Refusal>
        ensures { ◌≡◌ {A = Said ℕ × List ℕ} (says (λ n. n) result, buf.new) (serialises_into self buf.old) }
    {
        if self.fields_too_large() {
            return Err(Refusal::OutOfRange);
        }
        if buf.len() < HEADER_SIZE {
            return Err(Refusal::BufferShort);
        }
        self.serialise_at_unchecked(buf, 0);
        Ok(HEADER_SIZE)
    }

    // core/header.rs, `BluefinHeader::deserialise`, which panics at an unknown type.
    pub fn deserialise(bytes: &[u8]) -> Result<Self, ReadError>
        ensures { read_says (λ h. h) result ≡ deserialises bytes.now }
    {
        if bytes.len() != HEADER_SIZE {
            return Err(ReadError::at(Refusal::Short, 0));
        }
        HeaderAt { bytes, at: 0 }.deserialise()
    }
}
