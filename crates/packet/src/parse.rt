// The walk over a datagram, one packet after another: what stands at the cursor, and what is met on the way to the end or to a refusal.
// Proved: a walk counts and writes what the definition's walk from the same cursor does.
ghost use Rattle.std.specs.Prelude.{◌≡◌, ◌+◌, ◌/◌, ◌^◌, ◌<◌, ◌≤◌, List, [], ℕ, length, IfOk, IfSome};
ghost use Rattle.refusal.specs.Said.{Said, read_says};

use crate::READING_LIMIT;
use header::{HEADER_SIZE, HeaderAt, TypeRow, TypeRows};
use refusal::{ReadError, Refusal};

// The packets of a datagram, of which `met` lie before the cursor `at`, where the index has `room` cells.
// The table of types is built once for a walk, and not for each packet.
#[derive(Drop)]
pub struct Packets<'a> {
    datagram: &'a [u8],
    types: TypeRows,
    room: usize,
    at: usize,
    pub met: usize,
    ghost within: { at ≤ length datagram.now },
    ghost short: { length datagram.now < 2 ^ 32 },
    ghost fits: { met ≤ room },
}

impl<'a> Packets<'a> {
    ghost use Rattle.packet.specs.Step.{look_at, Begun, Stepped, left};

    // At the first packet; or refusal 11 or 1, of the datagram as a whole.
    pub fn new(datagram: &'a [u8], room: usize) -> Result<Self, ReadError>
        ensures { Begun datagram.now room result }
    {
        if datagram.len() > READING_LIMIT {
            return Err(Refusal::OutOfRange.into());
        }
        if datagram.len() < HEADER_SIZE {
            return Err(ReadError::at(Refusal::Short, 0));
        }
        Ok(Self {
            datagram,
            types: TypeRows::new(),
            room,
            at: 0,
            met: 0,
        })
    }

    // The length of the payload at the cursor; none where the datagram ends there.
    // "refusal 2 if cursor + 20, or cursor + 19 + field, reaches the length or more", where `left` bytes stand from the cursor on.
    #[tactic(auto, using(std::proofs::lemmas::Bool::Decides::nat_tests), unfolding(crate::specs::Step::look_at, crate::specs::Datagram::payload_missing))]
    fn look_at(&self) -> Result<Option<usize>, Refusal>
        ensures here { result ≡ look_at self.now.datagram.now self.now.at }
        ensures within { IfOk result (λ found. IfSome found (λ len. self.now.at + 20 + len ≤ length self.now.datagram.now)) }
    {
        let left = self.datagram.len() - self.at;
        if left == 0 {
            return Ok(None);
        }
        if left < HEADER_SIZE {
            return Err(Refusal::Tail);
        }
        let header = HeaderAt {
            bytes: self.datagram,
            at: self.at,
        };
        match self.types.row(&header) {
            TypeRow::Unknown => return Err(Refusal::UnknownType),
            TypeRow::HeaderAlone => return Ok(Some(0)),
            TypeRow::WithPayload => {}
        }
        let field = header.field() as usize;
        if left <= 20 || left <= 19 + field {
            return Err(Refusal::PayloadMissing);
        }
        Ok(Some(field))
    }

    // The next packet's offset and payload length; none at the end. "Where the next cell is missing: 10, after that packet's other checks".
    pub fn next_packet(&mut self) -> Result<Option<(usize, usize)>, ReadError>
        ensures { Stepped self.old self.new result }
    {
        let at = self.at;
        match self.look_at() {
            Err(r) => Err(ReadError::at(r, at)),
            Ok(None) => Ok(None),
            Ok(Some(payload)) => {
                if self.met >= self.room {
                    return Err(Refusal::BufferShort.into());
                }
                self.at = at + HEADER_SIZE + payload;
                self.met += 1;
                Ok(Some((at, payload)))
            }
        }
    }

    // Each packet's offset and payload length written into its cell. By index, since of what is written through `chunks_exact_mut` a proof knows the length alone.
    pub fn write_cells(&mut self, index: &mut [u32]) -> Result<usize, ReadError>
        requires { self.old.room ≡ length index.old / 2 }
        ensures { ◌≡◌ {A = Said ℕ × List ℕ × ℕ} (read_says (λ n. n) result, index.new, self.new.met) (left self.old index.old) }
    {
        while let Some((at, payload)) = self.next_packet()? {
            let cell = 2 * (self.met - 1);
            index[cell] = at as u32;
            index[cell + 1] = payload as u32;
        }
        Ok(self.met)
    }
}
