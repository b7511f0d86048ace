// `consume`: carry-over, then held packets from the front, a packet too long for the rest split.
// Ports `consume` of net/ordered_bytes.rs; document 01, "From packets to the reader".
// Proved: the bytes given, the packets taken, the rest and the answer are the definition's.
ghost use Rattle.std.specs.Prelude.{◌≡◌, cond, ◌+◌, ◌≤◌, length, eqb};
ghost use Rattle.refusal.specs.Said.{answers, refuses};
ghost use Rattle.ordered_bytes.specs.Buffer.{buffer_in};
ghost use Rattle.ordered_bytes.specs.Calls.{result_says, consumed_says};
ghost use Rattle.ordered_bytes.specs.Steps.{WalkCopied, ReadCopied};

use crate::ConsumeResult;
use crate::checked::Checked;
use refusal::Refusal;

// What a walk took: packets, bytes given, and where in the store the rest of a split packet stands and how long it is.
#[derive(Clone, Copy)]
struct Walked {
    packets: usize,
    bytes: usize,
    rest_at: usize,
    rest: usize,
}

// What a read copied: its answer, the packets that it took, refused or not, and where the new carry-over stands.
#[derive(Clone, Copy)]
pub(crate) struct BytesRead {
    pub answer: Result<ConsumeResult, Refusal>,
    pub packets: usize,
    pub rest_at: usize,
    pub rest: usize,
}

impl Checked<'_> {
    // Copies held packets from the front to `buf` from `at` on, until `room` bytes are given; a packet too long for the rest is the last.
    // A loop: what it has given so far decides where it stops.
    fn walk_packets(&self, room: usize, buf: &mut [u8], at: usize) -> Walked
        requires { at + room ≤ length buf.old }
        ensures { WalkCopied (buffer_in self.now.view) room at buf.old buf.new result }
    {
        let view = self.view;
        let mut walked = Walked {
            packets: 0,
            bytes: 0,
            rest_at: 0,
            rest: 0,
        };
        for distance in 0..view.marks.len() {
            let slot = self.slot_at(distance);
            if walked.bytes == room || !view.marks[slot] {
                break;
            }
            let size = view.lengths[slot] as usize;
            let start = slot * view.state.slot_width;
            let part = size.min(room - walked.bytes);
            parts::copy_part(view.store, start, part, buf, at + walked.bytes);
            walked = Walked {
                packets: distance + 1,
                bytes: walked.bytes + part,
                rest_at: start + part,
                rest: size - part,
            };
        }
        walked
    }

    // A carry-over longer than the length gives its first bytes, with "0 packets, base 0", and answers also for length 0. Otherwise it goes whole, and held
    // packets follow.
    pub(crate) fn read_bytes(&self, len: usize, buf: &mut [u8]) -> BytesRead
        requires { len ≤ length buf.old }
        ensures { ReadCopied (buffer_in self.now.view) len buf.old buf.new result }
    {
        let carry_len = self.view.state.carry_len;
        let carry_at = self.carry_at();
        parts::copy_part(self.view.store, carry_at, carry_len.min(len), buf, 0);
        if len < carry_len {
            return BytesRead {
                answer: Ok(ConsumeResult {
                    num_packets_consumed: 0,
                    base_packet_number: 0,
                    bytes_consumed: len as u64,
                }),
                packets: 0,
                rest_at: carry_at + len,
                rest: carry_len - len,
            };
        }
        let walked = self.walk_packets(len - carry_len, buf, carry_len);
        let given = ConsumeResult {
            num_packets_consumed: walked.packets,
            base_packet_number: self.base_packet_number(),
            bytes_consumed: (carry_len + walked.bytes) as u64,
        };
        BytesRead {
            answer: given.unless_empty(),
            packets: walked.packets,
            rest_at: walked.rest_at,
            rest: walked.rest,
        }
    }
}

impl ConsumeResult {
    // "If no byte was given: 8".
    fn unless_empty(self) -> Result<Self, Refusal>
        ensures { consumed_says result ≡ cond (eqb self.bytes_consumed 0) (refuses 8) (answers (result_says self)) }
    {
        if self.bytes_consumed == 0 {
            Err(Refusal::Empty)
        } else {
            Ok(self)
        }
    }
}
