// The close record of crates/close_handler as hosts have it: every part a number, 0 for the number of a FIN that is absent.
// Proved: each conversion, either way, is that of specs/Closing.antt, and so is each call on a record.
ghost use Rattle.std.specs.Prelude.{◌≡◌, ◌≤◌, ◌<◌};
ghost use Rattle.refusal.specs.Said.{says, refuses, answers};
ghost use Rattle.flat.specs.Closing.{close_in, flat_close, unless_malformed, fin_ack_taken};

use close_handler::{CloseBuffer, CloseState};
use refusal::Refusal;

#[repr(C)]
#[derive(Clone, Copy, Debug, PartialEq, Eq, Default)]
pub struct CloseRecord {
    pub state_fin: u64,
    pub pending_fin_ack_send: u64,
    pub received_fin_ack_for: u64,
    pub state: u8,
    pub is_pending: bool,
    pub is_received: bool,
    pub peer_fin_observed: bool,
}

#[repr(C)]
#[derive(Clone, Copy, Debug, PartialEq, Eq)]
pub struct CloseAfter {
    pub close: CloseRecord,
    pub refusal: u8,
}

#[repr(C)]
#[derive(Clone, Copy, Debug, PartialEq, Eq, Default)]
pub struct FinAckTaken {
    pub close: CloseRecord,
    pub number: u64,
    pub was_pending: bool,
    pub refusal: u8,
}

impl TryFrom<CloseRecord> for CloseBuffer {
    type Error = Refusal;

    ghost try_from_gives = { λ c r. says (λ b. b) r ≡ unless_malformed c refuses (answers (close_in c)) };

    fn try_from(c: CloseRecord) -> Result<Self, Refusal> {
        if c.state >= 4 {
            return Err(Refusal::Malformed);
        }
        Ok(c.to_buffer())
    }
}

impl From<CloseBuffer> for CloseRecord {
    ghost from_gives = { λ b c. c ≡ flat_close b };

    fn from(b: CloseBuffer) -> Self {
        let (state, fin) = b.state.numbers();
        Self {
            state_fin: fin.unwrap_or(0),
            pending_fin_ack_send: b.pending_fin_ack_send.unwrap_or(0),
            received_fin_ack_for: b.received_fin_ack_for.unwrap_or(0),
            state,
            is_pending: b.pending_fin_ack_send.is_some(),
            is_received: b.received_fin_ack_for.is_some(),
            peer_fin_observed: b.peer_fin_observed,
        }
    }
}

impl CloseRecord {
    // The record that a host's numbers mean. A state number above 3 stands for Closed here, and `try_from` refuses it.
    pub fn to_buffer(self) -> CloseBuffer
        ensures { result ≡ close_in self }
    {
        CloseBuffer {
            state: match self.state {
                0 => CloseState::Active,
                1 => CloseState::PeerFinReceived(self.state_fin),
                2 => CloseState::LocalFinSent(self.state_fin),
                _ => CloseState::Closed,
            },
            pending_fin_ack_send: self.is_pending.then_some(self.pending_fin_ack_send),
            received_fin_ack_for: self.is_received.then_some(self.received_fin_ack_for),
            peer_fin_observed: self.peer_fin_observed,
        }
    }

    // The record after an event, or as it came where no state has its number.
    pub fn after<F: FnOnce(CloseBuffer) -> CloseBuffer>(self, event: F) -> CloseAfter
        requires { F.IsAlwaysCallable event }
        ensures malformed { 4 ≤ self.state → result ≡ record { close = self; refusal = 12 } }
        ensures moved { self.state < 4 → (b : _) × F.post event (close_in self) b × (result ≡ record { close = flat_close b; refusal = 0 }) }
    {
        match CloseBuffer::try_from(self) {
            Ok(b) => CloseAfter {
                close: event(b).into(),
                refusal: 0,
            },
            Err(refusal) => CloseAfter {
                close: self,
                refusal: refusal.number(),
            },
        }
    }

    pub fn take_pending_fin_ack_send(self) -> FinAckTaken
        ensures { result ≡ fin_ack_taken self }
    {
        match CloseBuffer::try_from(self) {
            Ok(mut b) => {
                let owed = b.take_pending_fin_ack_send();
                FinAckTaken {
                    close: b.into(),
                    number: owed.unwrap_or(0),
                    was_pending: owed.is_some(),
                    refusal: 0,
                }
            }
            Err(refusal) => FinAckTaken {
                close: self,
                refusal: refusal.number(),
                ..FinAckTaken::default()
            },
        }
    }
}
