// The close record of a connection: net/close_handler.rs; document 01, "Closing".
// Each event is a transition by value, `after_..`, for who keeps the record by value; the Rust's call of that event changes the record where it is lent.
// Proved: what each call answers and the record that it leaves are the definition's. No call refuses.
#![tactic(auto)]

ghost use Rattle.std.specs.Prelude.{◌≡◌};
ghost use Rattle.close_handler.specs.Close.{fresh, after_fin, after_fin_ack, after_local_fin, after_closed, after_take, state_says, state_of, owed, recorded, taken};

#[derive(Clone, Copy, Debug, PartialEq, Eq)]
pub enum CloseState {
    Active,
    PeerFinReceived(u64),
    LocalFinSent(u64),
    Closed,
}

impl CloseState {
    // As it is answered: its number, and that of its FIN.
    pub fn numbers(self) -> (u8, Option<u64>)
        ensures { result ≡ state_says self }
    {
        match self {
            Self::Active => (0, None),
            Self::PeerFinReceived(n) => (1, Some(n)),
            Self::LocalFinSent(n) => (2, Some(n)),
            Self::Closed => (3, None),
        }
    }
}

// `peer_fin_observed` is shared with the reader in the Rust; here it is a bool of the record.
#[derive(Clone, Copy, Debug, PartialEq, Eq)]
pub struct CloseBuffer {
    pub state: CloseState,
    pub pending_fin_ack_send: Option<u64>,
    pub received_fin_ack_for: Option<u64>,
    pub peer_fin_observed: bool,
}

impl CloseBuffer {
    // The flag stays as it was handed in.
    pub fn new(peer_fin_observed: bool) -> Self
        ensures { result ≡ fresh peer_fin_observed }
    {
        Self {
            state: CloseState::Active,
            pending_fin_ack_send: None,
            received_fin_ack_for: None,
            peer_fin_observed,
        }
    }

    // A FIN that crossed ours is taken in like the first one: the Rust's two branches there do the same.
    pub fn after_fin(self, n: u64) -> Self
        ensures { result ≡ after_fin self n }
    {
        match self.state {
            CloseState::Active | CloseState::LocalFinSent(_) => Self {
                state: CloseState::PeerFinReceived(n),
                pending_fin_ack_send: Some(n),
                peer_fin_observed: true,
                ..self
            },
            CloseState::PeerFinReceived(m) if m == n => Self {
                pending_fin_ack_send: Some(n),
                ..self
            },
            CloseState::PeerFinReceived(_) | CloseState::Closed => self,
        }
    }

    pub fn after_fin_ack(self, n: u64) -> Self
        ensures { result ≡ after_fin_ack self n }
    {
        Self {
            received_fin_ack_for: Some(n),
            ..self
        }
    }

    // After a FIN of the peer's the record waits for a FIN-ACK as well: it does not close.
    pub fn after_local_fin(self, n: u64) -> Self
        ensures { result ≡ after_local_fin self n }
    {
        match self.state {
            CloseState::Active | CloseState::PeerFinReceived(_) => Self {
                state: CloseState::LocalFinSent(n),
                ..self
            },
            CloseState::LocalFinSent(_) | CloseState::Closed => self,
        }
    }

    pub fn after_closed(self) -> Self
        ensures { result ≡ after_closed self }
    {
        Self {
            state: CloseState::Closed,
            ..self
        }
    }

    pub fn after_take(self) -> Self
        ensures { result ≡ after_take self }
    {
        Self {
            pending_fin_ack_send: None,
            ..self
        }
    }

    pub fn buffer_in_fin(&mut self, n: u64)
        ensures { self.new ≡ after_fin self.old n }
    {
        *self = self.after_fin(n);
    }

    pub fn buffer_in_fin_ack(&mut self, n: u64)
        ensures { self.new ≡ after_fin_ack self.old n }
    {
        *self = self.after_fin_ack(n);
    }

    pub fn record_local_fin_sent(&mut self, n: u64)
        ensures { self.new ≡ after_local_fin self.old n }
    {
        *self = self.after_local_fin(n);
    }

    pub fn mark_closed(&mut self)
        ensures { self.new ≡ after_closed self.old }
    {
        *self = self.after_closed();
    }

    pub fn take_pending_fin_ack_send(&mut self) -> Option<u64>
        ensures { (result, self.new) ≡ taken self.old }
    {
        self.pending_fin_ack_send.take()
    }

    pub fn state(&self) -> CloseState
        ensures { state_says result ≡ state_of self.now }
    {
        self.state
    }

    pub fn pending_fin_ack_send(&self) -> Option<u64>
        ensures { result ≡ owed self.now }
    {
        self.pending_fin_ack_send
    }

    pub fn received_fin_ack_for(&self) -> Option<u64>
        ensures { result ≡ recorded self.now }
    {
        self.received_fin_ack_for
    }
}
