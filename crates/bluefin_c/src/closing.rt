// The close record: net/close_handler.rs for hosts. It goes by value.
// Proved: what each call answers is the flat form of the definition in crates/close_handler.
ghost use Rattle.std.specs.Prelude.{◌≡◌};
ghost use Rattle.close_handler.specs.Close.{fresh, after_fin, after_fin_ack, after_local_fin, after_closed};
ghost use Rattle.flat.specs.Closing.{flat_close, close_after, fin_ack_taken};

use close_handler::CloseBuffer;
use flat::closing::{CloseAfter, CloseRecord, FinAckTaken};

#[unsafe(no_mangle)]
pub extern "C" fn bluefin_close_new(peer_fin_observed: bool) -> CloseRecord
    ensures { result ≡ flat_close (fresh peer_fin_observed) }
{
    CloseBuffer::new(peer_fin_observed).into()
}

#[unsafe(no_mangle)]
pub extern "C" fn bluefin_close_buffer_in_fin(c: CloseRecord, n: u64) -> CloseAfter
    ensures { result ≡ close_after c (λ b. after_fin b n) }
{
    c.after(|b| b.after_fin(n))
}

#[unsafe(no_mangle)]
pub extern "C" fn bluefin_close_buffer_in_fin_ack(c: CloseRecord, n: u64) -> CloseAfter
    ensures { result ≡ close_after c (λ b. after_fin_ack b n) }
{
    c.after(|b| b.after_fin_ack(n))
}

#[unsafe(no_mangle)]
pub extern "C" fn bluefin_close_record_local_fin_sent(c: CloseRecord, n: u64) -> CloseAfter
    ensures { result ≡ close_after c (λ b. after_local_fin b n) }
{
    c.after(|b| b.after_local_fin(n))
}

#[unsafe(no_mangle)]
pub extern "C" fn bluefin_close_mark_closed(c: CloseRecord) -> CloseAfter
    ensures { result ≡ close_after c after_closed }
{
    c.after(CloseBuffer::after_closed)
}

#[unsafe(no_mangle)]
pub extern "C" fn bluefin_close_take_pending_fin_ack_send(c: CloseRecord) -> FinAckTaken
    ensures { result ≡ fin_ack_taken c }
{
    c.take_pending_fin_ack_send()
}
