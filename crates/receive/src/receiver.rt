// What takes the packets of one type of a datagram: the calls of `receive` and `receive_acks`, written once over the trait `Receiver`.
// The trait's ghost members are what specs/Datagram.antt is generic over: a state, a type number and the call for one packet.
// Proved for every receiver: answer, state and every lent list are the definition's `takes_datagram`, on every input.
#![tactic(auto)]

ghost use Rattle.std.specs.Prelude.{◌≡◌, ℕ, ◌/◌, ◌<◌, ◌≤◌, Bool, true, length};
ghost use Rattle.refusal.specs.Said.{Said, says, read_says};
ghost use Rattle.header.specs.Types.{type_number};
ghost use Rattle.packet.specs.Packet.{Packet};
ghost use Rattle.packet.specs.Datagram.{packet_at, Listed};
ghost use Rattle.receive.specs.Datagram.{progress, takes, takes_listed, takes_datagram, Leaves};

use header::PacketType;
use packet::{Indexed, PacketAt};
use refusal::{ReadError, Refusal};

pub trait Receiver {
    ghost kind: { ℕ };

    ghost State: { Type 0 };

    ghost state: { Self → State };

    ghost well: { State → Bool };

    ghost call: { State → Packet → Said Unit × State };

    // What a call keeps: among it the memory that is lent, so that who lent it learns what it holds.
    ghost Kept: { Self → Self → Type 0 };

    // The type of the packets that are taken.
    fn packet_type() -> PacketType
        ensures { type_number result ≡ kind };

    // Refusal 12's test.
    fn well_formed(&self) -> bool
        ensures { result ≡ well (state self.now) };

    // The call for one packet, without that test.
    fn take_unchecked(&mut self, packet: &PacketAt<'_>) -> Result<(), Refusal>
        requires { well (state self.old) ≡ true }
        ensures kept { Kept self.old self.new }
        ensures well { well (state self.new) ≡ true }
        ensures value { (says (λ x. x) result, state self.new) ≡ call (state self.old) (packet_at packet.now.datagram.now (packet.now.at, packet.now.len)) };

    // Below 6 a number is that of one type alone: `type_of` gives FinAck for every number from 6 on.
    ghost early: { kind < 6 };

    ghost kept_none: { (x : Self) → Kept x x };

    ghost kept_both: { (x y z : Self) → Kept x y → Kept y z → Kept x z };
}

// The i-th packet, if it is of the type.
fn take_one<R: Receiver>(receiver: &mut R, packet: &PacketAt<'_>, i: usize, answers: &mut [u8])
    requires { (R.well (R.state receiver.old) ≡ true) × (i < length answers.old) }
    ensures kept { R.Kept receiver.old receiver.new }
    ensures value { Leaves (λ x. R.well x ≡ true)
        (takes R.kind R.call i (packet_at packet.now.datagram.now (packet.now.at, packet.now.len)) (progress (R.state receiver.old) answers.old))
        (progress (R.state receiver.new) answers.new) }
{
    if packet.header().type_number() != u8::from(R::packet_type()) {
        return;
    }
    let taken = receiver.take_unchecked(packet);
    answers[i] = refusal::refusal_in(taken);
}

// The packets of the cells. Each call keeps the state well formed, so that one test of refusal 12 stands for all of them.
fn take_listed<R: Receiver>(receiver: &mut R, datagram: &[u8], cells: &[u32], answers: &mut [u8])
    requires { (R.well (R.state receiver.old) ≡ true) × Listed datagram.now cells.now (length cells.now / 2) × (length cells.now / 2 ≤ length answers.old) }
    ensures kept { R.Kept receiver.old receiver.new }
    ensures value { progress (R.state receiver.new) answers.new
        ≡ takes_listed R.kind R.call datagram.now cells.now (length cells.now / 2) (progress (R.state receiver.old) answers.old) }
{
    for (i, cell) in cells.chunks_exact(2).enumerate() {
        let packet = PacketAt {
            datagram,
            at: cell[0] as usize,
            len: cell[1] as usize,
        };
        take_one(receiver, &packet, i, answers);
    }
}

pub fn receive_datagram<R: Receiver>(
    receiver: &mut R,
    datagram: &[u8],
    index: &mut [u32],
    answers: &mut [u8],
) -> Indexed
    ensures kept { R.Kept receiver.old receiver.new }
    ensures value { record {
      said = read_says (λ n. n) result.answer;
      cells = result.cells;
      index = index.new;
      answers = answers.new;
      state = R.state receiver.new;
    }
        ≡ takes_datagram (R.well (R.state receiver.old)) R.kind R.call
        (R.state receiver.old) datagram.now index.old answers.old }
{
    if !receiver.well_formed() {
        return ReadError::from(Refusal::Malformed).into();
    }
    if answers.len() < index.len() / 2 {
        return ReadError::from(Refusal::BufferShort).into();
    }
    let indexed = packet::index_packets(datagram, index);
    take_listed(receiver, datagram, &index[..2 * indexed.cells], answers);
    indexed
}
