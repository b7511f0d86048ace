// The data packets of a datagram, accepted as `buffer_in_packet` accepts them.
// Proved: buffer and answer are those of the accepts of specs/Datagram.antt.
// The trait's clauses stand here again: the check cannot give them to the methods of a block with a lifetime yet.
#![tactic(auto)]

ghost use Rattle.std.specs.Prelude.{◌≡◌, true};
ghost use Rattle.std.proofs.Common.{rules};
ghost use Rattle.refusal.specs.Said.{says};
ghost use Rattle.header.specs.Types.{type_number};
ghost use Rattle.packet.specs.Datagram.{packet_at};
ghost use Rattle.ordered_bytes.specs.Buffer.{Buffer, buffer_now, well_formed, SameLent};
ghost use Rattle.receive.specs.Datagram.{accepts};

use crate::receiver::Receiver;
use header::PacketType;
use ordered_bytes::BufferViewMut;
use packet::PacketAt;
use refusal::Refusal;

impl Receiver for BufferViewMut<'_> {
    ghost kind = { 3 };

    ghost State = { Buffer };

    ghost state = { buffer_now };

    ghost well = { well_formed };

    ghost call = { accepts };

    ghost Kept = { λ a b. SameLent a b × (b.state ≡ a.state) };

    fn packet_type() -> PacketType
        ensures { type_number result ≡ 3 }
    {
        PacketType::UnencryptedData
    }

    fn well_formed(&self) -> bool
        ensures { result ≡ well_formed (buffer_now self.now) }
    {
        self.view().well_formed()
    }

    // Of a 5 the ack is left out: it is of the packet's own number, which stands in the datagram.
    fn take_unchecked(&mut self, packet: &PacketAt<'_>) -> Result<(), Refusal>
        requires { well_formed (buffer_now self.old) ≡ true }
        ensures kept { SameLent self.old self.new × (self.new.state ≡ self.old.state) }
        ensures well { well_formed (buffer_now self.new) ≡ true }
        ensures value { (says (λ x. x) result, buffer_now self.new) ≡ accepts (buffer_now self.old) (packet_at packet.now.datagram.now (packet.now.at, packet.now.len)) }
    {
        self.buffer_in_packet_unchecked(packet.header().number(), packet.payload())
            .map_err(Refusal::from)
    }

    ghost early = { Prim.search rules };

    ghost kept_none = { Prim.search rules };

    ghost kept_both = { Prim.search rules };
}
