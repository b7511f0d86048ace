// The acks of a datagram, entered as `insert_range` enters them.
// Proved: window, cells and answer are those of the entries of specs/Datagram.antt.
// The trait's clauses stand here again: the check cannot give them to the methods of a block with a lifetime yet.
#![tactic(auto)]

ghost use Rattle.std.specs.Prelude.{◌≡◌, true};
ghost use Rattle.std.proofs.Common.{rules};
ghost use Rattle.refusal.specs.Said.{says};
ghost use Rattle.header.specs.Types.{type_number};
ghost use Rattle.packet.specs.Datagram.{packet_at};
ghost use Rattle.window.specs.Window.{well_formed};
ghost use Rattle.window.specs.View.{SameLent};
ghost use Rattle.receive.specs.Datagram.{Acks, acks_in, enters};

use crate::receiver::Receiver;
use header::PacketType;
use packet::PacketAt;
use refusal::Refusal;
use window::WindowViewMut;

impl Receiver for WindowViewMut<'_> {
    ghost kind = { 4 };

    ghost State = { Acks };

    ghost state = { acks_in };

    ghost well = { λ a. well_formed a.window a.cells };

    ghost call = { enters };

    ghost Kept = { SameLent };

    fn packet_type() -> PacketType
        ensures { type_number result ≡ 4 }
    {
        PacketType::Ack
    }

    fn well_formed(&self) -> bool
        ensures { result ≡ well_formed self.now.state self.now.cells.now }
    {
        self.well_formed()
    }

    // No payload is read.
    fn take_unchecked(&mut self, packet: &PacketAt<'_>) -> Result<(), Refusal>
        requires { well_formed self.old.state self.old.cells.now ≡ true }
        ensures kept { SameLent self.old self.new }
        ensures well { well_formed self.new.state self.new.cells.now ≡ true }
        ensures value { (says (λ x. x) result, acks_in self.new) ≡ enters (acks_in self.old) (packet_at packet.now.datagram.now (packet.now.at, packet.now.len)) }
    {
        let header = packet.header();
        self.insert_range_unchecked(header.number(), header.field())
    }

    ghost early = { Prim.search rules };

    ghost kept_none = { Prim.search rules };

    ghost kept_both = { Prim.search rules };
}
