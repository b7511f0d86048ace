// One call for a whole datagram: parse it, and accept its data packets, or enter its acks, with one test of refusal 12 for all of them.
// Document 01's arrival by one call; it has no call of its own there, and says nothing that the calls one after another do not say.
// Proved: answer, state and every lent list are the definition's in specs/Datagram.antt, on every input.
#![tactic(auto)]

ghost use Rattle.std.specs.Prelude.{◌≡◌};
ghost use Rattle.refusal.specs.Said.{read_says};
ghost use Rattle.ordered_bytes.specs.Buffer.{buffer_now, SameLent};
ghost use Rattle.window.specs.View.{SameLent as SameCells};
ghost use Rattle.receive.specs.Datagram.{acks_in, receiving, receiving_acks};

use ordered_bytes::BufferViewMut;
use packet::Indexed;
use window::WindowViewMut;

mod acks;
mod data;
mod receiver;

// Each data packet listed is accepted as `buffer_in_packet` accepts it. An answer of 5 means: ack its number, count 1 (document 02, §3). The number is read off the header at the index.
#[tactic(auto, unfolding(crate::specs::Datagram::receiving))]
pub fn receive(
    buffer: &mut BufferViewMut<'_>,
    datagram: &[u8],
    index: &mut [u32],
    answers: &mut [u8],
) -> Indexed
    ensures lent { SameLent buffer.old buffer.new }
    ensures state { buffer.new.state ≡ buffer.old.state }
    ensures value { record {
      said = read_says (λ n. n) result.answer;
      cells = result.cells;
      index = index.new;
      answers = answers.new;
      state = buffer_now buffer.new;
    }
        ≡ receiving (buffer_now buffer.old)
        datagram.now index.old answers.old }
{
    receiver::receive_datagram(buffer, datagram, index, answers)
}

// Each ack listed is entered as `insert_range` enters it: its number is the base, its field the count.
#[tactic(auto, unfolding(crate::specs::Datagram::receiving_acks))]
pub fn receive_acks(
    window: &mut WindowViewMut<'_>,
    datagram: &[u8],
    index: &mut [u32],
    answers: &mut [u8],
) -> Indexed
    ensures lent { SameCells window.old window.new }
    ensures reception { record {
      said = read_says (λ n. n) result.answer;
      cells = result.cells;
      index = index.new;
      answers = answers.new;
      state = acks_in window.new;
    }
        ≡ receiving_acks window.old.state window.old.cells.now datagram.now index.old answers.old }
{
    receiver::receive_datagram(window, datagram, index, answers)
}
