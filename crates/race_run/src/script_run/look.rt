//! Lookups by a worker that is alone at its tables.

ghost use Rattle.std.specs.Prelude.{◌≡◌};
ghost use Rattle.race_run.specs.Looks as spec;
ghost use Rattle.race_run.specs.Looks.{Finds, IsTold, Looked};
ghost use Rattle.race_run.specs.Sole.{IsSole, tables_of};

use chain_book::PacketAnswer;
use demux::{Lookups, look_packet};
use null_reader::Still;
use sock_card::{Card, Packet, pack};
use sock_ops::{Tables, Worker};

/// The card of an answer, if it found one.
fn card_of(answer: PacketAnswer) -> Option<Card>
    ensures card { result ≡ spec.card_of answer }
    ensures told { IsTold answer }
{
    match answer {
        PacketAnswer::Found(card) => {
            let _words = pack(&card);
            Some(card)
        }
        PacketAnswer::None | PacketAnswer::Again(..) => None,
    }
}

/// The card that a packet finds. One pass through each chain is enough, since nobody changes it meanwhile.
pub(crate) fn look(tables: &Tables, worker: &mut Worker, packet: &Packet) -> Option<Card>
    requires sole { IsSole tables.now worker.old }
    ensures sole { IsSole tables.now worker.new }
    ensures looked { Looked tables.now worker.old worker.new }
    ensures found { Finds (tables_of tables.now worker.old) packet.now result }
{
    // As the clock is loaded the pass learns that its own changes are all there are, and which of them ends which.
    tables.chains.now(&mut worker.chain);
    tables.chains.chains.slots_are_few();
    let lookups = Lookups {
        chains: &tables.chains.chains,
        groups: &tables.groups,
        layout: tables.chains.layout,
    };
    let look = look_packet(
        &lookups,
        &mut worker.chain.pass.steps,
        &mut worker.groups,
        packet,
        1,
        &mut Still,
    );
    card_of(look.end)
}
