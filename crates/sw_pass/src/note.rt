//! Notes, which carry what one seat knows to another.

ghost use Rattle.std.specs.Prelude.{◌≡◌, ◌<◌, [], MatchResult};
ghost use Rattle.sw_pass.specs.Known.{IsNote, size_of};
ghost use Rattle.sw_pass.specs.Steps.{came_late, claimed};

use crate::known::Known;
use crate::node_seat::NodeSeat;
use crate::rule::{Claim, OfCluster};
use crate::table::StampTable;
use atomic_table::Seat;
use std::marker::{Model, PhantomData};

/// A seat of the table that can't draw: it carries what is known. Contracts see which table it is, and what the seat knows.
#[derive(Drop)]
pub struct Note<C: OfCluster> {
    seat: Seat<(), Known>,
    of: PhantomData<C>,
}

impl<C: OfCluster> Model for Note<C> {
    ghost use Rattle.std.specs.Prelude.{◌≡◌, []};
    ghost use Rattle.sw_pass.specs.Known.{Held, IsNote};

    ghost Value = { Held };

    ghost view = { λ p. record { table = p.seat.table_id; known = p.seat.me.0 } };

    ghost invariant = { λ p. (p.seat.me.1 ≡ []) × IsNote p.seat.me.0 };
}

impl<C: OfCluster> Note<C> {
    pub(crate) fn of(seat: Seat<(), Known>) -> Note<C>
        requires { (seat.me.1 ≡ []) × IsNote seat.me.0 }
        ensures { (result.table ≡ seat.table_id) × (result.known ≡ seat.me.0) }
    {
        Note {
            seat,
            of: PhantomData,
        }
    }

    pub(crate) fn into_seat(self) -> Seat<(), Known>
        ensures { (result.table_id ≡ self.table) × (result.me ≡ (self.known, [])) × IsNote self.known }
    {
        self.seat
    }

    /// Becomes the seat of the node at a slot, whose history then begins with a mount. It comes back where the slot was claimed before.
    pub fn claim(self, table: &StampTable<C>, position: u16) -> Result<NodeSeat<C>, Note<C>>
        requires table { self.table ≡ table.now }
        requires inside { position < size_of C.cluster }
        ensures { MatchResult result
            (λ node. (node.table ≡ self.table) × (node.slot ≡ position) × (node.known ≡ claimed position self.known))
            (λ note. (note.table ≡ self.table) × (note.known ≡ came_late position self.known)) }
    {
        let mut seat = self.into_seat();
        let word = position as usize + 1;
        let _devices = table.devices;
        let found = table
            .table
            .shared
            .compare_exchange::<Claim>(&mut seat, word, 0, 1);
        if found == 0 {
            Ok(NodeSeat::of(seat, position))
        } else {
            Err(Note::of(seat))
        }
    }
}
