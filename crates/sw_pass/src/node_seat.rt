//! The seats of nodes, which add the events of their devices.

ghost use Rattle.std.specs.Prelude.{◌≡◌, ◌<◌, [], IsFalse, IsTrue, None, true};
ghost use Rattle.sw_pass.specs.Known.{size_of};
ghost use Rattle.sw_pass.specs.Losses.{IsDue};
ghost use Rattle.sw_pass.specs.Steps.{Knows, MayAdvance, able, advanced, joined, learned, lost_one, noted};
ghost use Rattle.sw_pass.specs.declared.known.Kind.TheVariants as kind;

use crate::happening::Happening;
use crate::known::Known;
use crate::note::Note;
use crate::rule::{Advance, AsNote, Both, Learn, Look, Lose, OfCluster};
use crate::table::StampTable;
use atomic_table::Seat;
use std::marker::{Model, PhantomData};

// So many losses are counted at most, and one more for each node.
const MOST_LOSSES: u64 = 1 << 63;

/// The seat of the node at a slot. Contracts see which table it is, the slot, and what the seat knows.
#[derive(Drop)]
pub struct NodeSeat<C: OfCluster> {
    seat: Seat<(), Known>,
    slot: u16,
    of: PhantomData<C>,
}

impl<C: OfCluster> Model for NodeSeat<C> {
    ghost use Rattle.std.specs.Prelude.{◌≡◌, ◌<◌, []};
    ghost use Rattle.sw_pass.specs.Known.{HeldNode, size_of};
    ghost use Rattle.sw_pass.specs.declared.known.Kind.TheVariants as kind;

    ghost Value = { HeldNode };

    ghost view = { λ p. record { table = p.seat.table_id; slot = p.slot; known = p.seat.me.0 } };

    ghost invariant = { λ p. (p.seat.me.1 ≡ []) × (p.seat.me.0.kind ≡ kind.Node p.slot) × (p.slot < size_of C.cluster) };
}

impl<C: OfCluster> NodeSeat<C> {
    pub(crate) fn of(seat: Seat<(), Known>, slot: u16) -> NodeSeat<C>
        requires { (seat.me.1 ≡ []) × (seat.me.0.kind ≡ kind.Node slot) × (slot < size_of C.cluster) }
        ensures { (result.table ≡ seat.table_id) × (result.slot ≡ slot) × (result.known ≡ seat.me.0) }
    {
        NodeSeat {
            seat,
            slot,
            of: PhantomData,
        }
    }

    /// The slot of its device.
    pub fn position(&self) -> u16
        ensures value { result ≡ self.now.slot }
        ensures inside { result < size_of C.cluster }
    {
        self.slot
    }

    /// Adds an event to the device's history.
    pub fn advance<J: Happening>(&mut self, table: &StampTable<C>)
        requires table { self.old.table ≡ table.now }
        requires due { IsDue J.event self.old.known.owing }
        requires may { MayAdvance C.cluster self.old.slot J.event self.old.known }
        ensures table { (self.new.table ≡ self.old.table) × (self.new.slot ≡ self.old.slot) }
        ensures known { self.new.known ≡ advanced self.old.slot J.event self.old.known }
    {
        let words = &table.table.shared;
        let _devices = table.devices;
        let word = self.slot as usize + 1;
        words.load::<Advance<J>>(&mut self.seat, word);
    }

    /// Whether another loss can be counted: fewer than 2^63 were. Then this seat may draw its number, whatever the others draw.
    pub fn may_lose(&mut self, table: &StampTable<C>) -> bool
        requires table { self.old.table ≡ table.now }
        ensures table { (self.new.table ≡ self.old.table) × (self.new.slot ≡ self.old.slot) }
        ensures able { IsTrue result → self.new.known ≡ able self.old.known }
        ensures same { IsFalse result → self.new ≡ self.old }
    {
        let word = table.devices as usize + 1;
        table.table.shared.load::<Look>(&mut self.seat, word) < MOST_LOSSES
    }

    /// Draws the number of a loss, which the next event has to be of.
    pub fn loss(&mut self, table: &StampTable<C>) -> u64
        requires table { self.old.table ≡ table.now }
        requires able { self.old.known.losing ≡ true }
        requires none { self.old.known.owing ≡ None }
        ensures table { (self.new.table ≡ self.old.table) × (self.new.slot ≡ self.old.slot) }
        ensures known { self.new.known ≡ lost_one result self.old.known }
    {
        let word = table.devices as usize + 1;
        table
            .table
            .shared
            .fetch_add::<Lose>(&mut self.seat, word, 1)
    }

    /// A note of what it knows.
    pub fn note(&mut self, table: &StampTable<C>) -> Note<C>
        requires table { self.old.table ≡ table.now }
        ensures same { self.new ≡ self.old }
        ensures table { result.table ≡ self.old.table }
        ensures known { result.known ≡ noted self.old.known }
    {
        Note::of(table.table.shared.split_seat::<AsNote>(&mut self.seat))
    }

    /// Takes in what a note knows.
    pub fn join(&mut self, table: &StampTable<C>, note: Note<C>)
        requires table { (self.old.table ≡ table.now) × (note.table ≡ table.now) }
        ensures table { (self.new.table ≡ self.old.table) × (self.new.slot ≡ self.old.slot) }
        ensures node { self.old.known.kind ≡ kind.Node self.old.slot }
        ensures known { self.new.known ≡ learned (joined self.old.known note.known) }
        ensures learnt { Knows C.cluster (joined self.old.known note.known) }
    {
        table
            .table
            .shared
            .join_seat::<Both>(&mut self.seat, note.into_seat());
        table.table.shared.load::<Learn<C>>(&mut self.seat, 0);
    }
}
