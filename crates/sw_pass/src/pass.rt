//! Passes, which draw stamps.

ghost use Rattle.std.specs.Prelude.{◌≡◌, ◌≤◌, ◌<◌, ℕ, IfOk, IfSome, None, OnErr, [], option_copied};
ghost use Rattle.sw_types.specs.Name.{name_fault};
ghost use Rattle.sw_types.specs.Object.{IsObject};
ghost use Rattle.sw_pass.specs.Known.{IsPass, history};
ghost use Rattle.sw_pass.specs.Losses.{LossesBelow};
ghost use Rattle.sw_pass.specs.Steps.{IsFresh, Knows, MayDraw, Refused, drew, joined, learned, marked, noted, parted, passed, raised};

use crate::happening::{Cause, Share};
use crate::known::Known;
use crate::note::Note;
use crate::rule::{AsNote, AsPass, Both, Learn, OfCluster, Raise, Read, Take};
use crate::table::StampTable;
use atomic_table::Seat;
use std::marker::{Brand, Model, PhantomData};
use sw_message::DrawFault;
use sw_types::{Name, Object, Stamp};

/// A seat of the table that draws stamps. Contracts see which table it is, and what the seat knows.
#[derive(Drop)]
pub struct Pass<C: OfCluster> {
    seat: Seat<(), Known>,
    of: PhantomData<C>,
}

impl<C: OfCluster> Model for Pass<C> {
    ghost use Rattle.std.specs.Prelude.{◌≡◌, []};
    ghost use Rattle.sw_pass.specs.Known.{Held, IsPass};

    ghost Value = { Held };

    ghost view = { λ p. record { table = p.seat.table_id; known = p.seat.me.0 } };

    ghost invariant = { λ p. (p.seat.me.1 ≡ []) × IsPass p.seat.me.0 };
}

impl<C: OfCluster> Pass<C> {
    pub(crate) fn of(seat: Seat<(), Known>) -> Pass<C>
        requires { (seat.me.1 ≡ []) × IsPass seat.me.0 }
        ensures { (result.table ≡ seat.table_id) × (result.known ≡ seat.me.0) }
    {
        Pass {
            seat,
            of: PhantomData,
        }
    }

    /// Draws the stamp of a put of this name and object, or of a delete of this name where there is no object: the number of stamps is raised to
    /// the clock, and one is taken. It is no less than the clock, and above each stamp that the pass knew. `StampsSpent` comes where one of these
    /// two steps found that none is left.
    pub fn draw(
        &mut self,
        table: &StampTable<C>,
        clock: Stamp,
        name: &Name,
        object: Option<&Object>,
    ) -> Result<Stamp, DrawFault>
        requires table { self.old.table ≡ table.now }
        requires name { name_fault name.now ≡ None }
        requires object { IfSome (option_copied object) IsObject }
        ensures table { self.new.table ≡ self.old.table }
        ensures drawn { IfOk result (λ stamp. self.new.known ≡ drew stamp name.now (option_copied object.entry) (raised clock self.old.known)) }
        ensures fresh { IfOk result (λ stamp. IsFresh stamp (raised clock self.old.known)) }
        ensures spent { OnErr result (Refused clock self.old.known self.new.known) }
    {
        self.draw_for::<Brand>(table, clock, name, object)
    }

    fn draw_for<J: Cause>(
        &mut self,
        table: &StampTable<C>,
        clock: Stamp,
        name: &Name,
        object: Option<&Object>,
    ) -> Result<Stamp, DrawFault>
        requires table { self.old.table ≡ table.now }
        requires name { name.now ≡ J.name }
        requires object { option_copied object ≡ J.object }
        requires may { MayDraw J.name J.object }
        ensures table { self.new.table ≡ self.old.table }
        ensures drawn { IfOk result (λ stamp. self.new.known ≡ drew stamp J.name J.object (raised clock self.old.known)) }
        ensures fresh { IfOk result (λ stamp. IsFresh stamp (raised clock self.old.known)) }
        ensures spent { OnErr result (Refused clock self.old.known self.new.known) }
    {
        let words = &table.table.shared;
        let found = words.fetch_max::<Raise>(&mut self.seat, 0, clock.units());
        if found > Stamp::GREATEST_UNITS {
            return Err(DrawFault::StampsSpent);
        }
        let drawn = words.fetch_add::<Take<J>>(&mut self.seat, 0, 1);
        Stamp::make(drawn).ok_or(DrawFault::StampsSpent)
    }

    /// How many losses were counted so far, no fewer than it found before; the number of each loss that it knows of is lower.
    pub fn loss_mark(&mut self, table: &StampTable<C>) -> u64
        requires table { self.old.table ≡ table.now }
        ensures table { self.new.table ≡ self.old.table }
        ensures known { self.new.known ≡ marked result self.old.known }
        ensures rises { self.old.known.mark ≤ result }
        ensures above { (slot : ℕ) → LossesBelow result (history self.old.known.histories slot) }
    {
        let word = table.devices as usize + 1;
        table.table.shared.load::<Read>(&mut self.seat, word)
    }

    /// A second pass that knows what this one does, and may itself be split into so many; this one into so many fewer.
    pub fn split(&mut self, table: &StampTable<C>, passes: u16) -> Pass<C>
        requires table { self.old.table ≡ table.now }
        requires passes { (1 ≤ passes) × (passes < self.old.known.passes) }
        ensures rest { self.new ≡ record { table = self.old.table; known = parted passes self.old.known } }
        ensures table { result.table ≡ self.old.table }
        ensures known { result.known ≡ passed passes self.old.known }
    {
        self.split_for::<Brand>(table, passes)
    }

    fn split_for<J: Share>(&mut self, table: &StampTable<C>, passes: u16) -> Pass<C>
        requires table { self.old.table ≡ table.now }
        requires share { J.passes ≡ passes }
        requires passes { (1 ≤ passes) × (passes < self.old.known.passes) }
        ensures rest { self.new ≡ record { table = self.old.table; known = parted passes self.old.known } }
        ensures table { result.table ≡ self.old.table }
        ensures known { result.known ≡ passed passes self.old.known }
    {
        Pass::of(table.table.shared.split_seat::<AsPass<J>>(&mut self.seat))
    }

    /// A note of what it knows.
    pub fn note(&mut self, table: &StampTable<C>) -> Note<C>
        requires table { self.old.table ≡ table.now }
        ensures same { self.new ≡ self.old }
        ensures table { result.table ≡ self.old.table }
        ensures known { result.known ≡ noted self.old.known }
    {
        Note::of(table.table.shared.split_seat::<AsNote>(&mut self.seat))
    }

    /// Takes in what a note knows.
    pub fn join(&mut self, table: &StampTable<C>, note: Note<C>)
        requires table { (self.old.table ≡ table.now) × (note.table ≡ table.now) }
        ensures table { self.new.table ≡ self.old.table }
        ensures known { self.new.known ≡ learned (joined self.old.known note.known) }
        ensures learnt { Knows C.cluster (joined self.old.known note.known) }
    {
        table
            .table
            .shared
            .join_seat::<Both>(&mut self.seat, note.into_seat());
        table.table.shared.load::<Learn<C>>(&mut self.seat, 0);
    }

    /// Learns that what it knows is sound.
    pub fn learn(&mut self, table: &StampTable<C>)
        requires table { self.old.table ≡ table.now }
        ensures table { self.new.table ≡ self.old.table }
        ensures known { self.new.known ≡ learned self.old.known }
        ensures learnt { Knows C.cluster self.old.known }
    {
        table.table.shared.load::<Learn<C>>(&mut self.seat, 0);
    }
}
