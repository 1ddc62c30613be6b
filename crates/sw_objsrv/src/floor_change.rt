//! The floor that a table has for a place, while the place's folder is changed.

ghost use Rattle.std.specs.Prelude.{◌≡◌, OnErr, OnOk};
ghost use Rattle.sw_hashpath.specs.Place.{IsPlace};
ghost use Rattle.sw_suffix.specs.Table.{floor_at};
ghost use Rattle.sw_objsrv.specs.Changing.{IsReserved};
ghost use Rattle.sw_objsrv.specs.Folder.{HaveSameOtherFloors};

use sw_disk::DiskRefusal;
use sw_hashdir::Floor;
use sw_hashpath::Place;
use sw_suffix::SuffixTable;
use sw_types::NoMemory;

/// The floor of a place before a change of its folder, and the one after.
#[derive(Clone, Copy, Debug)]
pub(crate) struct FloorChange {
    pub(crate) before: Option<Floor>,
    pub(crate) after: Option<Floor>,
}

impl FloorChange {
    /// Takes the memory of the change, which only a place needs that has no floor yet.
    pub(crate) fn reserve(&self, floors: &mut SuffixTable, place: &Place) -> Result<(), NoMemory>
        requires place { IsPlace floors.old.power place.now }
        requires before { self.now.before ≡ floor_at place.now floors.old.floors }
        ensures reserved { OnOk result (IsReserved place.now self.now floors.new.floors) }
        ensures refused { OnErr result (floors.new ≡ floors.old) }
        ensures others { HaveSameOtherFloors place.now floors.new.floors floors.old.floors }
        ensures power { floors.new.power ≡ floors.old.power }
    {
        if self.before.is_none() {
            floors.set(*place, self.after)?;
        }
        Ok(())
    }

    /// Gives the place its floor: the one after where the change was made, else the one before. It takes no memory.
    pub(crate) fn settle(
        &self,
        floors: &mut SuffixTable,
        place: &Place,
        change: &Result<(), DiskRefusal>,
    )
        requires place { IsPlace floors.old.power place.now }
        requires reserved { IsReserved place.now self.now floors.old.floors }
        ensures made { OnOk change.now (floor_at place.now floors.new.floors ≡ self.now.after) }
        ensures unmade { OnErr change.now (floor_at place.now floors.new.floors ≡ self.now.before) }
        ensures others { HaveSameOtherFloors place.now floors.new.floors floors.old.floors }
        ensures power { floors.new.power ≡ floors.old.power }
    {
        let floor = if change.is_ok() {
            self.after
        } else {
            self.before
        };
        let _set = floors.set(*place, floor);
    }
}
