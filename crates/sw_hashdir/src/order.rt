//! The order in which a directory keeps its names, for binary search.

ghost use Rattle.std.specs.Prelude.{◌≡◌, ◌↔◌, Contains, IsTrue};
ghost use Rattle.sw_hashpath.specs.declared.file_name.FileName.{FileName as AFileName};
ghost use Rattle.sw_hashdir.specs.Order.{Ascend, name_key};

use sw_hashpath::FileName;

// What names ascend by: the stamp, then the tombstone before entries, the index, and the plain name before the durable one.
fn key_of(name: &FileName) -> (u64, Option<(u32, bool)>)
    ensures { result ≡ name_key name.now }
{
    match *name {
        FileName::Data {
            stamp,
            index,
            durable,
        } => (stamp.units(), Some((index, durable))),
        FileName::Tombstone { stamp } => (stamp.units(), None),
    }
}

/// Puts names in their order, each once. It takes no memory.
pub(crate) fn put_in_order(names: &mut Vec<FileName>)
    ensures same { (name : AFileName) → Contains names.new.items name ↔ Contains names.old.items name }
    ensures ascend { Ascend names.new.items }
{
    names.sort_unstable_by_key(|name| key_of(name));
    names.dedup();
}

/// Whether a name is among names in their order. It takes no memory.
pub(crate) fn has(names: &[FileName], name: &FileName) -> bool
    requires { Ascend names.now }
    ensures { IsTrue result ↔ Contains names.now name.now }
{
    names
        .binary_search_by_key(&key_of(name), |other| key_of(other))
        .is_ok()
}
