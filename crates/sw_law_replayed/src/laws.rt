//! The law of what a node's disk holds, as the contract of a function without arguments.

ghost use Rattle.sw_law_replayed.specs.Keeping.{BeginsReplayed, KeepsHandled, KeepsRemounted};

use sw_disk::Disk;

/// What a node's disk holds, where it tells, is what the history of its device replays to, and while a mount is due one of the sides of
/// that, but for what is obsolete. So it stays where the node handles a message, and that or the failure goes into the history; where it
/// mounts its places again, or that is refused; and so it is behind the first mount of an empty disk, and behind that of one that takes the
/// place of another.
pub fn replayed_law<D: Disk>()
    ensures handled { KeepsHandled D.seen D.left_since }
    ensures remounted { KeepsRemounted D.seen D.left_since }
    ensures begins { BeginsReplayed D.seen D.left_since }
{}
