//! Where fragments go.

ghost use Rattle.std.specs.Prelude.{◌≡◌};
ghost use Rattle.sw_message.specs.Targets.{ascending};

/// An index, and a device that keeps its fragments.
#[derive(Clone, Copy, Debug, PartialEq, Eq)]
pub struct Target {
    pub index: u32,
    pub device: u16,
}

/// Puts targets in order: ascending by index, and those of one index by device. It takes no memory.
pub fn sort_targets(targets: &mut [Target])
    ensures { targets.new ≡ ascending targets.old }
{
    targets.sort_unstable_by_key(|target| (target.index, target.device));
}
