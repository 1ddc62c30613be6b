//! Calls that go on until they are set to fail.

ghost use Rattle.std.specs.Prelude.{◌≡◌, ◌≢◌, ◌↔◌, ◌≤◌, if◌then◌else◌, IsTrue};
ghost use Rattle.sw_words.specs.Counts.{one_more};
ghost use Rattle.sw_io.specs.Memory.{one_fewer};

/// Lets so many calls go on, and counts those that fail.
#[derive(Debug, Drop)]
pub(crate) struct Fuse {
    pub(crate) calls_left: Option<u64>,
    pub(crate) faults: u64,
}

impl Fuse {
    /// A fuse that lets every call go on.
    pub(crate) fn new() -> Self
        ensures { result ≡ record { calls_left = None; faults = 0 } }
    {
        Fuse {
            calls_left: None,
            faults: 0,
        }
    }

    /// Takes one call off, and tells whether it may go on. Where it may not, that is a fault.
    pub(crate) fn passes(&mut self) -> bool
        ensures passes { IsTrue result ↔ (self.old.calls_left ≢ Some 0) }
        ensures calls { self.new.calls_left ≡ one_fewer self.old.calls_left }
        ensures faults { self.new.faults ≡ (if result then self.old.faults else one_more self.old.faults) }
        ensures never_falls { self.old.faults ≤ self.new.faults }
    {
        match self.calls_left {
            None => true,
            Some(0) => {
                self.fail();
                false
            }
            Some(calls) => {
                self.calls_left = Some(calls - 1);
                true
            }
        }
    }

    /// Counts a call that fails for another reason.
    pub(crate) fn fail(&mut self)
        ensures calls { self.new.calls_left ≡ self.old.calls_left }
        ensures faults { self.new.faults ≡ one_more self.old.faults }
        ensures never_falls { self.old.faults ≤ self.new.faults }
    {
        self.faults = self.faults.saturating_add(1);
    }
}
