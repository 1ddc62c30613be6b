//! What a put has to hand out.

ghost use Rattle.std.specs.Prelude.{◌≡◌};
ghost use Rattle.sw_put.specs.Plans.{device_in};

use sw_message::Target;

/// What a put has to hand out: an archive to be stored, or to be made durable, at a device.
#[derive(Clone, Copy, Debug, PartialEq, Eq)]
pub(crate) enum Errand {
    StoreAt(Target),
    CommitAt(Target),
}

impl Errand {
    /// The device.
    pub(crate) fn device(self) -> u16
        ensures { result ≡ device_in self }
    {
        match self {
            Errand::StoreAt(target) | Errand::CommitAt(target) => target.device,
        }
    }
}
