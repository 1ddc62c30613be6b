//! What a revert does next about an entry.

ghost use Rattle.std.specs.Prelude.{◌≡◌};
ghost use Rattle.sw_recon.specs.Revert.{is_own, message_for};
ghost use Rattle.sw_recon.specs.Standing.{handed_treatment};

use std::alloc::Global;
use std::mem::replace;
use sw_archive::ArchiveBytes;
use sw_hashdir::Entry;
use sw_hashpath::Place;
use sw_message::Msg;
use sw_types::Bytes;

/// What a revert does next about an entry.
#[derive(Debug, Drop)]
pub enum Treatment {
    /// It asks the primary of the index what it has.
    Ask,
    /// It fetches the archive from its own device,
    Fetch,
    /// has the primary store it, until the bytes were handed out,
    Store(ArchiveBytes),
    /// has the primary make it durable,
    Commit,
    /// and has its own device remove it.
    Remove,
}

impl Treatment {
    /// Whether its message goes to the own device, and not to the primary of the index.
    pub(crate) fn is_own(&self) -> bool
        ensures { result ≡ is_own self.now }
    {
        match self {
            Treatment::Fetch | Treatment::Remove => true,
            _ => false,
        }
    }

    /// Its message about an entry. Bytes go out with it.
    pub(crate) fn message(&mut self, alloc: Global, place: Place, entry: Entry) -> Msg
        ensures message { result ≡ message_for place entry self.old }
        ensures handed { self.new ≡ handed_treatment self.old }
    {
        let Entry { stamp, index, .. } = entry;
        match self {
            Treatment::Ask => Msg::Ask { place },
            Treatment::Fetch => Msg::Fetch {
                place,
                stamp,
                index,
            },
            Treatment::Store(bytes) => Msg::PutFrag {
                place,
                stamp,
                index,
                bytes: replace(bytes, ArchiveBytes::new(Bytes::new(alloc))),
            },
            Treatment::Commit => Msg::Commit {
                place,
                stamp,
                index,
            },
            Treatment::Remove => Msg::Remove {
                place,
                stamp,
                index,
            },
        }
    }
}
