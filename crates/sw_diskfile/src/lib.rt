//! Archives and tombstones in the folders of a disk: each change leaves before or after, whenever a crash comes.
#![tactic(auto)]

mod committing;
mod dropping;
mod laws;
mod looking;
mod purging;
mod storing;
mod tidying;

pub use crate::committing::commit;
pub use crate::dropping::drop_entry;
pub use crate::laws::folder_law;
pub use crate::looking::{fetch, look};
pub use crate::purging::{obsolete_texts, purge};
pub use crate::storing::{bury, store};
pub use crate::tidying::tidy;
