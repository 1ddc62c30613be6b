//! How operations ended.

use sw_delete::DeleteEnd;
use sw_get::GetEnd;
use sw_put::PutEnd;
use sw_recon::RevertEnd;
use sw_sync::SyncEnd;

/// How an operation ended. A head is a get of which only the length and the MD5 are told.
#[derive(Debug, Drop)]
pub enum OpEnd {
    Put(PutEnd),
    Get(GetEnd),
    Head(GetEnd),
    Delete(DeleteEnd),
    Sync(SyncEnd),
    Revert(RevertEnd),
}
