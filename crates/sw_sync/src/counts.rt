//! What the answers to writes add to counts and failures.

ghost use Rattle.std.specs.Prelude.{◌≡◌, ◌++◌, OnOk, OnErr};
ghost use Rattle.sw_sync.specs.Sync.{counted, failed_by};

use crate::sync_end::Failure;
use sw_quorum::Verdict;
use sw_types::NoMemory;

/// A count after an answer. It stands still at its type's last value.
pub(crate) fn counted(count: u32, verdict: &Verdict) -> u32
    ensures { result ≡ counted count verdict.now }
{
    match verdict {
        Verdict::Done => count.saturating_add(1),
        _ => count,
    }
}

/// Adds what a device did not do.
pub(crate) fn push_failed(
    failed: &mut Vec<Failure>,
    device: u16,
    verdict: &Verdict,
) -> Result<(), NoMemory>
    ensures ok { OnOk result (failed.new.items ≡ failed.old.items ++ failed_by device verdict.now) }
    ensures refused { OnErr result (failed.new.items ≡ failed.old.items) }
{
    match *verdict {
        Verdict::Done => {}
        Verdict::Forbidden(floor) => failed.push(Failure::Superseded { device, floor })?,
        Verdict::Missed(miss) => failed.push(Failure::Missed { device, miss })?,
    }
    Ok(())
}
