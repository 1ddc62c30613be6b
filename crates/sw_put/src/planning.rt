//! Where fragments and commits have to go.

ghost use Rattle.std.specs.Prelude.{◌≡◌, ◌≤◌, [], IfOk, length, vec_capacity};
ghost use Rattle.sw_put.specs.Plans.{planned, replacement, told_misses};

use std::alloc::Global;
use sw_message::{Miss, Target, sort_targets};
use sw_quorum::Tally;
use sw_types::{Items, NoMemory};

/// Where the fragment of a miss goes: to a handoff, while there is one.
pub(crate) fn replacement(missed: Option<(Target, Miss)>, handoff: Option<u16>) -> Option<Target>
    ensures { result ≡ replacement missed handoff }
{
    let (target, _) = missed?;
    let (index, device) = (target.index, handoff?);
    Some(Target { index, device })
}

/// Fills in where commits have to go, once each of so many fragments was answered and so many are stored, and no floor
/// forbids it. It takes no memory.
pub(crate) fn plan_commits(
    stores: &Tally<Target>,
    count: usize,
    enough: u32,
    commits_due: &mut Vec<Target>,
)
    requires empty { commits_due.old.items ≡ [] }
    requires room { length stores.now.counts.done ≤ vec_capacity commits_due.old }
    ensures planned { commits_due.new.items ≡ planned stores.now.counts count enough }
    ensures room { vec_capacity commits_due.new ≡ vec_capacity commits_due.old }
{
    let done = stores.done();
    if stores.answered() < count || stores.floor().is_some() || done.len() < enough as usize {
        return;
    }
    for target in done {
        commits_due.push_reserved(*target);
    }
    sort_targets(commits_due);
}

/// What was missed, by device.
pub(crate) fn told_misses(
    alloc: Global,
    missed: &[(Target, Miss)],
) -> Result<Items<(u16, Miss)>, NoMemory>
    ensures { IfOk result (λ misses. misses ≡ told_misses missed.now) }
{
    let mut misses = Vec::new(alloc);
    for one in missed {
        misses.push((one.0.device, one.1))?;
    }
    Ok(Items::from(misses))
}
