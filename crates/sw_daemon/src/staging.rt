//! The stages of tasks.

ghost use Rattle.std.specs.Prelude.{◌≡◌, [], IfOk, false};
ghost use Rattle.sw_message.specs.Message.{IsMember, is_primary};
ghost use Rattle.sw_daemon.specs.Coursing.{IsOfHash, IsSoundTask, IsTask, is_over};
ghost use Rattle.sw_daemon.specs.Pass.{Task as ATask, stage_of, treats};
ghost use Rattle.sw_daemon.specs.Staging.{Stands};

use crate::question::Question;
use crate::stage::Stage;
use crate::survey::Survey;
use crate::task::Task;
use std::alloc::Global;
use sw_hashpath::Place;
use sw_recon::RevertJob;
use sw_ring::Cluster;
use sw_sync::SyncJob;
use sw_types::NoMemory;

/// The stage of a task of a pass, which has handed out nothing.
pub(crate) fn stage_of<'a>(
    alloc: Global,
    cluster: &'a Cluster,
    device: u16,
    task: &Task,
) -> Result<Stage<'a>, NoMemory>
    requires member { IsMember cluster.now device }
    requires sound { IsSoundTask cluster.now task.now }
    requires going { is_over task.now ≡ false }
    ensures { (of : ATask) → IsTask task.now of → IfOk result (λ stage. Stands stage (stage_of (record { cluster = cluster.now; device = device }) of) []) }
{
    let question = match task {
        Task::ListParts => Question::new(device, Survey::Parts),
        Task::ListPlaces { part } => Question::new(device, Survey::Places { part: *part }),
        Task::ListOwn { part } => Question::new(device, Survey::Suffixes { part: *part }),
        Task::ListOther(comparing) => {
            let part = comparing.part;
            Question::new(comparing.device, Survey::Suffixes { part })
        }
        Task::Treat { place } => return treatment_of(alloc, cluster, device, *place),
        Task::Over => unreachable!(),
    };
    Ok(Stage::Asks(question))
}

// A sync of a place by one of its primaries, or else a revert.
fn treatment_of<'a>(
    alloc: Global,
    cluster: &'a Cluster,
    device: u16,
    place: Place,
) -> Result<Stage<'a>, NoMemory>
    requires member { IsMember cluster.now device }
    requires right { IsOfHash cluster.now.part_power place }
    ensures { IfOk result (λ stage. Stands stage (treats (record { cluster = cluster.now; device = device }) place (is_primary cluster.now device place)) []) }
{
    prove!(cluster.part_power() <= Cluster::GREATEST_PART_POWER);
    if cluster.is_primary(place.part(), device) {
        Ok(Stage::Syncs(SyncJob::begin(alloc, cluster, device, place)?))
    } else {
        Ok(Stage::Reverts(RevertJob::begin(alloc, cluster, device, place)))
    }
}
