//! Operations that run alone over the nodes of a cluster.

ghost use Rattle.std.specs.Prelude.{◌≡◌, List, [], OnOk, false, true};
ghost use Rattle.sw_message.specs.Running.{AreCalls};
ghost use Rattle.sw_message.specs.Transcript.{IsRun, Over, Step};
ghost use Rattle.sw_sim_nodes.specs.Nodes.{Calls, lost_in};

use crate::nodes::Nodes;
use sw_message::{Operation, run_whole};
use sw_types::NoMemory;

/// Runs an operation that has handed out nothing to its end, over all nodes of its cluster, of which some may be down. Want of memory is
/// also that of a node.
pub fn run_alone<P: Operation>(op: &mut P, nodes: &mut Nodes<'_>) -> Result<(), NoMemory>
    requires begun { (begun : P.Begun) × P.stands op.old begun [] × (P.cluster begun ≡ nodes.old.cluster) }
    ensures runs { (begun : P.Begun) → P.stands op.old begun [] → P.cluster begun ≡ nodes.old.cluster → OnOk result ((past : List Step)
        × P.stands op.new begun past × IsRun (P.machine begun) past × P.machine begun past Over × AreCalls Calls lost_in nodes.old past nodes.new) }
    ensures ended { OnOk result (P.has_ended op.new ≡ true) }
    ensures goes_on { OnOk result (nodes.new.is_wanting ≡ false) }
    ensures cluster { nodes.new.cluster ≡ nodes.old.cluster }
    ensures down { nodes.new.down ≡ nodes.old.down }
{
    run_whole(op, nodes)?;
    if nodes.is_wanting() {
        return Err(NoMemory);
    }
    Ok(())
}
