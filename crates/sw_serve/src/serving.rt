//! Connections are served.

ghost use Rattle.std.specs.Prelude.{◌≡◌, Some, true, false};
ghost use Rattle.sw_message.specs.Running.{StillTells};
ghost use Rattle.sw_ring.specs.Cluster.{ClusterModel};
ghost use Rattle.sw_front.specs.Answering.{Answers};
ghost use Rattle.sw_serve.specs.Ends.{CountsEnd};
ghost use Rattle.sw_serve.specs.Serving.{Serves};

use crate::end::ConnEnd;
use crate::turn::{GREATEST_ANSWERS, Turn, serve_next};
use std::alloc::Global;
use sw_httpread::Carry;
use sw_io::Conn;
use sw_message::{Draw, Link};
use sw_ring::Cluster;

/// Serves a connection: its requests are read and answered one behind the other, at most a thousand, and it is closed.
pub fn serve_over<N: Conn, L: Draw>(
    alloc: Global,
    conn: &mut N,
    cluster: &Cluster,
    link: &mut L,
) -> ConnEnd
    requires cluster { (of : ClusterModel) → L.cluster link.old ≡ Some of → cluster.now ≡ of }
    requires not_closed { N.closed conn.old ≡ false }
    ensures serves { Serves (Answers (record { draws = L.draws; calls = L.calls; losses = L.losses; refusals = L.refusals; learnt = L.learnt; may_be_silent = L.may_be_silent }) cluster.now) (N.remaining conn.old) (N.remaining conn.new) (N.written conn.old) (N.written conn.new) (N.faults conn.old) (N.faults conn.new) link.old result link.new }
    ensures counts { CountsEnd result (N.faults conn.old) (N.faults conn.new) }
    ensures closed { N.closed conn.new ≡ true }
    ensures tells { StillTells (L.may_be_silent link.new) (L.learnt link.old) (L.learnt link.new) }
    ensures silence { L.may_be_silent link.old → L.may_be_silent link.new }
    ensures cluster { L.cluster link.new ≡ L.cluster link.old }
{
    let end = serve_all(alloc, conn, cluster, link);
    conn.close();
    end
}

// Serves what comes, up to the end.
fn serve_all<N: Conn, L: Draw>(
    alloc: Global,
    conn: &mut N,
    cluster: &Cluster,
    link: &mut L,
) -> ConnEnd
    requires cluster { (of : ClusterModel) → L.cluster link.old ≡ Some of → cluster.now ≡ of }
    requires not_closed { N.closed conn.old ≡ false }
    ensures serves { Serves (Answers (record { draws = L.draws; calls = L.calls; losses = L.losses; refusals = L.refusals; learnt = L.learnt; may_be_silent = L.may_be_silent }) cluster.now) (N.remaining conn.old) (N.remaining conn.new) (N.written conn.old) (N.written conn.new) (N.faults conn.old) (N.faults conn.new) link.old result link.new }
    ensures counts { CountsEnd result (N.faults conn.old) (N.faults conn.new) }
    ensures closed { N.closed conn.new ≡ N.closed conn.old }
    ensures tells { StillTells (L.may_be_silent link.new) (L.learnt link.old) (L.learnt link.new) }
    ensures silence { L.may_be_silent link.old → L.may_be_silent link.new }
    ensures cluster { L.cluster link.new ≡ L.cluster link.old }
{
    let mut carry = Carry::new(alloc);
    for answered in 0..GREATEST_ANSWERS {
        match serve_next(alloc, conn, cluster, link, &mut carry, answered + 1) {
            Turn::Answered { closes: false } => {}
            Turn::Answered { closes: true } => return ConnEnd::Closed,
            Turn::Over(end) => return end,
        }
    }
    // The last answer of a connection closes it.
    unreachable!()
}
