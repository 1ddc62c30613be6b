//! What comes next on a connection is served.

ghost use Rattle.std.specs.Prelude.{◌≡◌, Some, None, false};
ghost use Rattle.sw_message.specs.Running.{StillTells};
ghost use Rattle.sw_ring.specs.Cluster.{ClusterModel};
ghost use Rattle.sw_request.specs.Body.{IsSound};
ghost use Rattle.sw_request.specs.Refusal.{head_refusal};
ghost use Rattle.sw_front.specs.Answering.{Answers};
ghost use Rattle.sw_serve.specs.Serving.{closing_at};
ghost use Rattle.sw_serve.specs.Turns.{CountsTurn, TakesBody, TakesHead, TakesRequest, TakesTurn};

use crate::end::ConnEnd;
use crate::sending::{give_leave, refuse, send, want};
use std::alloc::Global;
use sw_front::answer;
use sw_httpread::{BodyNext, Carry, Framing, HeadNext, RequestHead, next_head, read_body};
use sw_httpwrite::Answer;
use sw_io::Conn;
use sw_message::{Draw, Link};
use sw_request::{BadInput, Request, Verdict, is_head, judge};
use sw_ring::Cluster;

/// How many requests are answered on a connection.
pub(crate) const GREATEST_ANSWERS: u32 = 1000;

/// What came of one turn.
#[derive(Clone, Copy, Debug, PartialEq, Eq)]
pub enum Turn {
    /// What came next was answered; whether the answer says that the connection is closed.
    Answered { closes: bool },
    /// The connection is over.
    Over(ConnEnd),
}

/// Serves what comes next, of which the answer is the number-th.
pub(crate) fn serve_next<N: Conn, L: Draw>(
    alloc: Global,
    conn: &mut N,
    cluster: &Cluster,
    link: &mut L,
    carry: &mut Carry,
    number: u32,
) -> Turn
    requires cluster { (of : ClusterModel) → L.cluster link.old ≡ Some of → cluster.now ≡ of }
    requires not_closed { N.closed conn.old ≡ false }
    ensures takes { TakesTurn (Answers (record { draws = L.draws; calls = L.calls; losses = L.losses; refusals = L.refusals; learnt = L.learnt; may_be_silent = L.may_be_silent }) cluster.now) number (N.remaining conn.old) (N.remaining conn.new) (N.written conn.old) (N.written conn.new) (N.faults conn.old) (N.faults conn.new) carry.old carry.new link.old link.new result }
    ensures counts { CountsTurn result (N.faults conn.old) (N.faults conn.new) }
    ensures closed { N.closed conn.new ≡ N.closed conn.old }
    ensures tells { StillTells (L.may_be_silent link.new) (L.learnt link.old) (L.learnt link.new) }
    ensures silence { L.may_be_silent link.old → L.may_be_silent link.new }
    ensures cluster { L.cluster link.new ≡ L.cluster link.old }
{
    match next_head(alloc, conn, carry) {
        HeadNext::Head(head) => serve_head(alloc, conn, cluster, link, carry, head, number),
        HeadNext::End => Turn::Over(ConnEnd::Closed),
        HeadNext::Cut => Turn::Over(ConnEnd::Cut),
        HeadNext::BadHead => refuse(alloc, conn, false, BadInput::BadHead),
        HeadNext::HeadTooLarge => refuse(alloc, conn, false, BadInput::HeadTooLarge),
        HeadNext::ReadFault => Turn::Over(ConnEnd::ReadFault),
        HeadNext::NoMemory => want(alloc, conn, false),
    }
}

// Serves the request of a head.
fn serve_head<N: Conn, L: Draw>(
    alloc: Global,
    conn: &mut N,
    cluster: &Cluster,
    link: &mut L,
    carry: &mut Carry,
    head: RequestHead,
    number: u32,
) -> Turn
    requires cluster { (of : ClusterModel) → L.cluster link.old ≡ Some of → cluster.now ≡ of }
    requires not_closed { N.closed conn.old ≡ false }
    ensures takes { TakesHead (Answers (record { draws = L.draws; calls = L.calls; losses = L.losses; refusals = L.refusals; learnt = L.learnt; may_be_silent = L.may_be_silent }) cluster.now) number head (N.remaining conn.old) (N.remaining conn.new) (N.written conn.old) (N.written conn.new) (N.faults conn.old) (N.faults conn.new) carry.old carry.new link.old link.new result }
    ensures counts { CountsTurn result (N.faults conn.old) (N.faults conn.new) }
    ensures closed { N.closed conn.new ≡ N.closed conn.old }
    ensures tells { StillTells (L.may_be_silent link.new) (L.learnt link.old) (L.learnt link.new) }
    ensures silence { L.may_be_silent link.old → L.may_be_silent link.new }
    ensures cluster { L.cluster link.new ≡ L.cluster link.old }
{
    match judge(alloc, &head) {
        Ok(Verdict::Refuse(answer)) => send(alloc, conn, is_head(&head), &answer),
        Ok(Verdict::Read { framing, waits }) => match give_leave(conn, waits) {
            Ok(()) => serve_body(alloc, conn, cluster, link, carry, head, framing, number),
            Err(_) => Turn::Over(ConnEnd::WriteFault),
        },
        Err(_) => want(alloc, conn, is_head(&head)),
    }
}

// Serves the request of a head without a defect, whose body is yet to be read.
fn serve_body<N: Conn, L: Draw>(
    alloc: Global,
    conn: &mut N,
    cluster: &Cluster,
    link: &mut L,
    carry: &mut Carry,
    head: RequestHead,
    framing: Framing,
    number: u32,
) -> Turn
    requires cluster { (of : ClusterModel) → L.cluster link.old ≡ Some of → cluster.now ≡ of }
    requires no_defect { head_refusal head ≡ None }
    requires not_closed { N.closed conn.old ≡ false }
    ensures takes { TakesBody (Answers (record { draws = L.draws; calls = L.calls; losses = L.losses; refusals = L.refusals; learnt = L.learnt; may_be_silent = L.may_be_silent }) cluster.now) number head framing (N.remaining conn.old) (N.remaining conn.new) (N.written conn.old) (N.written conn.new) (N.faults conn.old) (N.faults conn.new) carry.old carry.new link.old link.new result }
    ensures counts { CountsTurn result (N.faults conn.old) (N.faults conn.new) }
    ensures closed { N.closed conn.new ≡ N.closed conn.old }
    ensures tells { StillTells (L.may_be_silent link.new) (L.learnt link.old) (L.learnt link.new) }
    ensures silence { L.may_be_silent link.old → L.may_be_silent link.new }
    ensures cluster { L.cluster link.new ≡ L.cluster link.old }
{
    let to_head = is_head(&head);
    match read_body(alloc, conn, carry, framing) {
        BodyNext::Body(body) => {
            let request = Request::new(head, body);
            serve_request(alloc, conn, cluster, link, &request, number)
        }
        BodyNext::Cut => Turn::Over(ConnEnd::Cut),
        BodyNext::BadChunk => refuse(alloc, conn, to_head, BadInput::BadChunk),
        BodyNext::TooLarge => refuse(alloc, conn, to_head, BadInput::TooLarge),
        BodyNext::ReadFault => Turn::Over(ConnEnd::ReadFault),
        BodyNext::NoMemory => want(alloc, conn, to_head),
    }
}

// Serves a whole request.
fn serve_request<N: Conn, L: Draw>(
    alloc: Global,
    conn: &mut N,
    cluster: &Cluster,
    link: &mut L,
    request: &Request,
    number: u32,
) -> Turn
    requires cluster { (of : ClusterModel) → L.cluster link.old ≡ Some of → cluster.now ≡ of }
    requires sound { IsSound request.now }
    requires not_closed { N.closed conn.old ≡ false }
    ensures takes { TakesRequest (Answers (record { draws = L.draws; calls = L.calls; losses = L.losses; refusals = L.refusals; learnt = L.learnt; may_be_silent = L.may_be_silent }) cluster.now) number request.now (N.remaining conn.new) (N.written conn.old) (N.written conn.new) (N.faults conn.old) (N.faults conn.new) link.old link.new result }
    ensures remaining { N.remaining conn.new ≡ N.remaining conn.old }
    ensures counts { CountsTurn result (N.faults conn.old) (N.faults conn.new) }
    ensures closed { N.closed conn.new ≡ N.closed conn.old }
    ensures tells { StillTells (L.may_be_silent link.new) (L.learnt link.old) (L.learnt link.new) }
    ensures silence { L.may_be_silent link.old → L.may_be_silent link.new }
    ensures cluster { L.cluster link.new ≡ L.cluster link.old }
{
    let to_head = is_head(request.head());
    match answer(alloc, cluster, link, request) {
        Ok(answer) => send(alloc, conn, to_head, &closing_at(number, answer)),
        Err(_) => want(alloc, conn, to_head),
    }
}

// The last of the answers of a connection says that it is closed.
fn closing_at(number: u32, answer: Answer) -> Answer
    ensures { result ≡ closing_at number answer }
{
    if number == GREATEST_ANSWERS {
        answer.closing()
    } else {
        answer
    }
}
