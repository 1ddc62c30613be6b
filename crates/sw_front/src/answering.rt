//! Requests answered over any link.

ghost use Rattle.std.specs.Prelude.{◌≡◌, Some, true};
ghost use Rattle.sw_ring.specs.Cluster.{ClusterModel};
ghost use Rattle.sw_message.specs.Running.{StillTells};
ghost use Rattle.sw_request.specs.Body.{IsSound};
ghost use Rattle.sw_request.specs.Refusal.{is_put};
ghost use Rattle.sw_types.specs.Object.{object_of};
ghost use Rattle.sw_request.specs.Metadata.{head_in};
ghost use Rattle.sw_front.specs.Answering.{Answers, DeleteAnswers, GetAnswers, PutAnswers};

use crate::deleting::delete;
use crate::fault::FrontFault;
use crate::getting::get;
use crate::putting::put;
use std::alloc::Global;
use sw_httpwrite::Answer;
use sw_message::{Draw, Link};
use sw_request::{Method, Refusal, Request, refusal_answer};
use sw_response::{delete_answer, get_answer, put_answer, spent_answer};
use sw_ring::Cluster;
use sw_types::{Name, NoMemory, Object};

/// Answers a request without a defect: a put whose ETag is another one than its body's is refused, and nothing is begun; else an
/// operation of its method runs to its end over the link, and that end is answered.
pub fn answer<L: Draw>(
    alloc: Global,
    cluster: &Cluster,
    link: &mut L,
    request: &Request,
) -> Result<Answer, NoMemory>
    requires sound { IsSound request.now }
    requires cluster { (of : ClusterModel) → L.cluster link.old ≡ Some of → cluster.now ≡ of }
    ensures answers { Answers (record { draws = L.draws; calls = L.calls; losses = L.losses; refusals = L.refusals; learnt = L.learnt; may_be_silent = L.may_be_silent }) cluster.now request.now link.old result link.new }
    ensures tells { StillTells (L.may_be_silent link.new) (L.learnt link.old) (L.learnt link.new) }
    ensures silence { L.may_be_silent link.old → L.may_be_silent link.new }
    ensures cluster { L.cluster link.new ≡ L.cluster link.old }
{
    let close = request.asks_to_close();
    if request.has_other_tag() {
        return refusal_answer(alloc, false, close, Refusal::ETagDiffers);
    }
    let name = request.name(alloc)?;
    match request.method() {
        Method::Put => {
            let object = request.object(alloc)?;
            answer_put(alloc, cluster, link, &name, &object, close)
        }
        Method::Get => answer_get(alloc, cluster, link, &name, false, close),
        Method::Head => answer_get(alloc, cluster, link, &name, true, close),
        Method::Delete => answer_delete(alloc, cluster, link, &name, close),
    }
}

// Puts an object, and answers how that ended.
fn answer_put<L: Draw>(
    alloc: Global,
    cluster: &Cluster,
    link: &mut L,
    name: &Name,
    object: &Object,
    close: bool,
) -> Result<Answer, NoMemory>
    requires { (of : ClusterModel) → L.cluster link.old ≡ Some of → cluster.now ≡ of }
    ensures answers { PutAnswers (record { draws = L.draws; calls = L.calls; losses = L.losses; refusals = L.refusals; learnt = L.learnt; may_be_silent = L.may_be_silent }) cluster.now name.now object.now close link.old result link.new }
    ensures tells { StillTells (L.may_be_silent link.new) (L.learnt link.old) (L.learnt link.new) }
    ensures silence { L.may_be_silent link.old → L.may_be_silent link.new }
    ensures cluster { L.cluster link.new ≡ L.cluster link.old }
{
    match put(alloc, cluster, link, name, object) {
        Ok(end) => put_answer(alloc, close, object.body_md5(), &end),
        Err(FrontFault::StampsSpent) => spent_answer(alloc, close),
        Err(FrontFault::NoMemory) => Err(NoMemory),
    }
}

// Gets an object, and answers how that ended.
fn answer_get<L: Draw>(
    alloc: Global,
    cluster: &Cluster,
    link: &mut L,
    name: &Name,
    to_head: bool,
    close: bool,
) -> Result<Answer, NoMemory>
    requires { (of : ClusterModel) → L.cluster link.old ≡ Some of → cluster.now ≡ of }
    ensures answers { GetAnswers (record { draws = L.draws; calls = L.calls; losses = L.losses; refusals = L.refusals; learnt = L.learnt; may_be_silent = L.may_be_silent }) cluster.now name.now to_head close link.old result link.new }
    ensures tells { StillTells (L.may_be_silent link.new) (L.learnt link.old) (L.learnt link.new) }
    ensures silence { L.may_be_silent link.old → L.may_be_silent link.new }
    ensures cluster { L.cluster link.new ≡ L.cluster link.old }
{
    let end = get(alloc, cluster, link, name)?;
    get_answer(alloc, to_head, close, end)
}

// Deletes an object, and answers how that ended.
fn answer_delete<L: Draw>(
    alloc: Global,
    cluster: &Cluster,
    link: &mut L,
    name: &Name,
    close: bool,
) -> Result<Answer, NoMemory>
    requires { (of : ClusterModel) → L.cluster link.old ≡ Some of → cluster.now ≡ of }
    ensures answers { DeleteAnswers (record { draws = L.draws; calls = L.calls; losses = L.losses; refusals = L.refusals; learnt = L.learnt; may_be_silent = L.may_be_silent }) cluster.now name.now close link.old result link.new }
    ensures tells { StillTells (L.may_be_silent link.new) (L.learnt link.old) (L.learnt link.new) }
    ensures silence { L.may_be_silent link.old → L.may_be_silent link.new }
    ensures cluster { L.cluster link.new ≡ L.cluster link.old }
{
    match delete(alloc, cluster, link, name) {
        Ok(end) => delete_answer(alloc, close, &end),
        Err(FrontFault::StampsSpent) => spent_answer(alloc, close),
        Err(FrontFault::NoMemory) => Err(NoMemory),
    }
}
