//! The job of a step.

ghost use Rattle.std.specs.Prelude.{◌≡◌, IfOk};
ghost use Rattle.sw_lab.specs.Workload.{body_of, job_of, name_of, put_object};

use crate::draw::Draw;
use std::alloc::Global;
use sw_script::{Job, script_head};
use sw_types::{Bytes, Name, NameFault, NoMemory, Object};

/// What a step puts, gets or deletes.
pub(crate) fn job_of(alloc: Global, draw: Draw) -> Result<Job, NoMemory>
    ensures { IfOk result (λ job. job ≡ job_of draw) }
{
    let name = name_of(alloc, draw.name)?;
    match draw.kind % 8 {
        0..=3 => {
            let object = put_object(alloc, draw.body)?;
            Ok(Job::Put { name, object })
        }
        4..=6 => Ok(Job::Get(name)),
        _ => Ok(Job::Delete(name)),
    }
}

/// The name of a step: one of fifty.
pub(crate) fn name_of(alloc: Global, number: u32) -> Result<Name, NoMemory>
    ensures { IfOk result (λ name. name ≡ name_of number) }
{
    let object = format!(in alloc; "obj{}", number % 50)?;
    match Name::make(alloc, b"load", b"box", object.as_bytes()) {
        Ok(name) => Ok(name),
        Err(fault) => Err(only_memory(fault)),
    }
}

// A fault that is want of memory.
fn only_memory(_fault: NameFault) -> NoMemory
    requires { _fault ≡ NameFault.NoMemory }
{
    NoMemory
}

// What a step puts.
fn put_object(alloc: Global, number: u32) -> Result<Object, NoMemory>
    ensures { IfOk result (λ object. object ≡ put_object number) }
{
    let head = script_head(alloc)?;
    let body = body_of(alloc, number)?;
    match Object::make(head, body) {
        Ok(object) => Ok(object),
        Err(_) => unreachable!(),
    }
}

// The bytes that a step puts.
fn body_of(alloc: Global, number: u32) -> Result<Bytes, NoMemory>
    ensures { IfOk result (λ body. body ≡ body_of number) }
{
    let body: Vec<u8> = (0..number % 5_000)
        .map(|index| ((u64::from(number) + u64::from(index)) % 256) as u8)
        .collect(alloc)?;
    Ok(Bytes::from(body))
}
