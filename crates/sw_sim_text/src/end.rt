//! The lines of how operations ended.

ghost use Rattle.std.specs.Prelude.{◌≡◌, ◌++◌, [], IfOk, OnOk, string_bytes};
ghost use Rattle.sw_sim_text.specs.Text.{delete_text, devices_of, end_line, end_text, get_text, head_text, indices_of, numbers_text, put_text, revert_text, sync_text};

use crate::devices::devices_of;
use crate::lines::Line;
use crate::numbers::join_numbers;
use std::alloc::Global;
use sw_delete::DeleteEnd;
use sw_get::GetEnd;
use sw_message::{Miss, Target};
use sw_operation::OpEnd;
use sw_put::PutEnd;
use sw_recon::RevertEnd;
use sw_sim_exchange::EndLine;
use sw_sync::SyncEnd;
use sw_types::{Bytes, NoMemory, Object, Stamp, print_hex};

impl Line for EndLine {
    ghost text = { end_line };

    fn line(&self, alloc: Global) -> Result<Bytes, NoMemory> {
        let operation = self.operation;
        let front = format!(in alloc; "e {operation} ")?;
        let mut line = Bytes::from(front.into_bytes());
        add_end(&mut line, alloc, &self.end)?;
        line.extend_from_slice(b"\n")?;
        Ok(line)
    }
}

// Adds an end to a line.
fn add_end(line: &mut Bytes, alloc: Global, end: &OpEnd) -> Result<(), NoMemory>
    ensures { OnOk result (line.new ≡ line.old ++ end_text end.now) }
{
    match end {
        OpEnd::Put(end) => add_put(line, alloc, end),
        OpEnd::Get(end) => add_get(line, alloc, end),
        OpEnd::Head(end) => add_head(line, alloc, end),
        OpEnd::Delete(end) => add_delete(line, alloc, end),
        OpEnd::Sync(end) => add_sync(line, alloc, end),
        OpEnd::Revert(end) => add_revert(line, alloc, end),
    }
}

// Adds the end of a put to a line.
fn add_put(line: &mut Bytes, alloc: Global, end: &PutEnd) -> Result<(), NoMemory>
    ensures { OnOk result (line.new ≡ line.old ++ put_text end.now) }
{
    let text = match end {
        PutEnd::Created { stamp, commits } => format!(in alloc; "created {stamp} {commits}")?,
        PutEnd::Superseded { floor } => {
            let stamp = floor.stamp;
            format!(in alloc; "superseded {stamp}")?
        }
        PutEnd::TooFewSynced { have, .. } => format!(in alloc; "too-few-synced {have}")?,
        PutEnd::TooFewCommits { have, .. } => format!(in alloc; "too-few-commits {have}")?,
    };
    line.extend_from_slice(text.as_bytes())
}

// Adds the end of a get to a line.
fn add_get(line: &mut Bytes, alloc: Global, end: &GetEnd) -> Result<(), NoMemory>
    ensures { OnOk result (line.new ≡ line.old ++ get_text end.now) }
{
    match end {
        GetEnd::Found {
            stamp,
            object,
            sources,
        } => add_found(line, alloc, *stamp, object, sources.as_slice()),
        GetEnd::Absent => line.extend_from_slice(b"absent"),
        GetEnd::Buried { stamp } => {
            let text = format!(in alloc; "buried {stamp}")?;
            line.extend_from_slice(text.as_bytes())
        }
        GetEnd::Unanswered { misses } => add_unanswered(line, alloc, misses.as_slice()),
        GetEnd::TooFew { stamp, have } => {
            let text = format!(in alloc; "too-few {stamp} {have}")?;
            line.extend_from_slice(text.as_bytes())
        }
        GetEnd::Overtaken { .. } => line.extend_from_slice(b"overtaken"),
    }
}

// Adds the end of a get that found this object in these archives.
fn add_found(
    line: &mut Bytes,
    alloc: Global,
    stamp: Stamp,
    object: &Object,
    sources: &[Target],
) -> Result<(), NoMemory>
    ensures { OnOk result (line.new ≡ line.old ++ get_text (GetEnd.Found stamp object.now sources.now)) }
{
    let front = format!(in alloc; "found {stamp} ")?;
    line.extend_from_slice(front.as_bytes())?;
    let body = print_hex(alloc, object.body().as_slice())?;
    line.extend_from_slice(body.as_slice())?;
    let indices = join_indices(alloc, sources)?;
    let back = format!(in alloc; " {indices}")?;
    line.extend_from_slice(back.as_bytes())
}

// The indices that fragments came from, in their order, with a comma between each two.
fn join_indices(alloc: Global, sources: &[Target]) -> Result<String, NoMemory>
    ensures { IfOk result (λ text. string_bytes text ≡ numbers_text (indices_of sources.now)) }
{
    let indices: Vec<u32> = sources.iter().map(|source| source.index).collect(alloc)?;
    join_numbers(alloc, indices.as_slice())
}

// Adds the end of a get with these misses.
fn add_unanswered(line: &mut Bytes, alloc: Global, misses: &[(u16, Miss)]) -> Result<(), NoMemory>
    ensures { OnOk result (line.new ≡ line.old ++ get_text (GetEnd.Unanswered misses.now)) }
{
    let devices = join_devices(alloc, misses)?;
    let text = format!(in alloc; "unanswered {devices}")?;
    line.extend_from_slice(text.as_bytes())
}

// The devices that missed, each once, ascending, with a comma between each two.
fn join_devices(alloc: Global, misses: &[(u16, Miss)]) -> Result<String, NoMemory>
    ensures { IfOk result (λ text. string_bytes text ≡ numbers_text (devices_of misses.now)) }
{
    let devices = devices_of(alloc, misses)?;
    let numbers: Vec<u32> = devices
        .iter()
        .map(|device| u32::from(*device))
        .collect(alloc)?;
    join_numbers(alloc, numbers.as_slice())
}

// Adds the end of a head to a line.
fn add_head(line: &mut Bytes, alloc: Global, end: &GetEnd) -> Result<(), NoMemory>
    ensures { OnOk result (line.new ≡ line.old ++ head_text end.now) }
{
    match end {
        GetEnd::Found {
            stamp,
            object,
            sources: _,
        } => add_summary(line, alloc, *stamp, object),
        _ => add_get(line, alloc, end),
    }
}

// Adds the length and the MD5 of an object that was found.
fn add_summary(
    line: &mut Bytes,
    alloc: Global,
    stamp: Stamp,
    object: &Object,
) -> Result<(), NoMemory>
    ensures { OnOk result (line.new ≡ line.old ++ head_text (GetEnd.Found stamp object.now [])) }
{
    let length = object.body().len();
    let front = format!(in alloc; "head {stamp} {length} ")?;
    line.extend_from_slice(front.as_bytes())?;
    let md5 = print_hex(alloc, &object.body_md5())?;
    line.extend_from_slice(md5.as_slice())
}

// Adds the end of a delete to a line.
fn add_delete(line: &mut Bytes, alloc: Global, end: &DeleteEnd) -> Result<(), NoMemory>
    ensures { OnOk result (line.new ≡ line.old ++ delete_text end.now) }
{
    let text = match end {
        DeleteEnd::Deleted {
            stamp,
            marks,
            existed,
        } => {
            let existed = if *existed { "yes" } else { "no" };
            format!(in alloc; "deleted {stamp} {marks} {existed}")?
        }
        DeleteEnd::Superseded { floor } => {
            let stamp = floor.stamp;
            format!(in alloc; "superseded {stamp}")?
        }
        DeleteEnd::TooFewMarks { have, .. } => format!(in alloc; "too-few-marks {have}")?,
    };
    line.extend_from_slice(text.as_bytes())
}

// Adds the end of a sync to a line.
fn add_sync(line: &mut Bytes, alloc: Global, end: &SyncEnd) -> Result<(), NoMemory>
    ensures { OnOk result (line.new ≡ line.old ++ sync_text end.now) }
{
    let text = match end {
        SyncEnd::Done {
            commits,
            rebuilt,
            tombstones,
            failed,
        } => {
            let failed = failed.as_slice().len();
            format!(in alloc; "sync {commits} {rebuilt} {tombstones} {failed}")?
        }
        SyncEnd::Unanswered { device } => format!(in alloc; "unanswered {device}")?,
        SyncEnd::Newer { floor } => {
            let stamp = floor.stamp;
            format!(in alloc; "newer {stamp}")?
        }
        SyncEnd::TooFew { stamp, have, .. } => format!(in alloc; "too-few {stamp} {have}")?,
    };
    line.extend_from_slice(text.as_bytes())
}

// Adds the end of a revert to a line.
fn add_revert(line: &mut Bytes, alloc: Global, end: &RevertEnd) -> Result<(), NoMemory>
    ensures { OnOk result (line.new ≡ line.old ++ revert_text end.now) }
{
    let text = match end {
        RevertEnd::Done { removed, kept } => {
            let kept = kept.as_slice().len();
            format!(in alloc; "revert {removed} {kept}")?
        }
        RevertEnd::Unanswered { device } => format!(in alloc; "unanswered {device}")?,
    };
    line.extend_from_slice(text.as_bytes())
}
