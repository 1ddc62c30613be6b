//! How the operations of a workload ended.

ghost use Rattle.std.specs.Prelude.{◌≡◌, [], IfOk, OnOk};
ghost use Rattle.sw_lab.specs.Summary.{empty_summary, gets_text, puts_text, summary_text, with_delete, with_get, with_job, with_line, with_put};

use std::alloc::Global;
use sw_delete::DeleteEnd;
use sw_get::GetEnd;
use sw_put::PutEnd;
use sw_types::{Bytes, NoMemory};

/// How many operations ended in which way, and how many bytes were found. Each count stays at 2^64 - 1 once it is there.
#[derive(Clone, Copy, Debug, PartialEq, Eq)]
pub struct Summary {
    pub created: u64,
    /// Puts and deletes.
    pub superseded: u64,
    pub too_few_synced: u64,
    pub too_few_commits: u64,
    pub found: u64,
    pub absent: u64,
    pub buried: u64,
    pub unanswered: u64,
    pub too_few: u64,
    pub overtaken: u64,
    /// Deletes that found an object, and that found none.
    pub deleted: u64,
    pub missing: u64,
    pub too_few_marks: u64,
    /// Repairs.
    pub jobs: u64,
    /// The sum of the lengths of the bodies that were found.
    pub bytes: u64,
}

impl Summary {
    /// That of no operation.
    pub fn new() -> Summary
        ensures { result ≡ empty_summary }
    {
        Summary {
            created: 0,
            superseded: 0,
            too_few_synced: 0,
            too_few_commits: 0,
            found: 0,
            absent: 0,
            buried: 0,
            unanswered: 0,
            too_few: 0,
            overtaken: 0,
            deleted: 0,
            missing: 0,
            too_few_marks: 0,
            jobs: 0,
            bytes: 0,
        }
    }

    /// Counts a put.
    pub fn put(&mut self, end: &PutEnd)
        ensures { self.new ≡ with_put end.now self.old }
    {
        match end {
            PutEnd::Created { .. } => self.created = self.created.saturating_add(1),
            PutEnd::Superseded { .. } => self.superseded = self.superseded.saturating_add(1),
            PutEnd::TooFewSynced { .. } => {
                self.too_few_synced = self.too_few_synced.saturating_add(1);
            }
            PutEnd::TooFewCommits { .. } => {
                self.too_few_commits = self.too_few_commits.saturating_add(1);
            }
        }
    }

    /// Counts a get, and the bytes that it found.
    pub fn get(&mut self, end: &GetEnd)
        ensures { self.new ≡ with_get end.now self.old }
    {
        match end {
            GetEnd::Found { object, .. } => {
                self.found = self.found.saturating_add(1);
                self.bytes = self.bytes.saturating_add(object.body().len() as u64);
            }
            GetEnd::Absent => self.absent = self.absent.saturating_add(1),
            GetEnd::Buried { .. } => self.buried = self.buried.saturating_add(1),
            GetEnd::Unanswered { .. } => self.unanswered = self.unanswered.saturating_add(1),
            GetEnd::TooFew { .. } => self.too_few = self.too_few.saturating_add(1),
            GetEnd::Overtaken { .. } => self.overtaken = self.overtaken.saturating_add(1),
        }
    }

    /// Counts a delete.
    pub fn delete(&mut self, end: &DeleteEnd)
        ensures { self.new ≡ with_delete end.now self.old }
    {
        match end {
            DeleteEnd::Deleted { existed, .. } => {
                if *existed {
                    self.deleted = self.deleted.saturating_add(1);
                } else {
                    self.missing = self.missing.saturating_add(1);
                }
            }
            DeleteEnd::Superseded { .. } => self.superseded = self.superseded.saturating_add(1),
            DeleteEnd::TooFewMarks { .. } => {
                self.too_few_marks = self.too_few_marks.saturating_add(1);
            }
        }
    }

    /// Counts a repair.
    pub fn job(&mut self)
        ensures { self.new ≡ with_job self.old }
    {
        self.jobs = self.jobs.saturating_add(1);
    }

    /// A line for each count: its word and its number.
    pub fn print(&self, alloc: Global) -> Result<Bytes, NoMemory>
        ensures { IfOk result (λ text. text ≡ summary_text self.now) }
    {
        let mut text = Bytes::new(alloc);
        self.add_puts(&mut text, alloc)?;
        self.add_gets(&mut text, alloc)?;
        add_line(&mut text, alloc, "deleted", self.deleted)?;
        add_line(&mut text, alloc, "missing", self.missing)?;
        add_line(&mut text, alloc, "too-few-marks", self.too_few_marks)?;
        add_line(&mut text, alloc, "jobs", self.jobs)?;
        add_line(&mut text, alloc, "bytes", self.bytes)?;
        Ok(text)
    }

    // The lines of puts.
    fn add_puts(&self, text: &mut Bytes, alloc: Global) -> Result<(), NoMemory>
        requires { text.old ≡ [] }
        ensures { OnOk result (text.new ≡ puts_text self.now) }
    {
        add_line(text, alloc, "created", self.created)?;
        add_line(text, alloc, "superseded", self.superseded)?;
        add_line(text, alloc, "too-few-synced", self.too_few_synced)?;
        add_line(text, alloc, "too-few-commits", self.too_few_commits)
    }

    // The lines of gets.
    fn add_gets(&self, text: &mut Bytes, alloc: Global) -> Result<(), NoMemory>
        requires { text.old ≡ puts_text self.now }
        ensures { OnOk result (text.new ≡ gets_text self.now) }
    {
        add_line(text, alloc, "found", self.found)?;
        add_line(text, alloc, "absent", self.absent)?;
        add_line(text, alloc, "buried", self.buried)?;
        add_line(text, alloc, "unanswered", self.unanswered)?;
        add_line(text, alloc, "too-few", self.too_few)?;
        add_line(text, alloc, "overtaken", self.overtaken)
    }
}

// Adds the line of a count.
fn add_line(text: &mut Bytes, alloc: Global, word: &str, count: u64) -> Result<(), NoMemory>
    ensures { OnOk result (text.new ≡ with_line text.old word.now count) }
{
    let line = format!(in alloc; "{word} {count}\n")?;
    text.extend_from_slice(line.as_bytes())
}
