//! How far a pass is.

ghost use Rattle.std.specs.Prelude.{◌≡◌, ◌^◌, ◌<◌, ◌∷◌, ◌++◌, ℕ, [], List, None, Option, OnErr, OnOk, Some, true};
ghost use Rattle.sw_suffix.specs.Table.{Hashed};
ghost use Rattle.sw_ring.specs.Cluster.{ClusterModel};
ghost use Rattle.sw_daemon.specs.Coursing.{IsCourse, IsSound, IsStatus, is_asking, is_comparing};
ghost use Rattle.sw_daemon.specs.Pass.{AfterOther, AfterOwn, AsksOn, Course as ACourse, FollowsAnswer, ListOther as AListOther, Status as AStatus, after_parts, after_places, beginning, missed, next_part, next_place, others_of, reported};
ghost use Rattle.sw_daemon.specs.Stage.{Reverted, Synced};

use crate::comparing::Comparing;
use crate::differing::{Differing, keep_differing};
use crate::listed::{others_of, parts_of_ring, places_of_part};
use crate::report::PassReport;
use crate::task::Task;
use std::alloc::Global;
use std::collections::VecDeque;
use std::marker::Model;
use sw_hashpath::Place;
use sw_message::Reply;
use sw_recon::RevertEnd;
use sw_ring::Cluster;
use sw_sync::SyncEnd;
use sw_types::{Items, NoMemory};

/// The task of a pass, the places of the partition and the partitions that are treated after it, and what is to be reported.
#[derive(Debug, Drop)]
pub(crate) struct Course {
    pub(crate) task: Task,
    places: VecDeque<Place>,
    parts: VecDeque<u32>,
    pub(crate) report: PassReport,
}

impl Model for Course {
    ghost use Rattle.sw_daemon.specs.CourseInside.{course_seen};
    ghost use Rattle.sw_daemon.specs.Coursing.{Course};

    ghost Value = { Course };

    ghost view = { course_seen };
}

impl Course {
    /// That of a pass which has handed out nothing.
    pub(crate) fn new(alloc: Global) -> Course
        ensures course { IsCourse result beginning }
        ensures sound { (cluster : ClusterModel) → IsSound cluster result }
    {
        Course {
            task: Task::ListParts,
            places: VecDeque::new(alloc),
            parts: VecDeque::new(alloc),
            report: PassReport {
                synced: 0,
                rebuilt: 0,
                removed: 0,
                kept: 0,
                missed: 0,
            },
        }
    }

    /// What follows the answer to a question of the pass. Where memory is wanted all is as before.
    pub(crate) fn hear(
        &mut self,
        alloc: Global,
        cluster: &Cluster,
        device: u16,
        answer: &Option<Reply>,
    ) -> Result<(), NoMemory>
        requires asks { is_asking self.old.task ≡ true }
        requires sound { IsSound cluster.now self.old }
        ensures follows { (course : ACourse) → IsCourse self.old course → OnOk result ((status : AStatus)
            × FollowsAnswer (record { cluster = cluster.now; device = device }) course course.task answer.now status × IsStatus self.new status) }
        ensures sound { OnOk result (IsSound cluster.now self.new) }
        ensures refused { OnErr result (self.new ≡ self.old) }
    {
        match self.task {
            Task::ListParts => self.hear_parts(alloc, cluster, answer),
            Task::ListPlaces { part } => self.hear_places(alloc, cluster, device, part, answer),
            Task::ListOwn { part } => self.hear_own(alloc, cluster, device, part, answer),
            Task::ListOther(_) => self.hear_other(alloc, answer),
            Task::Treat { .. } | Task::Over => unreachable!(),
        }
    }

    /// What follows a sync.
    pub(crate) fn count_sync(&mut self, end: &SyncEnd)
        ensures follows { (course : ACourse) → IsCourse self.old course → IsStatus self.new (next_place course.places course.parts (reported course.report (Synced end.now))) }
        ensures sound { (cluster : ClusterModel) → IsSound cluster self.old → IsSound cluster self.new }
    {
        match end {
            SyncEnd::Done { rebuilt, .. } => {
                self.report.synced = self.report.synced.saturating_add(1);
                self.report.rebuilt = self.report.rebuilt.saturating_add(u64::from(*rebuilt));
            }
            _ => self.count_miss(),
        }
        self.next_place();
    }

    /// What follows a revert.
    pub(crate) fn count_revert(&mut self, end: &RevertEnd)
        ensures follows { (course : ACourse) → IsCourse self.old course → IsStatus self.new (next_place course.places course.parts (reported course.report (Reverted end.now))) }
        ensures sound { (cluster : ClusterModel) → IsSound cluster self.old → IsSound cluster self.new }
    {
        match end {
            RevertEnd::Done { removed, kept } => {
                let count = kept.as_slice().len() as u64;
                self.report.removed = self.report.removed.saturating_add(u64::from(*removed));
                self.report.kept = self.report.kept.saturating_add(count);
            }
            RevertEnd::Unanswered { .. } => self.count_miss(),
        }
        self.next_place();
    }

    // The own device lists its partitions, where it answered so.
    fn hear_parts(
        &mut self,
        alloc: Global,
        cluster: &Cluster,
        answer: &Option<Reply>,
    ) -> Result<(), NoMemory>
        requires { IsSound cluster.now self.old }
        ensures follows { (course : ACourse) → IsCourse self.old course → OnOk result (IsStatus self.new (after_parts cluster.now.part_power course answer.now)) }
        ensures sound { OnOk result (IsSound cluster.now self.new) }
        ensures refused { OnErr result (self.new ≡ self.old) }
    {
        match answer {
            Some(Reply::PartList(parts)) => {
                self.parts = parts_of_ring(alloc, cluster.part_power(), parts.as_slice())?;
                self.next_part();
            }
            _ => self.pass_over(),
        }
        Ok(())
    }

    // It lists the places of a partition.
    fn hear_places(
        &mut self,
        alloc: Global,
        cluster: &Cluster,
        device: u16,
        part: u32,
        answer: &Option<Reply>,
    ) -> Result<(), NoMemory>
        requires part { part < 2 ^ cluster.now.part_power }
        requires sound { IsSound cluster.now self.old }
        ensures follows { (course : ACourse) → IsCourse self.old course →
            OnOk result (IsStatus self.new (after_places (record { cluster = cluster.now; device = device }) part course answer.now)) }
        ensures sound { OnOk result (IsSound cluster.now self.new) }
        ensures refused { OnErr result (self.new ≡ self.old) }
    {
        let Some(Reply::PlaceList(places)) = answer else {
            self.pass_over();
            return Ok(());
        };
        let places = places_of_part(alloc, cluster.part_power(), part, places.as_slice())?;
        let is_primary = cluster.is_primary(part, device);
        self.places = places;
        if is_primary {
            self.task = Task::ListOwn { part };
        } else {
            self.next_place();
        }
        Ok(())
    }

    // It lists the suffixes of a partition.
    fn hear_own(
        &mut self,
        alloc: Global,
        cluster: &Cluster,
        device: u16,
        part: u32,
        answer: &Option<Reply>,
    ) -> Result<(), NoMemory>
        requires part { part < 2 ^ cluster.now.part_power }
        requires sound { IsSound cluster.now self.old }
        ensures follows { (course : ACourse) → IsCourse self.old course →
            OnOk result ((status : AStatus) × AfterOwn (record { cluster = cluster.now; device = device }) part course answer.now status × IsStatus self.new status) }
        ensures sound { OnOk result (IsSound cluster.now self.new) }
        ensures refused { OnErr result (self.new ≡ self.old) }
    {
        match answer {
            Some(Reply::SuffixList(hashes)) => {
                self.compare_own(alloc, cluster, device, part, hashes.as_slice())?;
            }
            _ => self.pass_over(),
        }
        Ok(())
    }

    // The other primaries are asked for their suffixes, the own ones being these.
    fn compare_own(
        &mut self,
        alloc: Global,
        cluster: &Cluster,
        device: u16,
        part: u32,
        hashes: &[(u16, [u8; 16])],
    ) -> Result<(), NoMemory>
        requires part { part < 2 ^ cluster.now.part_power }
        requires sound { IsSound cluster.now self.old }
        ensures follows { (course : ACourse) → IsCourse self.old course → OnOk result ((status : AStatus)
            × AsksOn part hashes.now [] (others_of (record { cluster = cluster.now; device = device }) part) course.places course.parts course.report status × IsStatus self.new status) }
        ensures sound { OnOk result (IsSound cluster.now self.new) }
        ensures refused { OnErr result (self.new ≡ self.old) }
    {
        let own = Items::from(Vec::from_slice(alloc, hashes)?);
        let mut others = others_of(alloc, cluster, part, device)?;
        match others.pop_front() {
            Some(device) => {
                self.task = Task::ListOther(Comparing {
                    part,
                    own,
                    differing: Differing::new(alloc),
                    device,
                    others,
                });
            }
            None => {
                self.places.clear();
                self.next_place();
            }
        }
        Ok(())
    }

    // Another primary lists them.
    fn hear_other(&mut self, alloc: Global, answer: &Option<Reply>) -> Result<(), NoMemory>
        requires { is_comparing self.old.task ≡ true }
        ensures follows { (course : ACourse) (part : ℕ) (own : List Hashed) (heard : List (Option (List Hashed))) (device : ℕ) (others : List ℕ) →
            IsCourse self.old course → course.task ≡ AListOther part own heard device others →
            OnOk result ((status : AStatus) × AfterOther part own heard others course answer.now status × IsStatus self.new status) }
        ensures sound { (cluster : ClusterModel) → IsSound cluster self.old → OnOk result (IsSound cluster self.new) }
        ensures refused { OnErr result (self.new ≡ self.old) }
    {
        match answer {
            Some(Reply::SuffixList(hashes)) => self.hear_hashes(alloc, hashes.as_slice())?,
            _ => self.miss_hashes(),
        }
        Ok(())
    }

    // It lists these.
    fn hear_hashes(&mut self, alloc: Global, hashes: &[(u16, [u8; 16])]) -> Result<(), NoMemory>
        requires { is_comparing self.old.task ≡ true }
        ensures follows { (course : ACourse) (part : ℕ) (own : List Hashed) (heard : List (Option (List Hashed))) (device : ℕ) (others : List ℕ) →
            IsCourse self.old course → course.task ≡ AListOther part own heard device others → OnOk result ((status : AStatus)
            × AsksOn part own (heard ++ Some hashes.now ∷ []) others course.places course.parts course.report status × IsStatus self.new status) }
        ensures sound { (cluster : ClusterModel) → IsSound cluster self.old → OnOk result (IsSound cluster self.new) }
        ensures refused { OnErr result (self.new ≡ self.old) }
    {
        let Task::ListOther(comparing) = &mut self.task else {
            unreachable!()
        };
        let own = comparing.own.as_slice();
        comparing.differing.add(alloc, own, hashes)?;
        self.compare_on();
        Ok(())
    }

    // It missed.
    fn miss_hashes(&mut self)
        requires { is_comparing self.old.task ≡ true }
        ensures follows { (course : ACourse) (part : ℕ) (own : List Hashed) (heard : List (Option (List Hashed))) (device : ℕ) (others : List ℕ) →
            IsCourse self.old course → course.task ≡ AListOther part own heard device others →
            (status : AStatus) × AsksOn part own (heard ++ None ∷ []) others course.places course.parts (missed course.report) status × IsStatus self.new status }
        ensures sound { (cluster : ClusterModel) → IsSound cluster self.old → IsSound cluster self.new }
    {
        let Task::ListOther(comparing) = &mut self.task else {
            unreachable!()
        };
        comparing.differing.add_all();
        self.count_miss();
        self.compare_on();
    }

    // The next of the other primaries is asked, or the places are treated whose suffixes differ.
    fn compare_on(&mut self)
        requires { is_comparing self.old.task ≡ true }
        ensures follows { (course : ACourse) (part : ℕ) (own : List Hashed) (heard : List (Option (List Hashed))) (device : ℕ) (others : List ℕ) →
            IsCourse self.old course → course.task ≡ AListOther part own heard device others →
            (status : AStatus) × AsksOn part own heard others course.places course.parts course.report status × IsStatus self.new status }
        ensures sound { (cluster : ClusterModel) → IsSound cluster self.old → IsSound cluster self.new }
    {
        let Task::ListOther(comparing) = &mut self.task else {
            unreachable!()
        };
        match comparing.others.pop_front() {
            Some(device) => comparing.device = device,
            None => {
                keep_differing(&mut self.places, &comparing.differing);
                self.next_place();
            }
        }
    }

    // A message of the pass missed, or a job ended otherwise than as done.
    fn count_miss(&mut self)
        ensures { self.new ≡ record self.old { report = missed self.old.report } }
    {
        self.report = missed(self.report);
    }

    // A message of the pass missed: the next partition is treated.
    fn pass_over(&mut self)
        ensures follows { IsStatus self.new (next_part self.old.parts (missed self.old.report)) }
        ensures sound { (cluster : ClusterModel) → IsSound cluster self.old → IsSound cluster self.new }
    {
        self.count_miss();
        self.next_part();
    }

    // The next partition is treated, or it is over.
    fn next_part(&mut self)
        ensures follows { IsStatus self.new (next_part self.old.parts self.old.report) }
        ensures sound { (cluster : ClusterModel) → IsSound cluster self.old → IsSound cluster self.new }
    {
        self.places.clear();
        self.task = match self.parts.pop_front() {
            Some(part) => Task::ListPlaces { part },
            None => Task::Over,
        };
    }

    // The next place is treated, or else the next partition.
    fn next_place(&mut self)
        ensures follows { IsStatus self.new (next_place self.old.places self.old.parts self.old.report) }
        ensures sound { (cluster : ClusterModel) → IsSound cluster self.old → IsSound cluster self.new }
    {
        match self.places.pop_front() {
            Some(place) => self.task = Task::Treat { place },
            None => self.next_part(),
        }
    }
}

// A report with a miss more.
fn missed(report: PassReport) -> PassReport
    ensures { result ≡ missed report }
{
    PassReport {
        missed: report.missed.saturating_add(1),
        ..report
    }
}
