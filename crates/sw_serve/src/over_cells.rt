//! The nodes of a cluster behind locks, over the links of one thread and of eight: disks in memory, with the built-in ring.

ghost use Rattle.std.specs.Prelude.{◌≡◌, ◌<◌, ◌≤◌, Contains, IfOk, IfSome, OnSome, Some, false};
ghost use Rattle.std.specs.List.{All};
ghost use Rattle.sw_disk.specs.Runs.{IfTold};
ghost use Rattle.sw_memdisk.specs.Memory.{seen_of};
ghost use Rattle.sw_ring.specs.Cluster.{ClusterModel, KeepsRules};
ghost use Rattle.sw_message.specs.Message.{IsMember};
ghost use Rattle.sw_law_replayed.specs.Keeping.{IsEmptyFor};
ghost use Rattle.sw_pass.specs.Known.{size_of};
ghost use Rattle.sw_cell.specs.Mounting.{AreEmpty};

use crate::{ConnEnd, LocalLink, serve_connection};
use std::alloc::Global;
use std::cell::Cell;
use std::marker::Brand;
use std::process::Abort;
use std::sync::Wait;
use std::test::Fail;
use std::thread::{Threads, map_vec};
use sw_cell::{Cells, CellsFault, Site};
use sw_daemon::pass as reconstruct;
use sw_delete::DeleteEnd;
use sw_front::{delete, get, put};
use sw_get::GetEnd;
use sw_io::{Gate, GatePoint, MemClock, MemConn, OpenGate};
use sw_memdisk::MemDisk;
use sw_message::{Draw, Link};
use sw_pass::{OfCluster, Pass, StampTable};
use sw_put::PutEnd;
use sw_ring::{Cluster, Device, built_in};
use sw_types::{Bytes, Head, Name, Object, Stamp};

// 1000000000.00000
const START: u64 = 100_000_000_000_000;

const WORKERS: u8 = 8;

// ---- devices and disks

// The device at a slot.
fn device_at(cluster: &Cluster, slot: usize) -> Option<u16>
    ensures { IfSome result (IsMember cluster.now) }
{
    Some(cluster.devices().get(slot)?.id)
}

// An empty disk of a device, of which the calls of these numbers fail.
fn empty_disk(alloc: Global, cluster: &Cluster, device: &Device, failing: Vec<u64>) -> MemDisk
    requires rules { KeepsRules cluster.now }
    requires device { Contains cluster.now.devices device.now }
    ensures { IfTold (seen_of result).told (IsEmptyFor cluster.now device.now.id) }
{
    MemDisk::new(alloc, device.capacity, failing)
}

// The device at a slot, and an empty disk of it.
fn disk_at(alloc: Global, cluster: &Cluster, slot: usize) -> Option<(u16, MemDisk)>
    ensures device { IfSome result (λ one. IsMember cluster.now one.0) }
    ensures empty { IfSome result (λ one. IfTold (seen_of one.1).told (IsEmptyFor cluster.now one.0)) }
{
    let device = cluster.devices().get(slot)?;
    Some((
        device.id,
        empty_disk(alloc, cluster, device, Vec::new(alloc)),
    ))
}

// An empty disk for each device. The first call of one may fail.
fn new_disks(alloc: Global, cluster: &Cluster, fails: Option<u16>) -> Result<Vec<MemDisk>, Fail>
    ensures { IfOk result (λ disks. AreEmpty seen_of cluster.now disks.items) }
{
    let mut disks = Vec::new(alloc);
    'each: for device in cluster.devices() {
        let failing = vec![in alloc; if fails == Some(device.id) { 1 } else { 0 }]?;
        disks.push(empty_disk(alloc, cluster, device, failing))?;
    }
    Ok(disks)
}

// What a disk has of an object: the names of the files in its folder.
fn files_of(alloc: Global, cluster: &Cluster, disk: &MemDisk, name: &Name) -> Result<String, Fail> {
    let path = name.path(alloc)?;
    let folder = cluster.place_of_path(path.as_slice()).folder(alloc)?;
    let mut text = String::new(alloc);
    for slot in 0..4usize {
        if let Some(file) = disk.name_at(&folder, slot) {
            text = format!(in alloc; "{text}{file} ")?;
        }
    }
    Ok(text)
}

// The bytes of the first file that a disk has of an object.
fn first_of(alloc: Global, cluster: &Cluster, disk: &MemDisk, name: &Name) -> Result<Bytes, Fail> {
    let path = name.path(alloc)?;
    let folder = cluster.place_of_path(path.as_slice()).folder(alloc)?;
    let file = disk.name_at(&folder, 0).ok_or("no file")?;
    let bytes = disk.file(&folder, file).ok_or("no file")?;
    Ok(Bytes::from_slice(alloc, bytes)?)
}

// ---- puts and gets

// The object that a worker puts.
fn name_of(alloc: Global, worker: u8) -> Option<Name> {
    Name::make(alloc, b"a", b"c", &[b'o', b'0' + worker % 10]).ok()
}

// A put of this body over the link: its stamp, where it was created, and how many devices committed.
fn created<L: Draw>(
    alloc: Global,
    cluster: &Cluster,
    link: &mut L,
    name: &Name,
    body: &[u8],
) -> Option<(Stamp, u32)>
    requires { (of : ClusterModel) → L.cluster link.old ≡ Some of → cluster.now ≡ of }
    ensures { L.cluster link.new ≡ L.cluster link.old }
{
    let head = Head::make(alloc, b"text/plain", &[]).ok()?;
    let object = Object::make(head, Bytes::from_slice(alloc, body).ok()?).ok()?;
    match put(alloc, cluster, link, name, &object).ok()? {
        PutEnd::Created { stamp, commits } => Some((stamp, commits)),
        _ => None,
    }
}

// What a get over the link finds, and its stamp.
fn found<L: Draw>(
    alloc: Global,
    cluster: &Cluster,
    link: &mut L,
    name: &Name,
) -> Option<(Stamp, Object)>
    requires { (of : ClusterModel) → L.cluster link.old ≡ Some of → cluster.now ≡ of }
    ensures { L.cluster link.new ≡ L.cluster link.old }
{
    match get(alloc, cluster, link, name).ok()? {
        GetEnd::Found { stamp, object, .. } => Some((stamp, object)),
        _ => None,
    }
}

// ---- one thread

// Whether a disk has of an object the files with these names, and no other.
fn expect_files(
    rt: &impl Abort,
    alloc: Global,
    cluster: &Cluster,
    disk: &MemDisk,
    name: &Name,
    want: &str,
) -> Result<(), Fail> {
    let found = files_of(alloc, cluster, disk, name)?;
    assert_eq!(rt; found.as_str(), want);
    Ok(())
}

// A gate that counts what a worker passes.
#[derive(Drop)]
struct NotingGate {
    worker: u16,
    sent: Cell<u32>,
    answered: Cell<u32>,
}

impl Gate for NotingGate {
    fn at(&self, worker: u16, point: GatePoint) {
        let count = match point {
            GatePoint::BeforeMessage if worker == self.worker => &self.sent,
            GatePoint::Answered if worker == self.worker => &self.answered,
            _ => return,
        };
        count.set(count.get().saturating_add(1));
    }
}

// Two puts, of which the second call is lost: index 1 of the first goes to a handoff.
fn put_two<C: OfCluster, J: Site, R: Wait + Abort>(
    rt: &R,
    alloc: Global,
    cells: &Cells<MemDisk, C, J>,
    pass: Pass<C>,
    one: &Name,
    other: &Name,
) -> Option<Pass<C>>
    requires { pass.table ≡ J.table }
    ensures { IfSome result (λ pass. pass.table ≡ J.table) }
{
    let clock = MemClock::new(Stamp::make(START)?);
    let gate = NotingGate {
        worker: 5,
        sent: Cell::new(0),
        answered: Cell::new(0),
    };
    let second = vec![in alloc; 2].ok()?;
    let mut link = LocalLink::new(rt, alloc, cells, pass, &clock, &gate, 5, second);
    let first = created(alloc, cells.cluster(), &mut link, one, b"abc")?;
    let second = created(alloc, cells.cluster(), &mut link, other, b"abd")?;
    assert_eq!(rt; (first.0.units(), first.1), (START, 3));
    assert_eq!(rt; (second.0.units(), second.1), (START + 1, 3));
    assert_eq!(rt; (gate.sent.get(), gate.answered.get()), (12, 12));
    Some(link.finish())
}

// Puts an empty disk in the place of that at a slot, which comes back.
fn renew<C: OfCluster, J: Site, R: Wait>(
    rt: &R,
    alloc: Global,
    cells: &Cells<MemDisk, C, J>,
    pass: &mut Pass<C>,
    slot: usize,
) -> Option<MemDisk>
    requires { pass.old.table ≡ J.table }
    ensures { OnSome result (pass.new.table ≡ pass.old.table) }
{
    let (device, disk) = disk_at(alloc, cells.cluster(), slot)?;
    cells.replace(rt, alloc, pass, device, disk).ok()
}

// The reconstructor goes over all that the device at a slot has: how many objects it compared, archives it rebuilt, and archives it removed.
fn rebuild<C: OfCluster, J: Site, R: Wait>(
    rt: &R,
    alloc: Global,
    cells: &Cells<MemDisk, C, J>,
    pass: Pass<C>,
    slot: usize,
) -> Option<(Pass<C>, [u64; 3])>
    requires { pass.table ≡ J.table }
    ensures { IfSome result (λ one. one.0.table ≡ J.table) }
{
    let clock = MemClock::new(Stamp::make(START)?);
    let device = device_at(cells.cluster(), slot)?;
    let mut link = LocalLink::new(
        rt,
        alloc,
        cells,
        pass,
        &clock,
        &OpenGate,
        0,
        Vec::new(alloc),
    );
    let report = reconstruct(alloc, cells.cluster(), device, &mut link).ok()?;
    Some((
        link.finish(),
        [report.synced, report.rebuilt, report.removed],
    ))
}

// A put and a get of its object, on one connection.
fn serve_both<C: OfCluster, J: Site, R: Wait + Abort>(
    rt: &R,
    alloc: Global,
    cells: &Cells<MemDisk, C, J>,
    pass: Pass<C>,
) -> Option<Pass<C>>
    requires { pass.table ≡ J.table }
    ensures { IfSome result (λ pass. pass.table ≡ J.table) }
{
    let clock = MemClock::new(Stamp::make(START)?);
    let asked =
        "PUT /v1/a/c/p HTTP/1.1\r\nHost: h\r\nContent-Type: text/plain\r\nContent-Length: 3\r\n\r\nabcGET /v1/a/c/p HTTP/1.1\r\nHost: h\r\n\r\n";
    let mut conn = MemConn::new(alloc, asked.as_bytes().to_vec(alloc).ok()?);
    let (pass, end) = serve_connection(rt, alloc, &mut conn, pass, cells, &clock, &OpenGate, 0);
    let want =
        "HTTP/1.1 201 Created\r\nContent-Length: 0\r\nETag: 900150983cd24fb0d6963f7d28e17f72\r\nX-Timestamp: 1000000000.00002\r\nX-Commits: 3\r\n\r\nHTTP/1.1 200 OK\r\nContent-Length: 3\r\nContent-Type: text/plain\r\nETag: 900150983cd24fb0d6963f7d28e17f72\r\nX-Timestamp: 1000000000.00002\r\n\r\nabc";
    assert_eq!(rt; end, ConnEnd::Closed);
    assert_eq!(rt; conn.written(), want.as_bytes());
    Some(pass)
}

// What the disks hold at the end of both objects. The disk at slot 1 has the same archive as the one that was lost.
fn expect_rebuilt(
    rt: &impl Abort,
    alloc: Global,
    one: &Name,
    other: &Name,
    lost: &MemDisk,
    closed: &[(u16, MemDisk)],
) -> Result<(), Fail> {
    let wants = [
        ("1000000000.00000#0#d.data ", "1000000000.00001#0#d.data "),
        ("1000000000.00000#1#d.data ", "1000000000.00001#1#d.data "),
        ("1000000000.00000#2#d.data ", "1000000000.00001#2#d.data "),
        ("", ""),
    ];
    let cluster = Cluster::read(alloc, built_in())?;
    assert_eq!(rt; closed.len(), wants.len());
    for ((_, disk), (first, second)) in closed.iter().zip(wants) {
        expect_files(rt, alloc, &cluster, disk, one, first)?;
        expect_files(rt, alloc, &cluster, disk, other, second)?;
    }
    expect_files(rt, alloc, &cluster, lost, one, "")?;
    let had = first_of(alloc, &cluster, lost, other)?;
    let (_, rebuilt) = closed.get(1).ok_or("no disk")?;
    let has = first_of(alloc, &cluster, rebuilt, other)?;
    assert_eq!(rt; has.as_slice(), had.as_slice());
    Ok(())
}

// A device that a call did not reach has nothing, and a handoff stands in for it. A disk that took the place of another has its fragments once a
// neighbour's reconstructor went over all that it has, and then the handoff's goes. The disk that was lost, and all at the end.
fn repair<C: OfCluster, J: Site, R: Wait + Abort>(
    rt: &R,
    alloc: Global,
    cells: Cells<MemDisk, C, J>,
    pass: Pass<C>,
    one: &Name,
    other: &Name,
) -> Option<(MemDisk, Vec<(u16, MemDisk)>)>
    requires { pass.table ≡ J.table }
{
    let mut pass = put_two(rt, alloc, &cells, pass, one, other)?;
    let lost = renew(rt, alloc, &cells, &mut pass, 1)?;
    let (pass, report) = rebuild(rt, alloc, &cells, pass, 0)?;
    assert_eq!(rt; report, [2, 2, 0]);
    let (pass, report) = rebuild(rt, alloc, &cells, pass, 3)?;
    assert_eq!(rt; report, [0, 0, 1]);
    let mut pass = serve_both(rt, alloc, &cells, pass)?;
    Some((lost, cells.close(&mut pass)))
}

fn repair_in<C: OfCluster, J: Site, R: Wait + Abort>(
    rt: &R,
    alloc: Global,
    cluster: Cluster,
    table: StampTable<C>,
    mut pass: Pass<C>,
) -> Result<(), Fail>
    requires cluster { cluster ≡ C.cluster }
    requires table { (table ≡ J.table) × (pass.table ≡ J.table) }
{
    let disks = new_disks(alloc, &cluster, None)?;
    let Ok(cells) = Cells::<MemDisk, C, J>::new(alloc, cluster, table, &mut pass, disks) else {
        return Err("not mounted".into());
    };
    let one = name_of(alloc, 0).ok_or("name")?;
    let other = name_of(alloc, 1).ok_or("name")?;
    let (lost, closed) = repair(rt, alloc, cells, pass, &one, &other).ok_or("not repaired")?;
    expect_rebuilt(rt, alloc, &one, &other, &lost, &closed)
}

// ---- a connection alone

// Serves a connection over new nodes.
fn serve_in<C: OfCluster, J: Site, R: Wait>(
    rt: &R,
    alloc: Global,
    cluster: Cluster,
    table: StampTable<C>,
    mut pass: Pass<C>,
    conn: &mut MemConn,
) -> Result<ConnEnd, Fail>
    requires cluster { cluster ≡ C.cluster }
    requires table { (table ≡ J.table) × (pass.table ≡ J.table) }
    requires not_closed { conn.old.is_closed ≡ false }
{
    let disks = new_disks(alloc, &cluster, None)?;
    let Ok(cells) = Cells::<MemDisk, C, J>::new(alloc, cluster, table, &mut pass, disks) else {
        return Err("not mounted".into());
    };
    let clock = MemClock::new(Stamp::make(START).ok_or("stamp")?);
    let (_pass, end) = serve_connection(rt, alloc, conn, pass, &cells, &clock, &OpenGate, 0);
    Ok(end)
}

// ---- a delete that does not reach a device

// A put, a delete whose third call is lost, so that a handoff stands in, and a pass of the first device: how the delete ended, and what the pass reports.
fn bury<C: OfCluster, J: Site, R: Wait>(
    rt: &R,
    alloc: Global,
    cells: &Cells<MemDisk, C, J>,
    pass: Pass<C>,
    name: &Name,
) -> Option<(Pass<C>, DeleteEnd, [u64; 3])>
    requires { pass.table ≡ J.table }
    ensures { IfSome result (λ one. one.0.table ≡ J.table) }
{
    let clock = MemClock::new(Stamp::make(START)?);
    let ninth = vec![in alloc; 9].ok()?;
    let mut link = LocalLink::new(rt, alloc, cells, pass, &clock, &OpenGate, 0, ninth);
    created(alloc, cells.cluster(), &mut link, name, b"abc")?;
    let end = delete(alloc, cells.cluster(), &mut link, name).ok()?;
    let (pass, report) = rebuild(rt, alloc, cells, link.finish(), 0)?;
    Some((pass, end, report))
}

fn bury_in<C: OfCluster, J: Site, R: Wait + Abort>(
    rt: &R,
    alloc: Global,
    cluster: Cluster,
    table: StampTable<C>,
    mut pass: Pass<C>,
) -> Result<(), Fail>
    requires cluster { cluster ≡ C.cluster }
    requires table { (table ≡ J.table) × (pass.table ≡ J.table) }
{
    let disks = new_disks(alloc, &cluster, None)?;
    let Ok(cells) = Cells::<MemDisk, C, J>::new(alloc, cluster, table, &mut pass, disks) else {
        return Err("not mounted".into());
    };
    let name = name_of(alloc, 0).ok_or("name")?;
    let (mut pass, end, report) = bury(rt, alloc, &cells, pass, &name).ok_or("not buried")?;
    let is_deleted = matches!(
        &end,
        DeleteEnd::Deleted {
            marks: 3,
            existed: true,
            ..
        }
    );
    assert!(rt; is_deleted);
    assert_eq!(rt; report, [1, 0, 0]);
    let cluster = Cluster::read(alloc, built_in())?;
    for (_, disk) in cells.close(&mut pass) {
        expect_files(rt, alloc, &cluster, &disk, &name, "1000000000.00001.ts ")?;
    }
    Ok(())
}

// ---- eight threads

// What a worker is given.
#[derive(Drop)]
struct Job<C: OfCluster> {
    worker: u8,
    pass: Pass<C>,
}

// A put over a link of the pass, and a get that finds it.
fn put_and_get<C: OfCluster, J: Site, R: Wait>(
    rt: &R,
    alloc: Global,
    cells: &Cells<MemDisk, C, J>,
    pass: Pass<C>,
    name: &Name,
    body: &[u8],
) -> Option<(Pass<C>, Stamp)>
    requires { pass.table ≡ J.table }
    ensures { IfSome result (λ one. one.0.table ≡ J.table) }
{
    let clock = MemClock::new(Stamp::make(START)?);
    let mut link = LocalLink::new(
        rt,
        alloc,
        cells,
        pass,
        &clock,
        &OpenGate,
        0,
        Vec::new(alloc),
    );
    let (stamp, _) = created(alloc, cells.cluster(), &mut link, name, body)?;
    let (at, object) = found(alloc, cells.cluster(), &mut link, name)?;
    let is_found = at.units() == stamp.units() && object.body().as_slice() == body;
    is_found.then(|| (link.finish(), stamp))
}

// A worker puts an object of its own three times, and gets each. The first replaces a device's disk before each. Its stamps, unless something
// went wrong.
fn work<C: OfCluster, J: Site, R: Wait>(
    rt: &R,
    alloc: Global,
    cells: &Cells<MemDisk, C, J>,
    job: Job<C>,
) -> Option<Vec<Stamp>>
    requires { job.pass.table ≡ J.table }
{
    let name = name_of(alloc, job.worker)?;
    let mut pass = job.pass;
    let mut stamps = Vec::new(alloc);
    for round in 0..3u8 {
        if job.worker == 0 {
            renew(rt, alloc, cells, &mut pass, 2)?;
        }
        let (next, stamp) = put_and_get(rt, alloc, cells, pass, &name, &[job.worker, round])?;
        stamps.push(stamp).ok()?;
        pass = next;
    }
    Some(stamps)
}

// A job for each worker.
fn jobs_of<C: OfCluster>(
    alloc: Global,
    table: &StampTable<C>,
    pass: &mut Pass<C>,
) -> Result<Vec<Job<C>>, Fail>
    requires table { pass.old.table ≡ table.now }
    requires passes { 8 < pass.old.known.passes }
    ensures table { pass.new.table ≡ pass.old.table }
    ensures jobs { IfOk result (λ jobs. All (λ job. job.pass.table ≡ table.now) jobs.items) }
{
    let mut jobs = Vec::new(alloc);
    for worker in 0..WORKERS {
        jobs.push(Job {
            worker,
            pass: pass.split(table, 1),
        })?;
    }
    Ok(jobs)
}

// No stamp was drawn twice.
fn expect_stamps(rt: &impl Abort, alloc: Global, stamps: &[Vec<Stamp>]) -> Result<(), Fail> {
    let mut all: Vec<Stamp> = Vec::new(alloc);
    for drawn in stamps {
        for stamp in drawn {
            assert!(rt; !all.contains(stamp), "{stamp} was drawn twice");
            all.push(*stamp)?;
        }
    }
    assert_eq!(rt; all.len(), 24);
    Ok(())
}

// Each disk that stood all the time has of each worker's object the last one, durable, and nothing else; the one that was replaced has that or
// nothing.
fn expect_disks(
    rt: &impl Abort,
    alloc: Global,
    stamps: &[Vec<Stamp>],
    disks: &[(u16, MemDisk)],
) -> Result<(), Fail> {
    let cluster = Cluster::read(alloc, built_in())?;
    for worker in 0..WORKERS {
        let name = name_of(alloc, worker).ok_or("name")?;
        let last = stamps
            .get(usize::from(worker))
            .and_then(|drawn| drawn.last())
            .ok_or("no stamp")?;
        for (device, disk) in disks {
            let found = files_of(alloc, &cluster, disk, &name)?;
            let want = match *device {
                index @ 0..=2 => format!(in alloc; "{last}#{index}#d.data ")?,
                _ => String::new(alloc),
            };
            let may_lack = *device == 2 && found.is_empty();
            assert!(rt;
                may_lack || found == want,
                "of {worker} at {device}: {found}"
            );
        }
    }
    Ok(())
}

fn race<C: OfCluster + Send + Sync, J: Site + Send + Sync, R: Threads + Wait + Sync + Abort>(
    rt: &R,
    alloc: Global,
    cluster: Cluster,
    table: StampTable<C>,
    mut pass: Pass<C>,
) -> Result<(), Fail>
    requires cluster { cluster ≡ C.cluster }
    requires table { (table ≡ J.table) × (pass.table ≡ J.table) }
    requires passes { 8 < pass.known.passes }
{
    let disks = new_disks(alloc, &cluster, None)?;
    let Ok(cells) = Cells::<MemDisk, C, J>::new(alloc, cluster, table, &mut pass, disks) else {
        return Err("not mounted".into());
    };
    let jobs = jobs_of(alloc, cells.table(), &mut pass)?;
    let done = map_vec(
        rt,
        jobs,
        &|job: Job<C>| -> Option<Vec<Stamp>> { work(rt, alloc, &cells, job) },
    )?;
    let mut stamps = Vec::new(alloc);
    for drawn in done {
        stamps.push(drawn.ok_or("a worker failed")?)?;
    }
    let closed = cells.close(&mut pass);
    expect_stamps(rt, alloc, &stamps)?;
    expect_disks(rt, alloc, &stamps, &closed)
}

// ---- a disk that fails

// All disks come back where one fails as it is mounted, and its device is told.
fn refuse<C: OfCluster, J: Site>(
    rt: &impl Abort,
    alloc: Global,
    cluster: Cluster,
    table: StampTable<C>,
    mut pass: Pass<C>,
) -> Result<(), Fail>
    requires cluster { cluster ≡ C.cluster }
    requires table { (table ≡ J.table) × (pass.table ≡ J.table) }
{
    let disks = new_disks(alloc, &cluster, Some(2))?;
    let Err(CellsFault::Mount { device, disks }) = Cells::<MemDisk, C, J>::new(
        alloc, cluster, table, &mut pass, disks,
    ) else {
        return Err("mounted".into());
    };
    assert_eq!(rt; (device, disks.len()), (2, 4));
    Ok(())
}

// ---- a table of its own for each

// How many devices a cluster has.
fn count_devices(cluster: &Cluster) -> Result<u16, Fail>
    ensures count { IfOk result (λ count. (3 ≤ count) × (count ≤ 64) × (count ≡ size_of cluster.now)) }
    ensures rules { KeepsRules cluster.now }
{
    let count = cluster.devices().len();
    if count < 3 {
        return Err("too few devices".into());
    }
    Ok(count as u16)
}

fn repair_with<C: OfCluster, R: Wait + Abort>(
    rt: &R,
    alloc: Global,
    cluster: Cluster,
) -> Result<(), Fail>
    requires { cluster ≡ C.cluster }
{
    let (table, pass) = StampTable::<C>::new(alloc, count_devices(&cluster)?)?;
    repair_in::<C, Brand, R>(rt, alloc, cluster, table, pass)
}

fn race_with<C: OfCluster + Send + Sync, R: Threads + Wait + Sync + Abort>(
    rt: &R,
    alloc: Global,
    cluster: Cluster,
) -> Result<(), Fail>
    requires { cluster ≡ C.cluster }
{
    let (table, pass) = StampTable::<C>::new(alloc, count_devices(&cluster)?)?;
    race::<C, Brand, R>(rt, alloc, cluster, table, pass)
}

fn refuse_with<C: OfCluster, R: Abort>(rt: &R, alloc: Global, cluster: Cluster) -> Result<(), Fail>
    requires { cluster ≡ C.cluster }
{
    let (table, pass) = StampTable::<C>::new(alloc, count_devices(&cluster)?)?;
    refuse::<C, Brand>(rt, alloc, cluster, table, pass)
}

fn serve_with<C: OfCluster, R: Wait>(
    rt: &R,
    alloc: Global,
    cluster: Cluster,
    conn: &mut MemConn,
) -> Result<ConnEnd, Fail>
    requires cluster { cluster ≡ C.cluster }
    requires not_closed { conn.old.is_closed ≡ false }
{
    let (table, pass) = StampTable::<C>::new(alloc, count_devices(&cluster)?)?;
    serve_in::<C, Brand, R>(rt, alloc, cluster, table, pass, conn)
}

fn bury_with<C: OfCluster, R: Wait + Abort>(
    rt: &R,
    alloc: Global,
    cluster: Cluster,
) -> Result<(), Fail>
    requires { cluster ≡ C.cluster }
{
    let (table, pass) = StampTable::<C>::new(alloc, count_devices(&cluster)?)?;
    bury_in::<C, Brand, R>(rt, alloc, cluster, table, pass)
}

/// Serves a connection over new nodes of the built-in ring.
pub(crate) fn serve_alone<R: Wait>(
    rt: &R,
    alloc: Global,
    conn: &mut MemConn,
) -> Result<ConnEnd, Fail>
    requires { conn.old.is_closed ≡ false }
{
    let cluster = Cluster::read(alloc, built_in())?;
    serve_with::<Brand, R>(rt, alloc, cluster, conn)
}

fn bury_on<R: Wait + Abort>(rt: &R, alloc: Global, cluster: Cluster) -> Result<(), Fail> {
    bury_with::<Brand, R>(rt, alloc, cluster)
}

fn refuse_on<R: Abort>(rt: &R, alloc: Global, cluster: Cluster) -> Result<(), Fail> {
    refuse_with::<Brand, R>(rt, alloc, cluster)
}

fn repair_on<R: Wait + Abort>(rt: &R, alloc: Global, cluster: Cluster) -> Result<(), Fail> {
    repair_with::<Brand, R>(rt, alloc, cluster)
}

fn race_on<R: Threads + Wait + Sync + Abort>(
    rt: &R,
    alloc: Global,
    cluster: Cluster,
) -> Result<(), Fail> {
    race_with::<Brand, R>(rt, alloc, cluster)
}

#[test]
fn refuses_a_disk_that_fails(rt: HostRuntime) -> Result<(), Fail> {
    let cluster = Cluster::read(rt.alloc(), built_in())?;
    refuse_on(&rt, rt.alloc(), cluster)
}

#[test]
fn rebuilds_what_a_replaced_disk_lost(rt: HostRuntime) -> Result<(), Fail> {
    let cluster = Cluster::read(rt.alloc(), built_in())?;
    repair_on(&rt, rt.alloc(), cluster)
}

#[test]
fn buries_what_a_lost_call_left(rt: HostRuntime) -> Result<(), Fail> {
    let cluster = Cluster::read(rt.alloc(), built_in())?;
    bury_on(&rt, rt.alloc(), cluster)
}

#[test]
fn eight_threads_at_once(rt: HostRuntime) -> Result<(), Fail> {
    let cluster = Cluster::read(rt.alloc(), built_in())?;
    race_on(&rt, rt.alloc(), cluster)
}
