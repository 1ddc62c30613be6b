//! Messages whose device calls fail, one after the other.

ghost use Rattle.std.specs.Prelude.{◌≤◌};

use crate::object::{Request, place};
use crate::server::Server;
use anyhow::{Result, ensure};
use std::alloc::Global;
use std::fmt;
use sw_memdisk::MemDisk;

/// A message to the node of a device, and how many device calls it makes there.
#[derive(Clone, Copy)]
struct Case {
    request: Request,
    device: u16,
    calls: u64,
}

// Devices 0 to 2 are primaries of every place, and device 3 is a handoff.
const CASES: [Case; 5] = [
    Case {
        request: Request::PutFrag(2, 0),
        device: 0,
        calls: 5,
    },
    Case {
        request: Request::Commit(1, 0),
        device: 0,
        calls: 5,
    },
    Case {
        request: Request::Delete(2),
        device: 0,
        calls: 8,
    },
    Case {
        request: Request::Fetch(0, 0),
        device: 0,
        calls: 2,
    },
    Case {
        request: Request::Remove(0, 0),
        device: 3,
        calls: 3,
    },
];

// What each begins with: the archive of index 0 durable at one stamp, and plain at the next.
const BEGINNING: [Request; 3] = [
    Request::PutFrag(0, 0),
    Request::Commit(0, 0),
    Request::PutFrag(1, 0),
];

// How many device calls mounting the empty disk and the beginning make.
const BEGUN: u64 = 14;

/// The call of a message that fails, by its number, if any does.
#[derive(Clone, Copy)]
struct Failing(Option<u64>);

impl fmt::Display for Failing {
    fn fmt<W: fmt::Write>(&self, f: &mut fmt::Formatter<W>) -> fmt::Result {
        match self.0 {
            Some(call) => write!(f, "call {} fails", call),
            None => f.write_str("no call fails"),
        }
    }
}

/// What a message was answered, which files the folder then had, and what an Ask that followed was answered.
#[derive(Drop)]
struct Tried {
    reply: String,
    names: String,
    held: String,
}

/// Fails each device call of each message, and none at last, and prints the reply, the names of the folder's files, and what
/// an Ask that follows is answered.
pub fn try_messages(rt: &(impl Print + AllocGlobal)) -> Result<()> {
    for case in CASES {
        for call in 1..=case.calls {
            print_run(rt, case, Failing(Some(call)))?;
        }
        print_run(rt, case, Failing(None))?;
    }
    Ok(())
}

// One run, printed.
fn print_run(rt: &(impl Print + AllocGlobal), case: Case, failing: Failing) -> Result<()> {
    let tried = try_once(rt.alloc(), case, failing)?;
    println!(rt; "{}, {}: {}", case.request, failing, tried.reply)?;
    println!(rt; " {}", tried.names)?;
    println!(rt; "  {}", tried.held)?;
    Ok(())
}

// One run. Its disk, mounted anew, has the same folder.
fn try_once(alloc: Global, case: Case, failing: Failing) -> Result<Tried> {
    let mut server = prepared(alloc, case.device, failing)?;
    let reply = case.request.tell(alloc, &mut server)?;
    ensure!(
        server.disk().calls() == BEGUN.saturating_add(failing.0.unwrap_or(case.calls)),
        "it makes another number of calls"
    );
    let names = names(alloc, &server)?;
    let held = Request::Ask.tell(alloc, &mut server)?;
    let again = tell_anew(alloc, case.device, server.stop())?;
    ensure!(again == held, "mounted anew it has another folder");
    Ok(Tried { reply, names, held })
}

// The server of a device with the beginning, of whose disk a later call fails.
fn prepared(alloc: Global, device: u16, failing: Failing) -> Result<Server> {
    let mut calls = Vec::new(alloc);
    if let Some(call) = failing.0 {
        calls.push(BEGUN.saturating_add(call))?;
    }
    let mut server = Server::start(alloc, device, MemDisk::new(alloc, 1 << 20, calls))?;
    for request in BEGINNING {
        let _ = request.tell(alloc, &mut server)?;
    }
    Ok(server)
}

// The names of the files in the object's folder, each behind a space.
fn names(alloc: Global, server: &Server) -> Result<String> {
    let folder = place(alloc, server.cluster())?.folder(alloc)?;
    let mut names = String::new(alloc);
    for place in 0..99 {
        let Some(name) = server.disk().name_at(folder.as_str(), place) else {
            break;
        };
        names.push_str(" ")?;
        names.push_str(name)?;
    }
    Ok(names)
}

// What an Ask is answered over a disk that is mounted anew.
fn tell_anew(alloc: Global, device: u16, disk: MemDisk) -> Result<String> {
    let mut server = Server::start(alloc, device, disk)?;
    Request::Ask.tell(alloc, &mut server)
}
