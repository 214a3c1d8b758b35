//! The program: one script served on one thread, over an empty bucket in memory.
//! `run` carries the whole promise; `main` only makes the real objects and tells the status.
#![tactic(auto)]

ghost use Rattle.std.specs.Prelude.{◌≡◌, ◌↔◌, IfErr};
ghost use Rattle.std.specs.IoError.{error_kind};
ghost use Rattle.std.specs.declared.io.ErrorKind.TheVariants.{OutOfMemory};
ghost use Rattle.mount_one.specs.Statuses.{IsUnread};

mod message;
mod reading;
mod served;
mod status;
#[cfg(test)]
mod tests;

use mem_store::MemStore;
use message::tell;
use mp_io::{StdClock, StdSink, StdSource};
use mp_types::Text;
use served::run;
use status::Status;
use std::{env, io, process};

// The words behind the program's name.
fn words_of(rt: &HostRuntime) -> Result<Vec<Text>, Status>
    ensures { IfErr result IsUnread }
{
    let mut words = Vec::new(rt.alloc());
    let arguments = match env::args(rt) {
        Ok(arguments) => arguments,
        Err(error) => return Err(refusal_of(&error)),
    };
    for word in arguments.skip(1) {
        let word = match Text::from_string(word) {
            Ok(word) => word,
            Err(_) => return Err(Status::NoMemory),
        };
        match words.push(word) {
            Ok(()) => {}
            Err(_) => return Err(Status::NoMemory),
        }
    }
    Ok(words)
}

// A word that isn't UTF-8 is none that the program knows.
fn refusal_of(error: &io::Error) -> Status
    ensures memory { (result ≡ Status.NoMemory) ↔ (error_kind error.now ≡ OutOfMemory) }
    ensures unread { IsUnread result }
{
    match error.kind() {
        io::ErrorKind::OutOfMemory => Status::NoMemory,
        _ => Status::Usage,
    }
}

fn served_on_host(rt: &HostRuntime) -> Status {
    let words = match words_of(rt) {
        Ok(words) => words,
        Err(status) => return status,
    };
    let mut source = StdSource::new(rt.reader());
    let mut sink = StdSink::new(io::writer(rt));
    let mut clock = StdClock::new(rt);
    match MemStore::new(rt.alloc()) {
        Ok(mut store) => run(
            rt.alloc(),
            words.as_slice(),
            &mut source,
            &mut sink,
            &mut store,
            &mut clock,
        ),
        Err(_) => Status::NoMemory,
    }
}

fn main(rt: HostRuntime) -> process::ExitCode {
    let status = served_on_host(&rt);
    // Where standard error fails too, the exit status still tells.
    let _ = tell(&rt, status);
    process::ExitCode::from(status.code())
}
