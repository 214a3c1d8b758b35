use crate::telling::tell_counted;
use crate::walk::tell_refusal;
use crate::words::{key, number, two};
use bucket_model::Brief;
use local_names::Locals;
use mount_model::{Handle, Heard, Reply, Request, Told, Version};
use mount_plan::{LinePlan, Plan, View, plan};
use mp_types::{ETag, Opts};
use part_uploader::Uploader;
use std::alloc::{AllocError, Global};

fn answer(word: &str) -> Option<Brief> {
    match word {
        "bytes" => Some(Brief::Bytes { length: 3 }),
        "changed" => Some(Brief::Changed),
        "missing" => Some(Brief::Missing),
        "fault" => Some(Brief::Fault),
        "lack" => Some(Brief::NoMemory),
        _ => None,
    }
}

// A handle on an object of 10 bytes.
fn live(alloc: Global) -> Option<Handle<Uploader>> {
    let (key, etag) = key(alloc, "a").zip(ETag::parse("v1").ok())?;
    let version = Version {
        key,
        etag,
        size: 10,
    };
    Some(Handle::Reading { line: 1, version })
}

fn tell_range(printed: &mut String, from: u64, to: u64) -> Result<(), AllocError> {
    tell_counted(printed, "get ", from)?;
    tell_counted(printed, " ", to)
}

fn tell_plan(printed: &mut String, plan: &LinePlan<'_>) -> Result<(), AllocError> {
    match plan {
        LinePlan::Get { from, to, .. } => tell_range(printed, *from, *to),
        LinePlan::Give { count } => tell_counted(printed, "bytes ", *count),
        LinePlan::Reply(Reply::Failed(errno)) => tell_refusal(printed, *errno),
        _ => printed.push_str("another plan"),
    }
}

fn tell(printed: &mut String, plan: &Plan<'_>) -> Result<(), AllocError> {
    match plan {
        Plan::Line(plan) => tell_plan(printed, plan),
        _ => printed.push_str("another plan"),
    }
}

fn tell_read(
    names: &Locals,
    handle: &Handle<Uploader>,
    request: &Request,
    heard: &Heard,
    last: Option<&Told>,
    printed: &mut String,
) -> Result<(), AllocError> {
    let view = View {
        line: 2,
        options: Opts::default(),
        handle: Some(handle),
        live: 1,
        names,
    };
    let plan = plan(view, request, heard, last);
    let told = tell(printed, &plan);
    drop(plan);
    told
}

// What a read does that has this answer, if it has one.
fn read_by(
    alloc: Global,
    names: &Locals,
    request: &Request,
    last: Option<&Told>,
    printed: &mut String,
) -> Option<()> {
    let handle = live(alloc)?;
    let heard = Heard::new(alloc);
    let told = tell_read(names, &handle, request, &heard, last, printed);
    drop(heard);
    drop(handle);
    told.ok()
}

// The read of `count` bytes from this place on.
fn read_of(offset: u64, count: u64) -> Request {
    Request::Read {
        handle: 3,
        offset,
        count,
    }
}

/// What a read does before its call.
pub fn asks(alloc: Global, names: &Locals, words: &str, printed: &mut String) -> Option<()> {
    let (offset, count) = two(words)?;
    let request = read_of(number(offset)?, number(count)?);
    let told = read_by(alloc, names, &request, None, printed);
    drop(request);
    told
}

/// What a read of 3 bytes from place 2 on does by the answer to its call.
pub fn answered(alloc: Global, names: &Locals, words: &str, printed: &mut String) -> Option<()> {
    let last = Told::Answer(answer(words)?);
    let request = read_of(2, 3);
    let told = read_by(alloc, names, &request, Some(&last), printed);
    drop(request);
    drop(last);
    told
}
