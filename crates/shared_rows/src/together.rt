ghost use Rattle.std.specs.Prelude.{◌≡◌, IfSome, ◌<◌};

use crate::calls::{get, head, put};
use crate::printed::{print_count, print_number};
use bucket_model::Answer;
use bytes::Bytes;
use mp_types::ETag;
use std::alloc::{AllocError, Global};
use std::sync::Wait;
use std::thread::{Threads, join};
use store_trait::Bucket;

// A thread.
#[derive(Clone, Copy)]
enum Worker {
    A,
    B,
    C,
    D,
}

impl Worker {
    // The key that is its own.
    fn key(self) -> &'static str {
        match self {
            Worker::A => "a",
            Worker::B => "b",
            Worker::C => "c",
            Worker::D => "d",
        }
    }
}

// What one thread was answered: the positions of its entries, and the answers without them.
#[derive(Drop)]
struct Report {
    positions: Vec<u64>,
    answers: Vec<u8>,
}

// A thread's pass when the thread has ended. An error says that there was no memory.
#[derive(Drop)]
struct Ended<P> {
    pass: P,
    report: Result<Report, AllocError>,
}

// The ETag of the object that was made.
fn made(answer: Answer) -> Option<ETag> {
    match answer {
        Answer::Made(etag) => Some(etag),
        other => {
            drop(other);
            None
        }
    }
}

// The size of the object with this ETag, which isn't empty.
fn size_of(answer: &Answer, made: &ETag) -> Option<u64>
    ensures { IfSome result (λ size. 0 < size) }
{
    match answer {
        Answer::Found { etag, size } if etag == made && *size > 0 => Some(*size),
        _ => None,
    }
}

// The bytes that a get brought.
fn bytes_of(answer: Answer) -> Option<Bytes> {
    match answer {
        Answer::Bytes(bytes) => Some(bytes),
        other => {
            drop(other);
            None
        }
    }
}

// Puts the text at the thread's own key, and reads it again.
fn play_round<B: Bucket, R: Wait>(
    rt: &R,
    alloc: Global,
    bucket: &B,
    pass: &mut B::Pass,
    key: &str,
    text: &[u8],
    report: &mut Report,
) -> Result<(), AllocError>
    requires { B.name_of pass.old ≡ B.name bucket.now }
    ensures { B.name_of pass.new ≡ B.name_of pass.old }
{
    let (position, answer) = bucket.call(rt, pass, put(alloc, key, text)?);
    report.positions.push(position)?;
    let Some(etag) = made(answer) else {
        return report.answers.extend_from_slice(b" otherwise");
    };
    let (position, answer) = bucket.call(rt, pass, head(alloc, key)?);
    report.positions.push(position)?;
    let Some(size) = size_of(&answer, &etag) else {
        return report.answers.extend_from_slice(b" otherwise");
    };
    report.answers.extend_from_slice(b" made found ")?;
    print_number(&mut report.answers, size)?;
    let (position, answer) = bucket.call(rt, pass, get(alloc, key, etag, size)?);
    report.positions.push(position)?;
    let Some(bytes) = bytes_of(answer) else {
        return report.answers.extend_from_slice(b" otherwise");
    };
    report.answers.extend_from_slice(b" bytes ")?;
    report.answers.extend_from_slice(bytes.as_slice())
}

fn play_rounds<B: Bucket, R: Wait>(
    rt: &R,
    alloc: Global,
    bucket: &B,
    pass: &mut B::Pass,
    key: &str,
    report: &mut Report,
) -> Result<(), AllocError>
    requires { B.name_of pass.old ≡ B.name bucket.now }
    ensures { B.name_of pass.new ≡ B.name_of pass.old }
{
    play_round(rt, alloc, bucket, pass, key, b"1", report)?;
    play_round(rt, alloc, bucket, pass, key, b"22", report)?;
    play_round(rt, alloc, bucket, pass, key, b"333", report)
}

// All that one thread does.
fn work<B: Bucket, R: Wait>(
    rt: &R,
    alloc: Global,
    bucket: &B,
    pass: B::Pass,
    worker: Worker,
) -> Ended<B::Pass>
    requires { B.name_of pass ≡ B.name bucket.now }
    ensures { B.name_of result.pass ≡ B.name bucket.now }
{
    let mut pass = pass;
    let mut report = Report {
        positions: Vec::new(alloc),
        answers: Vec::new(alloc),
    };
    match play_rounds(rt, alloc, bucket, &mut pass, worker.key(), &mut report) {
        Ok(()) => Ended {
            pass,
            report: Ok(report),
        },
        Err(error) => {
            drop(report);
            Ended {
                pass,
                report: Err(error),
            }
        }
    }
}

// Two threads.
fn work_twice<B: Bucket + Sync, R: Threads + Wait + Sync>(
    rt: &R,
    alloc: Global,
    bucket: &B,
    one: B::Pass,
    other: B::Pass,
    workers: (Worker, Worker),
) -> (Ended<B::Pass>, Ended<B::Pass>)
where
    B::Pass: Send + Drop,
    requires one { B.name_of one ≡ B.name bucket.now }
    requires other { B.name_of other ≡ B.name bucket.now }
    ensures one { B.name_of result.0.pass ≡ B.name bucket.now }
    ensures other { B.name_of result.1.pass ≡ B.name bucket.now }
{
    let (low, high) = workers;
    join(
        rt,
        move ||
            requires { B.name_of one ≡ B.name bucket.now }
            ensures { B.name_of result.pass ≡ B.name bucket.entry.now }
        { work(rt, alloc, bucket, one, low) },
        move ||
            requires { B.name_of other ≡ B.name bucket.now }
            ensures { B.name_of result.pass ≡ B.name bucket.entry.now }
        { work(rt, alloc, bucket, other, high) },
    )
}

// Meets the thread's pass, and prints a line of what it was answered.
fn gather<B: Bucket>(
    bucket: &B,
    pass: &mut B::Pass,
    ended: Ended<B::Pass>,
    positions: &mut Vec<u64>,
    worker: Worker,
    printed: &mut Vec<u8>,
) -> Result<(), AllocError>
    requires pass { B.name_of pass.old ≡ B.name bucket.now }
    requires ended { B.name_of ended.pass ≡ B.name bucket.now }
    ensures { B.name_of pass.new ≡ B.name_of pass.old }
{
    let Ended {
        pass: other,
        report,
    } = ended;
    bucket.meet(pass, other);
    let report = report?;
    positions.extend_from_slice(report.positions.as_slice())?;
    printed.extend_from_slice(worker.key().as_bytes())?;
    printed.extend_from_slice(b":")?;
    printed.extend_from_slice(report.answers.as_slice())?;
    printed.extend_from_slice(b"\n")
}

// Whether the positions are those from 0 on, each once.
fn are_all(positions: &[u64]) -> bool {
    positions
        .iter()
        .enumerate()
        .all(|(place, position)| *position == place as u64)
}

fn print_positions(printed: &mut Vec<u8>, positions: &[u64]) -> Result<(), AllocError> {
    if are_all(positions) {
        return print_count(
            printed,
            b"positions from 0 on, each once",
            positions.len() as u64,
        );
    }
    printed.extend_from_slice(b"positions:")?;
    for position in positions {
        printed.extend_from_slice(b" ")?;
        print_number(printed, *position)?;
    }
    printed.extend_from_slice(b"\n")
}

/// Four threads, each through a pass of its own and with a key of its own. Then the pass meets theirs.
pub fn play_together<B: Bucket + Sync, R: Threads + Wait + Sync>(
    rt: &R,
    alloc: Global,
    bucket: &B,
    pass: &mut B::Pass,
    printed: &mut Vec<u8>,
) -> Result<(), AllocError>
where
    B::Pass: Send + Drop,
    requires pass { B.name_of pass.old ≡ B.name bucket.now }
    ensures { B.name_of pass.new ≡ B.name_of pass.old }
{
    let mut positions = Vec::new(alloc);
    let first = bucket.note(pass);
    let second = bucket.note(pass);
    let third = bucket.note(pass);
    let fourth = bucket.note(pass);
    let (low, high) = join(
        rt,
        move ||
            requires one { B.name_of first ≡ B.name bucket.now }
            requires other { B.name_of second ≡ B.name bucket.now }
            ensures one { B.name_of result.0.pass ≡ B.name bucket.entry.now }
            ensures other { B.name_of result.1.pass ≡ B.name bucket.entry.now }
        { work_twice(rt, alloc, bucket, first, second, (Worker::A, Worker::B)) },
        move ||
            requires one { B.name_of third ≡ B.name bucket.now }
            requires other { B.name_of fourth ≡ B.name bucket.now }
            ensures one { B.name_of result.0.pass ≡ B.name bucket.entry.now }
            ensures other { B.name_of result.1.pass ≡ B.name bucket.entry.now }
        { work_twice(rt, alloc, bucket, third, fourth, (Worker::C, Worker::D)) },
    );
    let (a, b) = low;
    let (c, d) = high;
    gather(bucket, pass, a, &mut positions, Worker::A, printed)?;
    gather(bucket, pass, b, &mut positions, Worker::B, printed)?;
    gather(bucket, pass, c, &mut positions, Worker::C, printed)?;
    gather(bucket, pass, d, &mut positions, Worker::D, printed)?;
    positions.sort()?;
    print_positions(printed, positions.as_slice())?;
    print_count(printed, b"seen by the pass that met all", bucket.mark(pass))
}
