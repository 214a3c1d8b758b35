//! Calls one bucket from several passes, first on one thread and then on four, and prints what each is answered: the test of
//! the bucket that threads share. What is printed is the same in whatever order the threads come.
#![tactic(auto)]

mod alone;
mod calls;
mod printed;
mod together;

use crate::printed::print_count;
use alone::play_alone;
use mem_store::MemStore;
use shared_bucket::SharedBucket;
use std::alloc::{AllocError, Global};
use std::io;
use std::io::Write;
use std::sync::Wait;
use std::thread::Threads;
use store_trait::{Bucket, Store};
use together::play_together;

// Two passes on one thread.
fn play_first<R: Wait>(rt: &R, alloc: Global, printed: &mut Vec<u8>) -> Result<(), AllocError> {
    match SharedBucket::new(alloc, MemStore::new(alloc)?) {
        Ok((bucket, mut first)) => {
            let mut second = bucket.note(&mut first);
            let played = play_alone(rt, alloc, &bucket, first, &mut second, printed);
            let store = bucket.close(rt, second);
            let entries = store.mark();
            drop(store);
            played?;
            print_count(printed, b"entries", entries)
        }
        Err(failed) => {
            drop(failed);
            Err(AllocError)
        }
    }
}

// Four threads, each with a pass of its own.
fn play_second<R: Threads + Wait + Sync>(
    rt: &R,
    alloc: Global,
    printed: &mut Vec<u8>,
) -> Result<(), AllocError> {
    match SharedBucket::new(alloc, MemStore::new(alloc)?) {
        Ok((bucket, mut pass)) => {
            let played = play_together(rt, alloc, &bucket, &mut pass, printed);
            let store = bucket.close(rt, pass);
            let entries = store.mark();
            drop(store);
            played?;
            print_count(printed, b"entries", entries)
        }
        Err(failed) => {
            drop(failed);
            Err(AllocError)
        }
    }
}

fn main(rt: HostRuntime) -> io::Result<()> {
    let alloc = rt.alloc();
    let mut printed = Vec::new(alloc);
    play_first(&rt, alloc, &mut printed)?;
    play_second(&rt, alloc, &mut printed)?;
    io::writer(&rt).write_all(printed.as_slice())
}
