ghost use Rattle.std.specs.Prelude.{◌≡◌, ◌<◌, ◌≤◌, [], length, Some, IsOk, IfOk};
ghost use Rattle.bucket_model.specs.declared.call.Call.TheVariants.{Head, Probe, List, Get, Delete, Put, Create, Part, Complete, Abort};
ghost use Rattle.bucket_model.specs.Answers.{brief_of, max_parts};
ghost use Rattle.mp_types.specs.Options.{max_items};
ghost use Rattle.bucket_model.specs.Bucket.{IsSlice};
ghost use Rattle.bucket_model.specs.History.{IsLegalHistory, versions_of};
ghost use Rattle.mem_store.specs.Served.{IsServed, history_of};
ghost use Rattle.mem_store.specs.Laws.{honest_is_legal, position_is};

use crate::listing::list_page;
use crate::log::{log_answered, plain_brief};
use crate::objects::{
    finds_below, get_answer, head_answer, probe_answer, put_version, remove_object,
};
use crate::uploads::Uploads;
use bucket_model::{Answer, Brief, Call, Logged, Object};
use bytes::Bytes;
use mp_types::{ETag, Key, Text};
use std::alloc::{AllocError, Global};
use std::collections::BTreeMap;
use std::marker::Model;
use store_trait::Store;

/// A bucket in memory, seen by contracts as its log, which grows with each answered call.
/// Its n-th object version, from 1, has the ETag `v` and n in decimal, and its n-th upload the id n.
#[derive(Drop)]
pub struct MemStore {
    objects: BTreeMap<Text, Object>,
    uploads: Uploads,
    log: Vec<Logged>,
    // How many object versions, and how many uploads, were made so far.
    versions: u64,
    created: u64,
    alloc: Global,
}

impl Model for MemStore {
    ghost use Rattle.std.specs.Prelude.{List};
    ghost use Rattle.bucket_model.specs.declared.history.Logged.{Logged};
    ghost use Rattle.mem_store.specs.Kept.{IsKept};

    ghost Value = { List Logged };

    ghost view = { λ a. a.log.items };

    ghost invariant = { λ a. IsKept (record { objects = a.objects; uploads = a.uploads; versions = a.versions; created = a.created }) a.log.items };
}

impl MemStore {
    /// A bucket of no objects. Takes no memory.
    pub fn new(alloc: Global) -> Result<MemStore, AllocError>
        ensures ok { IsOk result }
        ensures empty { IfOk result (λ store. store ≡ []) }
        ensures honest { IfOk result (λ store. IsLegalHistory store) }
    {
        Ok(MemStore {
            objects: BTreeMap::new(alloc),
            uploads: Uploads::new(alloc),
            log: Vec::new(alloc),
            versions: 0,
            created: 0,
            alloc,
        })
    }

    fn head(&mut self, key: Key) -> (u64, Answer)
        ensures { IsServed (Head key) self.old self.new result.0 (brief_of result.1) }
    {
        let place = self.log.len() as u64;
        match self.log.reserve(1) {
            Ok(()) => {}
            Err(_) => {
                drop(key);
                return (place, Answer::NoMemory);
            }
        }
        let answer = head_answer(&self.objects, &key);
        log_answered(&mut self.log, Call::Head { key }, plain_brief(&answer));
        (place, answer)
    }

    fn probe(&mut self, key: Key) -> (u64, Answer)
        ensures { IsServed (Probe key) self.old self.new result.0 (brief_of result.1) }
    {
        let place = self.log.len() as u64;
        match self.log.reserve(1) {
            Ok(()) => {}
            Err(_) => {
                drop(key);
                return (place, Answer::NoMemory);
            }
        }
        let found = match finds_below(&self.objects, self.alloc, &key) {
            Ok(found) => found,
            Err(_) => {
                drop(key);
                return (place, Answer::NoMemory);
            }
        };
        let answer = probe_answer(found);
        log_answered(&mut self.log, Call::Probe { key }, plain_brief(&answer));
        (place, answer)
    }

    fn list(&mut self, prefix: Text, after: Text, max: u32) -> (u64, Answer)
        requires low { 1 ≤ max }
        requires high { max ≤ max_items }
        ensures { IsServed (List prefix after max) self.old self.new result.0 (brief_of result.1) }
    {
        let place = self.log.len() as u64;
        match self.log.reserve(1) {
            Ok(()) => {}
            Err(_) => {
                drop(prefix);
                drop(after);
                return (place, Answer::NoMemory);
            }
        }
        let page = match list_page(&self.objects, self.alloc, &prefix, &after, max) {
            Ok(page) => page,
            Err(_) => {
                drop(prefix);
                drop(after);
                return (place, Answer::NoMemory);
            }
        };
        let shared = match page.share() {
            Ok(shared) => shared,
            Err(_) => {
                drop(page);
                drop(prefix);
                drop(after);
                return (place, Answer::NoMemory);
            }
        };
        let call = Call::List { prefix, after, max };
        log_answered(&mut self.log, call, Brief::Page(shared));
        (place, Answer::Page(page))
    }

    fn get(&mut self, key: Key, etag: ETag, from: u64, to: u64) -> (u64, Answer)
        requires { from < to }
        ensures served { IsServed (Get key etag from to) self.old self.new result.0 (brief_of result.1) }
        ensures slice { IsSlice (versions_of self.new) (Get key etag from to) result.1 }
    {
        let place = self.log.len() as u64;
        match self.log.reserve(1) {
            Ok(()) => {}
            Err(_) => {
                drop(key);
                drop(etag);
                return (place, Answer::NoMemory);
            }
        }
        let answer = match get_answer(&self.objects, &key, &etag, from, to) {
            Ok(answer) => answer,
            Err(_) => {
                drop(key);
                drop(etag);
                return (place, Answer::NoMemory);
            }
        };
        let call = Call::Get {
            key,
            etag,
            from,
            to,
        };
        log_answered(&mut self.log, call, plain_brief(&answer));
        (place, answer)
    }

    fn delete(&mut self, key: Key) -> (u64, Answer)
        ensures { IsServed (Delete key) self.old self.new result.0 (brief_of result.1) }
    {
        let place = self.log.len() as u64;
        match self.log.reserve(1) {
            Ok(()) => {}
            Err(_) => {
                drop(key);
                return (place, Answer::NoMemory);
            }
        }
        remove_object(&mut self.objects, &key);
        let answer = Answer::Gone;
        log_answered(&mut self.log, Call::Delete { key }, plain_brief(&answer));
        (place, answer)
    }

    fn put(&mut self, key: Key, bytes: Bytes) -> (u64, Answer)
        ensures { IsServed (Put key bytes) self.old self.new result.0 (brief_of result.1) }
    {
        let place = self.log.len() as u64;
        match self.log.reserve(1) {
            Ok(()) => {}
            Err(_) => {
                drop(key);
                drop(bytes);
                return (place, Answer::NoMemory);
            }
        }
        let number = self.versions + 1;
        let answer = match put_version(&mut self.objects, self.alloc, &key, &bytes, number) {
            Ok(etag) => Answer::Made(etag),
            Err(_) => {
                drop(key);
                drop(bytes);
                return (place, Answer::NoMemory);
            }
        };
        self.versions = number;
        log_answered(
            &mut self.log,
            Call::Put { key, bytes },
            plain_brief(&answer),
        );
        (place, answer)
    }

    fn create(&mut self, key: Key) -> (u64, Answer)
        ensures { IsServed (Create key) self.old self.new result.0 (brief_of result.1) }
    {
        let place = self.log.len() as u64;
        match self.log.reserve(1) {
            Ok(()) => {}
            Err(_) => {
                drop(key);
                return (place, Answer::NoMemory);
            }
        }
        let upload = self.created + 1;
        match self.uploads.create(self.alloc, upload, &key) {
            Ok(()) => {}
            Err(_) => {
                drop(key);
                return (place, Answer::NoMemory);
            }
        }
        self.created = upload;
        let answer = Answer::Upload(upload);
        log_answered(&mut self.log, Call::Create { key }, plain_brief(&answer));
        (place, answer)
    }

    fn part(&mut self, upload: u64, number: u32, bytes: Bytes) -> (u64, Answer)
        requires low { 1 ≤ number }
        requires high { number ≤ max_parts }
        ensures { IsServed (Part upload number bytes) self.old self.new result.0 (brief_of result.1) }
    {
        let place = self.log.len() as u64;
        match self.log.reserve(1) {
            Ok(()) => {}
            Err(_) => {
                drop(bytes);
                return (place, Answer::NoMemory);
            }
        }
        let answer = match self.uploads.put_part(upload, number, &bytes) {
            Ok(answer) => answer,
            Err(_) => {
                drop(bytes);
                return (place, Answer::NoMemory);
            }
        };
        let call = Call::Part {
            upload,
            number,
            bytes,
        };
        log_answered(&mut self.log, call, plain_brief(&answer));
        (place, answer)
    }

    fn complete(&mut self, upload: u64, parts: u32) -> (u64, Answer)
        requires { 1 ≤ parts }
        ensures { IsServed (Complete upload parts) self.old self.new result.0 (brief_of result.1) }
    {
        let place = self.log.len() as u64;
        match self.log.reserve(1) {
            Ok(()) => {}
            Err(_) => return (place, Answer::NoMemory),
        }
        let number = self.versions + 1;
        match self
            .uploads
            .complete(&mut self.objects, self.alloc, upload, parts, number)
        {
            Ok(Some(etag)) => {
                self.versions = number;
                let call = Call::Complete { upload, parts };
                log_answered(&mut self.log, call, Brief::Made(etag.copy()));
                (place, Answer::Made(etag))
            }
            Ok(None) => {
                let call = Call::Complete { upload, parts };
                log_answered(&mut self.log, call, Brief::NoUpload);
                (place, Answer::NoUpload)
            }
            Err(_) => (place, Answer::NoMemory),
        }
    }

    fn abort(&mut self, upload: u64) -> (u64, Answer)
        ensures { IsServed (Abort upload) self.old self.new result.0 (brief_of result.1) }
    {
        let place = self.log.len() as u64;
        match self.log.reserve(1) {
            Ok(()) => {}
            Err(_) => return (place, Answer::NoMemory),
        }
        let answer = self.uploads.abort(upload);
        log_answered(&mut self.log, Call::Abort { upload }, plain_brief(&answer));
        (place, answer)
    }
}

impl Store for MemStore {
    ghost history = { λ log. Some (history_of log) };

    ghost position = { λ log. length log };

    ghost faults = { λ _. 0 };

    ghost is_alone = { λ _. Unit {0} };

    ghost never_fails = { λ _. Unit {0} };

    ghost is_honest = { λ log. IsLegalHistory log };

    fn call(&mut self, call: Call) -> (u64, Answer) {
        match call {
            Call::Head { key } => self.head(key),
            Call::Probe { key } => self.probe(key),
            Call::List { prefix, after, max } => self.list(prefix, after, max),
            Call::Get {
                key,
                etag,
                from,
                to,
            } => self.get(key, etag, from, to),
            Call::Delete { key } => self.delete(key),
            Call::Put { key, bytes } => self.put(key, bytes),
            Call::Create { key } => self.create(key),
            Call::Part {
                upload,
                number,
                bytes,
            } => self.part(upload, number, bytes),
            Call::Complete { upload, parts } => self.complete(upload, parts),
            Call::Abort { upload } => self.abort(upload),
        }
    }

    fn mark(&self) -> u64 {
        self.log.len() as u64
    }

    ghost position_is = { position_is };

    ghost honest_is_legal = { honest_is_legal };
}
