ghost use Rattle.std.specs.Prelude.{◌≡◌, false, IfOk, OnOk, OnErr};
ghost use Rattle.std.specs.BTreeMap.{IsUnchanged};
ghost use Rattle.std.specs.FinMap as map;
ghost use Rattle.bucket_model.specs.declared.answer.Brief.TheVariants as brief;
ghost use Rattle.bucket_model.specs.Answers.{brief_of, brings_page};
ghost use Rattle.bucket_model.specs.Bucket.{staged_or_not, whole_of};
ghost use Rattle.mem_store.specs.Uploads.{Completes, with_part};

use crate::objects::put_version;
use crate::parts::Parts;
use bucket_model::{Answer, Object};
use bytes::Bytes;
use mp_types::{ETag, Key, Text};
use std::alloc::{AllocError, Global};
use std::collections::BTreeMap;
use std::marker::Model;

/// An upload that is neither complete nor given up.
#[derive(Drop)]
pub struct StagedUpload {
    key: Key,
    parts: Parts,
}

impl Model for StagedUpload {
    ghost use Rattle.bucket_model.specs.Bucket.{Staged};
    ghost use Rattle.mem_store.specs.Uploads.{staged_code};

    ghost Value = { Staged };

    ghost coded = { staged_code };

    ghost view = { λ a. record { key = a.key; parts = a.parts } };
}

impl StagedUpload {
    fn put_part(&mut self, number: u32, bytes: &Bytes) -> Result<(), AllocError>
        ensures ok { OnOk result (self.new ≡ record { key = self.old.key; parts = map.insert self.old.parts number bytes.now }) }
        ensures err { OnErr result (self.new ≡ self.old) }
    {
        self.parts.put(number, bytes.clone()?)
    }
}

/// The uploads that are neither complete nor given up, by their ids.
#[derive(Drop)]
pub struct Uploads {
    by_id: BTreeMap<u64, StagedUpload>,
}

impl Model for Uploads {
    ghost use Rattle.std.specs.FinMap as map;
    ghost use Rattle.std.specs.Ordering.{nat_cmp};
    ghost use Rattle.bucket_model.specs.Bucket.{Staged};
    ghost use Rattle.mem_store.specs.Uploads.{uploads_code};

    ghost Value = { map.FinMap nat_cmp Staged };

    ghost coded = { uploads_code };

    ghost view = { λ a. map.from_entries a.by_id.entries };
}

impl Uploads {
    /// No uploads. Takes no memory.
    pub fn new(alloc: Global) -> Self
        ensures { result ≡ map.empty }
    {
        Uploads {
            by_id: BTreeMap::new(alloc),
        }
    }

    /// Stages an upload of no parts under this id.
    pub fn create(&mut self, alloc: Global, upload: u64, key: &Key) -> Result<(), AllocError>
        ensures ok { OnOk result (self.new ≡ map.insert self.old upload (record { key = key.now; parts = map.empty })) }
        ensures err { OnErr result (self.new ≡ self.old) }
    {
        let key = key.share()?;
        let staged = StagedUpload {
            key,
            parts: Parts::new(alloc),
        };
        drop(self.by_id.insert(upload, staged)?);
        Ok(())
    }

    /// Stores a part of the upload, and answers UploadPart.
    pub fn put_part(
        &mut self,
        upload: u64,
        number: u32,
        bytes: &Bytes,
    ) -> Result<Answer, AllocError>
        ensures plain { IfOk result (λ answer. brings_page answer ≡ false) }
        ensures answer { IfOk result (λ answer. brief_of answer ≡ staged_or_not brief.Stored (map.get self.old upload)) }
        ensures ok { OnOk result (self.new ≡ with_part self.old upload number bytes.now (map.get self.old upload)) }
        ensures err { OnErr result (self.new ≡ self.old) }
    {
        let Some(staged) = self.by_id.get_mut(&upload) else {
            return Ok(Answer::NoUpload);
        };
        staged.put_part(number, bytes)?;
        Ok(Answer::Stored)
    }

    /// Where the upload's parts have just the numbers from 1 to `parts`: puts its object as the version with this
    /// number, takes the upload away, and answers the object's ETag. Else nothing changes.
    pub fn complete(
        &mut self,
        objects: &mut BTreeMap<Text, Object>,
        alloc: Global,
        upload: u64,
        parts: u32,
        number: u64,
    ) -> Result<Option<ETag>, AllocError>
        ensures ok { IfOk result (λ made. Completes upload number (whole_of parts (map.get self.old upload)) objects.old objects.new self.old self.new made) }
        ensures err_objects { OnErr result (IsUnchanged objects.old objects.new) }
        ensures err { OnErr result (self.new ≡ self.old) }
    {
        let Some(staged) = self.by_id.get(&upload) else {
            return Ok(None);
        };
        let Some(bytes) = staged.parts.joined(alloc, parts)? else {
            return Ok(None);
        };
        let put = put_version(objects, alloc, &staged.key, &bytes, number);
        drop(bytes);
        let etag = put?;
        drop(self.by_id.remove(&upload));
        Ok(Some(etag))
    }

    /// Gives the upload up, and answers AbortMultipartUpload. Takes no memory.
    pub fn abort(&mut self, upload: u64) -> Answer
        ensures plain { brings_page result ≡ false }
        ensures answer { brief_of result ≡ staged_or_not brief.Gone (map.get self.old upload) }
        ensures gone { self.new ≡ map.remove self.old upload }
    {
        match self.by_id.remove(&upload) {
            Some(_) => Answer::Gone,
            None => Answer::NoUpload,
        }
    }
}
