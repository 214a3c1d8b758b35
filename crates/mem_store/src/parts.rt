ghost use Rattle.std.specs.Prelude.{◌≡◌, ◌^◌, ◌-◌, [], length, min, if◌then◌else◌, Some, None, IfOk, OnOk, OnErr, option_map, option_copied};
ghost use Rattle.std.specs.FinMap as map;
ghost use Rattle.bucket_model.specs.Bucket.{joined_from};
ghost use Rattle.mem_store.specs.Uploads.{whole_bytes};

use bytes::Bytes;
use std::alloc::{AllocError, Global};
use std::collections::BTreeMap;
use std::marker::Model;

/// The parts of an upload by their numbers. Their bytes are shared with the calls that brought them.
#[derive(Drop)]
pub struct Parts {
    by_number: BTreeMap<u32, Bytes>,
}

impl Model for Parts {
    ghost use Rattle.std.specs.Prelude.{List, ℕ};
    ghost use Rattle.std.specs.FinMap as map;
    ghost use Rattle.std.specs.Ordering.{nat_cmp};
    ghost use Rattle.mem_store.specs.Uploads.{parts_code};

    ghost Value = { map.FinMap nat_cmp (List ℕ) };

    ghost coded = { parts_code };

    ghost view = { λ a. map.from_entries a.by_number.entries };
}

impl Parts {
    /// No parts. Takes no memory.
    pub fn new(alloc: Global) -> Self
        ensures { result ≡ map.empty }
    {
        Parts {
            by_number: BTreeMap::new(alloc),
        }
    }

    /// Stores a part. It replaces an earlier one of its number.
    pub fn put(&mut self, number: u32, bytes: Bytes) -> Result<(), AllocError>
        ensures ok { OnOk result (self.new ≡ map.insert self.old number bytes) }
        ensures err { OnErr result (self.new ≡ self.old) }
    {
        self.by_number.insert(number, bytes)?;
        Ok(())
    }

    fn get(&self, number: u32) -> Option<&Bytes>
        ensures { option_copied result ≡ map.get self.now number }
    {
        self.by_number.get(&number)
    }

    fn len(&self) -> usize
        ensures { result ≡ map.len self.now }
    {
        self.by_number.len()
    }

    // How many bytes the parts from 1 to the count have together, at most the greatest `usize`, where each is there.
    fn size(&self, count: u32) -> Option<usize>
        ensures { result ≡ option_map (λ bytes. min (length bytes) (2 ^ 64 - 1)) (joined_from self.now 1 count) }
    {
        let mut size = 0usize;
        for place in 1..=count {
            match self.get(place) {
                Some(part) => size = size.saturating_add(part.len()),
                None => return None,
            }
        }
        Some(size)
    }

    // Adds the parts from 1 to the count, by number, and says whether each is there.
    fn add_parts(&self, count: u32, bytes: &mut Vec<u8>) -> Result<bool, AllocError>
        requires { bytes.old.items ≡ [] }
        ensures { IfOk result (λ all. (if all then Some bytes.new.items else None) ≡ joined_from self.now 1 count) }
    {
        for number in 1..=count {
            match self.get(number) {
                Some(part) => bytes.extend_from_slice(part.as_slice())?,
                None => return Ok(false),
            }
        }
        Ok(true)
    }

    /// The parts joined by number, where their numbers are just those from 1 to the count.
    pub fn joined(&self, alloc: Global, count: u32) -> Result<Option<Bytes>, AllocError>
        ensures { IfOk result (λ made. made ≡ whole_bytes count self.now) }
    {
        if self.len() != count as usize {
            return Ok(None);
        }
        let Some(size) = self.size(count) else {
            return Ok(None);
        };
        let mut bytes = Vec::with_capacity(alloc, size)?;
        match self.add_parts(count, &mut bytes) {
            Ok(true) => Ok(Some(Bytes::from_vec(bytes)?)),
            Ok(false) => {
                drop(bytes);
                Ok(None)
            }
            Err(error) => {
                drop(bytes);
                Err(error)
            }
        }
    }
}
