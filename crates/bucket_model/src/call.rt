ghost use Rattle.std.specs.Prelude.{◌≡◌, IfOk};
ghost use Rattle.bucket_model.specs.declared.call.Call.TheVariants.{List, Put};

use bytes::Bytes;
use mp_types::{ETag, Key, Text};
use std::alloc::AllocError;

/// A call of a bucket.
#[derive(Debug, Drop)]
pub enum Call {
    /// HeadObject: the ETag and the size of the object at the key.
    Head {
        key: Key,
    },
    /// ListObjectsV2 of one item: whether some key begins with this one followed by `/`.
    Probe {
        key: Key,
    },
    /// ListObjectsV2 with the delimiter `/`: the first `max` items of the prefix whose texts stand behind `after`. The
    /// empty text stands before every item. `max` is from 1 to 1,000.
    List {
        prefix: Text,
        after: Text,
        max: u32,
    },
    /// GetObject with a range and If-Match: the bytes `from..to` of the object at the key, where it still has
    /// this ETag. `from` is less than `to`.
    Get {
        key: Key,
        etag: ETag,
        from: u64,
        to: u64,
    },
    /// DeleteObject: no object stands at the key from now on. It succeeds where none stood there too.
    Delete {
        key: Key,
    },
    /// PutObject: the object at the key is replaced by these bytes.
    Put {
        key: Key,
        bytes: Bytes,
    },
    /// CreateMultipartUpload: a new upload of an object for the key, without parts.
    Create {
        key: Key,
    },
    /// UploadPart: the part of this number, from 1 to 10,000, replaces an earlier one.
    Part {
        upload: u64,
        number: u32,
        bytes: Bytes,
    },
    /// CompleteMultipartUpload: the upload's object is made of its parts, joined by number, where their numbers are
    /// just those from 1 to `parts`, and the upload is gone. `parts` is at least 1.
    Complete {
        upload: u64,
        parts: u32,
    },
    /// AbortMultipartUpload: the upload is gone and never shows.
    Abort {
        upload: u64,
    },
}

fn shared_list(prefix: &Text, after: &Text, max: u32) -> Result<Call, AllocError>
    ensures { IfOk result (λ shared. shared ≡ List prefix.now after.now max) }
{
    let prefix = prefix.share()?;
    match after.share() {
        Ok(after) => Ok(Call::List { prefix, after, max }),
        Err(error) => {
            drop(prefix);
            Err(error)
        }
    }
}

fn shared_put(key: &Key, bytes: &Bytes) -> Result<Call, AllocError>
    ensures { IfOk result (λ shared. shared ≡ Put key.now bytes.now) }
{
    let bytes = bytes.clone()?;
    match key.share() {
        Ok(key) => Ok(Call::Put { key, bytes }),
        Err(error) => {
            drop(bytes);
            Err(error)
        }
    }
}

impl Call {
    /// An equal call that shares its texts and bytes. Takes no memory: an error says that they have too many owners.
    pub fn share(&self) -> Result<Self, AllocError>
        ensures { IfOk result (λ shared. shared ≡ self.now) }
    {
        match self {
            Call::Head { key } => {
                let key = key.share()?;
                Ok(Call::Head { key })
            }
            Call::Probe { key } => {
                let key = key.share()?;
                Ok(Call::Probe { key })
            }
            Call::List { prefix, after, max } => shared_list(prefix, after, *max),
            Call::Get {
                key,
                etag,
                from,
                to,
            } => {
                let key = key.share()?;
                Ok(Call::Get {
                    key,
                    etag: etag.copy(),
                    from: *from,
                    to: *to,
                })
            }
            Call::Delete { key } => {
                let key = key.share()?;
                Ok(Call::Delete { key })
            }
            Call::Put { key, bytes } => shared_put(key, bytes),
            Call::Create { key } => {
                let key = key.share()?;
                Ok(Call::Create { key })
            }
            Call::Part {
                upload,
                number,
                bytes,
            } => {
                let bytes = bytes.clone()?;
                Ok(Call::Part {
                    upload: *upload,
                    number: *number,
                    bytes,
                })
            }
            Call::Complete { upload, parts } => Ok(Call::Complete {
                upload: *upload,
                parts: *parts,
            }),
            Call::Abort { upload } => Ok(Call::Abort { upload: *upload }),
        }
    }
}
