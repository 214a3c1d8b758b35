ghost use Rattle.std.specs.Prelude.{IfOk, ◌<◌};
ghost use Rattle.bucket_model.specs.Answers.{MayBeMade};

use bucket_model::Call;
use bytes::Bytes;
use mp_types::{ETag, Key};
use std::alloc::{AllocError, Global};

fn key(alloc: Global, text: &str) -> Result<Key, AllocError> {
    match Key::parse(alloc, text) {
        Ok(key) => Ok(key),
        Err(_) => Err(AllocError),
    }
}

/// A put of the text at the key.
pub fn put(alloc: Global, at: &str, text: &[u8]) -> Result<Call, AllocError>
    ensures { IfOk result MayBeMade }
{
    let mut content = Vec::new(alloc);
    content.extend_from_slice(text)?;
    let bytes = match Bytes::from_vec(content) {
        Ok(bytes) => bytes,
        Err(failed) => {
            drop(failed);
            return Err(AllocError);
        }
    };
    let key = key(alloc, at)?;
    Ok(Call::Put { key, bytes })
}

/// A head of the key.
pub fn head(alloc: Global, at: &str) -> Result<Call, AllocError>
    ensures { IfOk result MayBeMade }
{
    let key = key(alloc, at)?;
    Ok(Call::Head { key })
}

/// A get of the first bytes of the version at the key.
pub fn get(alloc: Global, at: &str, etag: ETag, size: u64) -> Result<Call, AllocError>
    requires { 0 < size }
    ensures { IfOk result MayBeMade }
{
    let key = key(alloc, at)?;
    Ok(Call::Get {
        key,
        etag,
        from: 0,
        to: size,
    })
}
