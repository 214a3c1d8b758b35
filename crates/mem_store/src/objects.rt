ghost use Rattle.std.specs.Prelude.{◌≡◌, ◌<◌, [], ◌∷◌, ◌++◌, None, false, IfOk, OnOk, OnErr};
ghost use Rattle.std.specs.BTreeMap as tree;
ghost use Rattle.std.specs.BTreeMap.{IsUnchanged, Updates};
ghost use Rattle.std.specs.Cmp.Lexicographic.{slice_cmp};
ghost use Rattle.std.specs.Ordering.{nat_cmp};
ghost use Rattle.mp_types.specs.Key.{IsKeyText};
ghost use Rattle.bucket_model.specs.Answers.{brief_of, brings_page};
ghost use Rattle.bucket_model.specs.Bucket.{head_of};
ghost use Rattle.mem_store.specs.Served.{answer_of_get, etag_of_version, Finds, probe_of};

use bucket_model::{Answer, Object};
use bytes::Bytes;
use mp_types::{ETag, Key, Text};
use std::alloc::{AllocError, Global};
use std::collections::BTreeMap;
use std::ops::Bound;

/// What HeadObject answers.
pub fn head_answer(objects: &BTreeMap<Text, Object>, key: &Key) -> Answer
    ensures plain { brings_page result ≡ false }
    ensures answer { brief_of result ≡ head_of (tree.get (slice_cmp nat_cmp) objects.now key.now) }
{
    match objects.get(key.as_text()) {
        Some(object) => Answer::Found {
            etag: object.etag.copy(),
            size: object.bytes.len() as u64,
        },
        None => Answer::Missing,
    }
}

// The key followed by `/`.
fn directory_text(alloc: Global, key: &Key) -> Result<Text, AllocError>
    ensures { IfOk result (λ text. text ≡ key.now ++ 47 ∷ []) }
{
    let mut text = String::from_str(alloc, key.as_str())?;
    match text.push_str("/") {
        Ok(()) => Text::from_string(text),
        Err(error) => {
            drop(text);
            Err(error)
        }
    }
}

// Whether some key begins with the text. One look-up: such keys stand together from the text on.
fn begins_some_key(objects: &BTreeMap<Text, Object>, start: &Text) -> bool
    ensures { Finds objects.now start.now result }
{
    match objects
        .range((Bound::Included(start), Bound::Unbounded))
        .next()
    {
        Some((key, _)) => key
            .as_str()
            .as_bytes()
            .starts_with(start.as_str().as_bytes()),
        None => false,
    }
}

/// Whether some key stands below this one.
pub fn finds_below(
    objects: &BTreeMap<Text, Object>,
    alloc: Global,
    key: &Key,
) -> Result<bool, AllocError>
    ensures { IfOk result (λ found. Finds objects.now (key.now ++ 47 ∷ []) found) }
{
    let start = directory_text(alloc, key)?;
    let found = begins_some_key(objects, &start);
    drop(start);
    Ok(found)
}

/// What ListObjectsV2 of one item answers.
pub fn probe_answer(found: bool) -> Answer
    ensures plain { brings_page result ≡ false }
    ensures answer { brief_of result ≡ probe_of found }
{
    if found { Answer::Yes } else { Answer::No }
}

/// What GetObject with a range and If-Match answers. Bytes are shared with the object and not copied, so memory
/// is wanting only where no more may share them.
pub fn get_answer(
    objects: &BTreeMap<Text, Object>,
    key: &Key,
    etag: &ETag,
    from: u64,
    to: u64,
) -> Result<Answer, AllocError>
    requires { from < to }
    ensures plain { IfOk result (λ answer. brings_page answer ≡ false) }
    ensures answer { IfOk result (λ answer. answer ≡ answer_of_get etag.now from to (tree.get (slice_cmp nat_cmp) objects.now key.now)) }
{
    match objects.get(key.as_text()) {
        Some(object) if object.etag == *etag && to <= object.bytes.len() as u64 => {
            Ok(Answer::Bytes(object.bytes.slice(from as usize..to as usize)?))
        }
        Some(_) => Ok(Answer::Changed),
        None => Ok(Answer::Missing),
    }
}

// The ETag of the version with this number.
fn version_etag(alloc: Global, number: u64) -> Result<ETag, AllocError>
    ensures { IfOk result (λ etag. etag ≡ etag_of_version number) }
{
    let text = format!(in alloc; "v{number}")?;
    let parsed = ETag::parse(text.as_str());
    drop(text);
    match parsed {
        Ok(etag) => Ok(etag),
        Err(_) => unreachable!(),
    }
}

// Puts an object at the key. Want of memory changes nothing.
fn put_object(
    objects: &mut BTreeMap<Text, Object>,
    key: &Key,
    object: Object,
) -> Result<(), AllocError>
    ensures ok { OnOk result (Updates (slice_cmp nat_cmp) objects.old objects.new key.now (Some object)) }
    ensures fits { OnOk result (IsKeyText key.now) }
    ensures err { OnErr result (IsUnchanged objects.old objects.new) }
{
    match key.as_text().share() {
        Ok(text) => {
            drop(objects.insert(text, object)?);
            Ok(())
        }
        Err(error) => {
            drop(object);
            Err(error)
        }
    }
}

/// Puts the version with this number at the key, and answers its ETag. Want of memory changes nothing.
pub fn put_version(
    objects: &mut BTreeMap<Text, Object>,
    alloc: Global,
    key: &Key,
    bytes: &Bytes,
    number: u64,
) -> Result<ETag, AllocError>
    ensures etag { IfOk result (λ etag. etag ≡ etag_of_version number) }
    ensures ok { OnOk result (Updates (slice_cmp nat_cmp) objects.old objects.new key.now (Some (record { etag = etag_of_version number; bytes = bytes.now }))) }
    ensures fits { OnOk result (IsKeyText key.now) }
    ensures err { OnErr result (IsUnchanged objects.old objects.new) }
{
    let bytes = bytes.clone()?;
    let etag = match version_etag(alloc, number) {
        Ok(etag) => etag,
        Err(error) => {
            drop(bytes);
            return Err(error);
        }
    };
    let object = Object {
        etag: etag.copy(),
        bytes,
    };
    match put_object(objects, key, object) {
        Ok(()) => Ok(etag),
        Err(error) => {
            drop(etag);
            Err(error)
        }
    }
}

/// Takes the object at the key away, if one stands there.
pub fn remove_object(objects: &mut BTreeMap<Text, Object>, key: &Key)
    ensures { Updates (slice_cmp nat_cmp) objects.old objects.new key.now None }
{
    objects.remove(key.as_text());
}
