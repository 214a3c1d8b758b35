ghost use Rattle.std.specs.Prelude.{IfSome};
ghost use Rattle.bucket_model.specs.Answers.{MayBeMade};
ghost use Rattle.bucket_model.specs.History.{IsChange};

use crate::words::{bytes, etag, key, number, number_within, text};
use bucket_model::Call;
use mp_types::Key;
use std::alloc::Global;

// The key that is the only argument.
fn only_key(alloc: Global, arguments: &[&str]) -> Option<Key> {
    match arguments {
        [word] => key(alloc, *word),
        _ => None,
    }
}

fn list(alloc: Global, arguments: &[&str]) -> Option<Call>
    ensures { IfSome result MayBeMade }
{
    let [prefix, after, max] = arguments else {
        return None;
    };
    let max = number_within(*max, 1, 1_000)?;
    let (prefix, after) = text(alloc, *prefix).zip(text(alloc, *after))?;
    Some(Call::List { prefix, after, max })
}

fn get(alloc: Global, arguments: &[&str]) -> Option<Call>
    ensures { IfSome result MayBeMade }
{
    let [word, tag, first, end] = arguments else {
        return None;
    };
    let from = number(*first)?;
    let to = number(*end)?;
    if from >= to {
        return None;
    }
    let (key, etag) = key(alloc, *word).zip(etag(*tag))?;
    Some(Call::Get {
        key,
        etag,
        from,
        to,
    })
}

fn put(alloc: Global, arguments: &[&str]) -> Option<Call>
    ensures may { IfSome result MayBeMade }
    ensures change { IfSome result IsChange }
{
    let [word, content] = arguments else {
        return None;
    };
    let (key, bytes) = key(alloc, *word).zip(bytes(alloc, *content))?;
    Some(Call::Put { key, bytes })
}

fn delete(alloc: Global, arguments: &[&str]) -> Option<Call>
    ensures may { IfSome result MayBeMade }
    ensures change { IfSome result IsChange }
{
    let key = only_key(alloc, arguments)?;
    Some(Call::Delete { key })
}

fn part(alloc: Global, arguments: &[&str]) -> Option<Call>
    ensures { IfSome result MayBeMade }
{
    let [upload, place, content] = arguments else {
        return None;
    };
    let upload = number(*upload)?;
    let number = number_within(*place, 1, 10_000)?;
    let bytes = bytes(alloc, *content)?;
    Some(Call::Part {
        upload,
        number,
        bytes,
    })
}

fn complete(arguments: &[&str]) -> Option<Call>
    ensures { IfSome result MayBeMade }
{
    let [upload, count] = arguments else {
        return None;
    };
    let upload = number(*upload)?;
    let parts = number_within(*count, 1, u32::MAX)?;
    Some(Call::Complete { upload, parts })
}

fn abort(arguments: &[&str]) -> Option<Call>
    ensures { IfSome result MayBeMade }
{
    let [upload] = arguments else {
        return None;
    };
    let upload = number(*upload)?;
    Some(Call::Abort { upload })
}

/// The call of a line, if it is one.
pub fn call_of(alloc: Global, verb: &str, arguments: &[&str]) -> Option<Call>
    ensures { IfSome result MayBeMade }
{
    match verb {
        "head" => Some(Call::Head {
            key: only_key(alloc, arguments)?,
        }),
        "probe" => Some(Call::Probe {
            key: only_key(alloc, arguments)?,
        }),
        "list" => list(alloc, arguments),
        "get" => get(alloc, arguments),
        "put" => put(alloc, arguments),
        "delete" => delete(alloc, arguments),
        "create" => Some(Call::Create {
            key: only_key(alloc, arguments)?,
        }),
        "part" => part(alloc, arguments),
        "complete" => complete(arguments),
        "abort" => abort(arguments),
        _ => None,
    }
}

/// The call by which others change an object, if it is one.
pub fn change_of(alloc: Global, verb: &str, arguments: &[&str]) -> Option<Call>
    ensures { IfSome result IsChange }
{
    match verb {
        "put" => put(alloc, arguments),
        "delete" => delete(alloc, arguments),
        _ => None,
    }
}
