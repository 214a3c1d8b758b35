use crate::rules::tell_fault;
use crate::telling::{tell_file, tell_name, tell_number, tell_text};
use crate::words::{item_text, number, one, text_in};
use bucket_model::{Call, Page, PageItem};
use dir_reader::DirReader;
use local_names::Locals;
use mp_rules::DirEntry;
use mp_types::{ETag, FilePath, Key, Shared};
use std::alloc::{AllocError, Global};

/// Begins a listing.
pub fn read(
    alloc: Global,
    reader: &mut Option<DirReader>,
    words: &str,
    printed: &mut String,
) -> Option<()> {
    match FilePath::parse(alloc, text_in(one(words)?)) {
        Ok(path) => {
            let begun = DirReader::new(alloc, &path).ok();
            drop(path);
            drop(reader.replace(begun?));
            printed.push_str("done").ok()
        }
        Err(why) => tell_fault(printed, why).ok(),
    }
}

fn object(alloc: Global, word: &str) -> Option<PageItem> {
    let (size, text) = word.split_once(':')?;
    let size = number(size)?;
    let text = item_text(alloc, text)?;
    let key = Key::parse(alloc, text.as_str()).ok();
    drop(text);
    let (key, etag) = key.zip(ETag::parse("e").ok())?;
    Some(PageItem::Object { key, etag, size })
}

fn item(alloc: Global, word: &str) -> Option<PageItem> {
    let (mark, item) = word.split_once(':')?;
    match mark {
        "o" => object(alloc, item),
        "p" => Some(PageItem::Prefix(item_text(alloc, item)?)),
        _ => None,
    }
}

fn add_items(alloc: Global, words: &str, items: &mut Vec<PageItem>) -> Option<()> {
    for word in words.split(' ') {
        items.push(item(alloc, word)?).ok()?;
    }
    Some(())
}

fn is_more(word: &str) -> Option<bool> {
    match word {
        "more" => Some(true),
        "last" => Some(false),
        _ => None,
    }
}

fn page_of(alloc: Global, words: &str) -> Option<Page> {
    let (word, words) = words.split_once(' ')?;
    let more = is_more(word)?;
    let mut items = Vec::new(alloc);
    match add_items(alloc, words, &mut items) {
        Some(()) => Some(Page {
            items: Shared::from_vec(items).ok()?,
            more,
        }),
        None => {
            drop(items);
            None
        }
    }
}

/// One more page.
pub fn page(
    alloc: Global,
    reader: &mut Option<DirReader>,
    words: &str,
    printed: &mut String,
) -> Option<()> {
    let reader = reader.as_mut()?;
    let page = page_of(alloc, words)?;
    let read = reader.page(&page);
    drop(page);
    read.ok()?;
    printed.push_str("done").ok()
}

fn tell_list(printed: &mut String, prefix: &str, after: &str, max: u32) -> Result<(), AllocError> {
    printed.push_str("list ")?;
    tell_text(printed, prefix)?;
    printed.push_str(" ")?;
    tell_text(printed, after)?;
    printed.push_str(" ")?;
    tell_number(printed, max as u64)
}

fn tell_call(printed: &mut String, call: &Call) -> Result<(), AllocError> {
    match call {
        Call::List { prefix, after, max } => {
            tell_list(printed, prefix.as_str(), after.as_str(), *max)
        }
        _ => printed.push_str("another call"),
    }
}

/// The call for the next page.
pub fn next(reader: &Option<DirReader>, words: &str, printed: &mut String) -> Option<()> {
    let reader = reader.as_ref()?;
    let max = words.parse::<u32>().ok()?;
    match reader.next_call(max).ok()? {
        Some(call) => {
            let told = tell_call(printed, &call);
            drop(call);
            told.ok()
        }
        None => printed.push_str("none").ok(),
    }
}

fn tell_entry(printed: &mut String, entry: &DirEntry) -> Result<(), AllocError> {
    match entry {
        DirEntry::Dir { name } => tell_name(printed, " d:", name.as_str()),
        DirEntry::Remote { size, name } => tell_file(printed, " f:", *size, name.as_str()),
        DirEntry::Writing { size, name } => tell_file(printed, " w:", *size, name.as_str()),
    }
}

fn tell_entries(printed: &mut String, entries: &[DirEntry]) -> Result<(), AllocError> {
    printed.push_str("names")?;
    for entry in entries {
        tell_entry(printed, entry)?;
    }
    Ok(())
}

/// The names of the directory.
pub fn end(
    reader: &mut Option<DirReader>,
    names: &Locals,
    words: &str,
    printed: &mut String,
) -> Option<()> {
    if !words.is_empty() {
        return None;
    }
    let entries = reader.take()?.names(names).ok()?;
    let told = tell_entries(printed, entries.as_slice());
    drop(entries);
    told.ok()
}
