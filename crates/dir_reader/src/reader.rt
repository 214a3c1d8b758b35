ghost use Rattle.std.specs.Prelude.{◌≡◌, List, ℕ, fold, if◌then◌else◌, Some, None, IfOk, OnOk};
ghost use Rattle.std.specs.Option.{option_map_or};
ghost use Rattle.bucket_model.specs.declared.call.Call.TheVariants as call;
ghost use Rattle.bucket_model.specs.declared.page.Page.{Page as PageOf};
ghost use Rattle.bucket_model.specs.Listing.{text_of};
ghost use Rattle.listing_rules.specs.Names.{entries_of, listing_of, prefix_of, with_all_own};
ghost use Rattle.listing_rules.specs.Pages.{items_of, last_text};
ghost use Rattle.dir_reader.specs.Gathered.{started, with_page};

use crate::names::{Names, entries, show_children, show_items};
use bucket_model::{Call, Page, PageItem};
use local_names::Locals;
use mp_rules::DirEntry;
use mp_types::{FilePath, Text};
use std::alloc::{AllocError, Global};
use std::collections::BTreeMap;
use std::marker::Model;

/// Reads one directory, page by page.
#[derive(Drop)]
pub struct DirReader {
    alloc: Global,
    prefix: Text,
    // the text of the last item so far
    after: Text,
    more: bool,
    names: Names,
}

impl Model for DirReader {
    ghost use Rattle.dir_reader.specs.Gathered.{Gathered, found_in, gathered_code};

    ghost Value = { Gathered };

    ghost coded = { gathered_code };

    ghost view = { λ a. record { prefix = a.prefix; found = found_in a.names; after = a.after; more = a.more } };
}

/// The call for the page of a directory's items behind a text. It shares both texts, and takes no memory.
pub fn page_call(prefix: &Text, after: &Text, max: u32) -> Result<Call, AllocError>
    ensures { IfOk result (λ made. made ≡ call.List prefix.now after.now max) }
{
    let prefix = prefix.share()?;
    match after.share() {
        Ok(after) => Ok(Call::List { prefix, after, max }),
        Err(error) => {
            drop(prefix);
            Err(error)
        }
    }
}

/// What the keys below a path begin with.
pub fn prefix_text(alloc: Global, path: &FilePath) -> Result<Text, AllocError>
    ensures { IfOk result (λ prefix. prefix ≡ prefix_of path.now) }
{
    if path.is_root() {
        return Ok(Text::new());
    }
    let mut text = String::from_str(alloc, path.as_key())?;
    match text.push_str("/") {
        Ok(()) => Text::from_string(text),
        Err(error) => {
            drop(text);
            Err(error)
        }
    }
}

// The text by which an item is ordered.
fn item_text(item: &PageItem) -> &Text
    ensures { result.now ≡ text_of item.now }
{
    match item {
        PageItem::Object { key, .. } => key.as_text(),
        PageItem::Prefix(text) => text,
    }
}

/// The text of the last item, if there are any.
pub fn last_text_of(items: &[PageItem]) -> Option<&Text>
    ensures { (after : List ℕ) → last_text after items.now ≡ option_map_or (λ text. text.now) result after }
{
    match items.last() {
        Some(item) => Some(item_text(item)),
        None => None,
    }
}

impl DirReader {
    /// A reader of the directory at a path, before its first page.
    pub fn new(alloc: Global, path: &FilePath) -> Result<Self, AllocError>
        ensures { IfOk result (λ reader. reader ≡ started path.now) }
    {
        Ok(DirReader {
            alloc,
            prefix: prefix_text(alloc, path)?,
            after: Text::new(),
            more: true,
            names: BTreeMap::new(alloc),
        })
    }

    /// One more page, which is the next one or stands behind it.
    pub fn page(&mut self, page: &Page) -> Result<(), AllocError>
        ensures { OnOk result (self.new ≡ with_page self.old page.now) }
    {
        let items = page.items.as_slice();
        show_items(&mut self.names, self.alloc, self.prefix.as_str(), items)?;
        if let Some(last) = last_text_of(items) {
            self.after = last.share()?;
        }
        self.more = page.more;
        Ok(())
    }

    /// The call for the next page of at most so many items, where there is one.
    pub fn next_call(&self, max: u32) -> Result<Option<Call>, AllocError>
        ensures { IfOk result (λ made. made ≡ (if self.now.more then Some (call.List self.now.prefix self.now.after max) else None)) }
    {
        if !self.more {
            return Ok(None);
        }
        Ok(Some(page_call(&self.prefix, &self.after, max)?))
    }

    /// The directory's names, in order: those that the pages showed, and the mount's own.
    pub fn names(self, locals: &Locals) -> Result<Vec<DirEntry>, AllocError>
        ensures gathered { IfOk result (λ entries. entries.items ≡ entries_of (with_all_own self.prefix locals.now self.found)) }
        ensures pages { (path : List (List ℕ)) (pages : List PageOf) → self ≡ fold with_page (started path) pages → IfOk result (λ entries. entries.items ≡ listing_of (prefix_of path) (items_of pages) locals.now) }
    {
        let DirReader {
            alloc,
            prefix,
            mut names,
            ..
        } = self;
        show_children(&mut names, locals.children(alloc, prefix.as_str())?)?;
        entries(alloc, names)
    }
}
