ghost use Rattle.std.specs.Prelude.{◌≡◌, ◌++◌, ◌∷◌, [], List, ℕ, length, drop, IfOk, OnOk, MatchOption, Some, None, true, false, string_bytes};
ghost use Rattle.std.specs.BTreeMap.{IsOrdered};
ghost use Rattle.std.specs.BTreeMap.Range.{entries_between};
ghost use Rattle.std.specs.Cmp.Lexicographic.{slice_cmp};
ghost use Rattle.std.specs.Ordering.{nat_cmp};
ghost use Rattle.std.specs.declared.ops.Bound.TheVariants.{Included, Unbounded};
ghost use Rattle.mp_types.specs.Key.{IsKeyText};
ghost use Rattle.bucket_model.specs.declared.page.PageItem.TheVariants as item;
ghost use Rattle.bucket_model.specs.Listing.{has_prefix, page_of, up_to_slash};
ghost use Rattle.mem_store.specs.Listed.{HaveKeyTexts, StandBehind};

use bucket_model::{Object, Page, PageItem};
use mp_types::{Key, Shared, Text, behind};
use std::alloc::{AllocError, Global};
use std::collections::BTreeMap;
use std::collections::btree_map::Range;
use std::ops::Bound;

// What stands before the first `/`, where there is one.
fn before_slash(text: &str) -> Option<&str>
    ensures { MatchOption result (up_to_slash text.now ≡ None) (λ name. up_to_slash text.now ≡ Some (name.now ++ 47 ∷ [])) }
{
    match text.split_once('/') {
        Some((name, _)) => Some(name),
        None => None,
    }
}

// What keys share with this one, up to the `/` behind the name, which stands in it behind the prefix: a front of the key.
fn shared_front(key: &Text, prefix: &Text, name: &str) -> Result<Text, AllocError>
    requires { (rest : List ℕ) × (key.now ≡ prefix.now ++ rest) × (up_to_slash rest ≡ Some (name.now ++ 47 ∷ [])) }
    ensures { IfOk result (λ front. front ≡ prefix.now ++ (name.now ++ 47 ∷ [])) }
{
    let _text = key.as_str();
    key.front(prefix.as_str().len() + name.len() + 1)
}

fn add_texts(text: &mut String, first: &str, second: &str, third: &str) -> Result<(), AllocError>
    ensures { OnOk result (string_bytes text.new ≡ string_bytes text.old ++ (first.now ++ (second.now ++ third.now))) }
{
    text.push_str(first)?;
    text.push_str(second)?;
    text.push_str(third)
}

// A text behind all keys that begin with the prefix, the name and a `/`, and before what comes behind them: of all bytes,
// `0` is the next one. There is room for so many bytes at first.
fn past_text(alloc: Global, room: usize, prefix: &str, name: &str) -> Result<Text, AllocError>
    ensures { IfOk result (λ text. text ≡ prefix.now ++ (name.now ++ 48 ∷ [])) }
{
    let mut text = String::with_capacity(alloc, room)?;
    match add_texts(&mut text, prefix, name, "0") {
        Ok(()) => Text::from_string(text),
        Err(error) => {
            drop(text);
            Err(error)
        }
    }
}

// The entries behind all keys that begin with the prefix, the name and a `/`.
fn entries_past<'a>(
    objects: &'a BTreeMap<Text, Object>,
    alloc: Global,
    room: usize,
    prefix: &str,
    name: &str,
) -> Result<Range<'a, Text, Object>, AllocError>
    ensures from { IfOk result (λ entries. entries ≡ entries_between (slice_cmp nat_cmp) (Included (prefix.now ++ (name.now ++ 48 ∷ []))) Unbounded objects.now.entries) }
    ensures ordered { IfOk result (λ _. IsOrdered (slice_cmp nat_cmp) objects.now) }
{
    let next = past_text(alloc, room, prefix, name)?;
    let entries = objects.range((Bound::Included(&next), Bound::Unbounded));
    drop(next);
    Ok(entries)
}

// The name of the directory below the prefix that the text is in, or is.
fn name_below<'a>(text: &'a str, prefix: &str) -> Option<&'a str>
    ensures { MatchOption result (has_prefix prefix.now text.now ≡ true → up_to_slash (drop (length prefix.now) text.now) ≡ None) (λ name. (has_prefix prefix.now text.now ≡ true) × (up_to_slash (drop (length prefix.now) text.now) ≡ Some (name.now ++ 47 ∷ []))) }
{
    match behind(text, prefix) {
        Some(rest) => before_slash(rest),
        None => None,
    }
}

// The entries from the first on whose item stands behind the text.
fn entries_behind<'a>(
    objects: &'a BTreeMap<Text, Object>,
    alloc: Global,
    prefix: &Text,
    text: &Text,
) -> Result<Range<'a, Text, Object>, AllocError>
    ensures { IfOk result (λ entries. StandBehind prefix.now text.now objects.now entries) }
{
    if *text < *prefix {
        return Ok(objects.range((Bound::Included(prefix), Bound::Unbounded)));
    }
    match name_below(text.as_str(), prefix.as_str()) {
        Some(name) => Ok(entries_past(objects, alloc, text.as_str().len(), prefix.as_str(), name)?),
        None => Ok(objects.range((Bound::Excluded(text), Bound::Unbounded))),
    }
}

fn object_item(key: &Text, object: &Object) -> Result<PageItem, AllocError>
    requires { IsKeyText key.now }
    ensures { IfOk result (λ made. made ≡ item.Object key.now object.now.etag (length object.now.bytes)) }
{
    Ok(PageItem::Object {
        key: Key::from_text(key.share()?),
        etag: object.etag.copy(),
        size: object.bytes.len() as u64,
    })
}

// Adds the items of a page, and says whether more stand behind them. It looks at one entry for each item, and one more: what
// has a common prefix is passed at once.
fn add_items(
    objects: &BTreeMap<Text, Object>,
    alloc: Global,
    prefix: &Text,
    after: &Text,
    max: u32,
    items: &mut Vec<PageItem>,
) -> Result<bool, AllocError>
    requires keys { HaveKeyTexts objects.now }
    requires empty { items.old.items ≡ [] }
    ensures page { IfOk result (λ more. record { items = items.new.items; more = more } ≡ page_of prefix.now after.now max objects.now.entries) }
    ensures ordered { IfOk result (λ _. IsOrdered (slice_cmp nat_cmp) objects.now) }
{
    let mut entries = entries_behind(objects, alloc, prefix, after)?;
    while let Some((key, object)) = entries.next() {
        let Some(rest) = behind(key.as_str(), prefix.as_str()) else {
            return Ok(false);
        };
        if items.len() == max as usize {
            return Ok(true);
        }
        let Some(name) = before_slash(rest) else {
            items.push(object_item(key, object)?)?;
            continue;
        };
        items.push(PageItem::Prefix(shared_front(key, prefix, name)?))?;
        let room = key.as_str().len();
        entries = entries_past(objects, alloc, room, prefix.as_str(), name)?;
    }
    Ok(false)
}

/// A page of the prefix behind the text.
pub fn list_page(
    objects: &BTreeMap<Text, Object>,
    alloc: Global,
    prefix: &Text,
    after: &Text,
    max: u32,
) -> Result<Page, AllocError>
    requires { HaveKeyTexts objects.now }
    ensures page { IfOk result (λ page. page ≡ page_of prefix.now after.now max objects.now.entries) }
    ensures ordered { IfOk result (λ _. IsOrdered (slice_cmp nat_cmp) objects.now) }
{
    let mut items = Vec::new(alloc);
    match add_items(objects, alloc, prefix, after, max, &mut items) {
        Ok(more) => {
            let items = Shared::from_vec(items)?;
            Ok(Page { items, more })
        }
        Err(error) => {
            drop(items);
            Err(error)
        }
    }
}
