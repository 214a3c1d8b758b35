ghost use Rattle.std.specs.Prelude.{◌≡◌, ◌≤◌, ℕ, List, [], ◌∷◌, ◌++◌, Some, true, false, IfOk};
ghost use Rattle.std.specs.List.{Contains, filter};
ghost use Rattle.std.specs.FinMap.{entries};
ghost use Rattle.bucket_model.specs.declared.history.Object.{Object};
ghost use Rattle.bucket_model.specs.declared.page.PageItem.{PageItem};
ghost use Rattle.bucket_model.specs.Bucket.{BucketState, object_at};
ghost use Rattle.bucket_model.specs.Listing.{has_prefix, is_behind, is_page, item_of, items_under, page_of, text_of};

use mp_types::{ETag, Key, Shared, Text};
use std::alloc::AllocError;

/// One item of a page.
#[derive(Debug, Drop, PartialEq, Eq)]
pub enum PageItem {
    /// An object, with its size in bytes.
    Object { key: Key, etag: ETag, size: u64 },
    /// A common prefix: what the keys of one directory share, up to the `/` behind the directory's name.
    Prefix(Text),
}

/// What one call of a listing gives. Histories, records and those who asked share the items.
#[derive(Debug, Drop, PartialEq, Eq)]
pub struct Page {
    /// The items in the order of their texts.
    pub items: Shared<PageItem>,
    /// Whether further items stand behind these.
    pub more: bool,
}

impl Page {
    /// An equal page that shares its items. Takes no memory: an error says that they have too many owners.
    pub fn share(&self) -> Result<Self, AllocError>
        ensures { IfOk result (λ shared. shared ≡ self.now) }
    {
        Ok(Page {
            items: self.items.share()?,
            more: self.more,
        })
    }
}

/// The pages of a state are pages, and joined they hold the items of its keys: each key of the prefix has its item, each
/// item is of such a key, behind the last item of a page stands what the page lacks, and that is nothing where no more is told.
pub fn pages_are_of_the_keys()
    ensures page { (state : BucketState) (prefix after : List ℕ) (max : ℕ) → 1 ≤ max → is_page prefix after max (page_of prefix after max (entries state.objects)) ≡ true }
    ensures complete { (state : BucketState) (prefix key : List ℕ) (object : Object) → object_at state key ≡ Some object → has_prefix prefix key ≡ true → Contains (items_under prefix (entries state.objects)) (item_of prefix (key, object)) }
    ensures sound { (state : BucketState) (prefix : List ℕ) (item : PageItem) → Contains (items_under prefix (entries state.objects)) item → (key : List ℕ) × (object : Object) × (object_at state key ≡ Some object) × (has_prefix prefix key ≡ true) × (item ≡ item_of prefix (key, object)) }
    ensures next { (state : BucketState) (prefix after : List ℕ) (max : ℕ) (front : List PageItem) (last : PageItem) → (page_of prefix after max (entries state.objects)).items ≡ front ++ last ∷ [] → filter (is_behind after) (items_under prefix (entries state.objects)) ≡ (page_of prefix after max (entries state.objects)).items ++ filter (is_behind (text_of last)) (items_under prefix (entries state.objects)) }
    ensures end { (state : BucketState) (prefix after : List ℕ) (max : ℕ) → (page_of prefix after max (entries state.objects)).more ≡ false → filter (is_behind after) (items_under prefix (entries state.objects)) ≡ (page_of prefix after max (entries state.objects)).items }
{}
