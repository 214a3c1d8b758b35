ghost use Rattle.std.specs.Prelude.{◌≡◌, ◌↔◌, ◌++◌, ℕ, List, [], Bool, true, false, None, length, option_map};
ghost use Rattle.std.specs.FinMap as map;
ghost use Rattle.mp_types.specs.Path.{is_valid_name};
ghost use Rattle.mp_rules.specs.Local.{LocalNames, local_at};
ghost use Rattle.bucket_model.specs.declared.page.Page.{Page};
ghost use Rattle.bucket_model.specs.declared.page.PageItem.{PageItem};
ghost use Rattle.bucket_model.specs.Bucket.{BucketState, HasBelow, object_at};
ghost use Rattle.bucket_model.specs.Listing.{items_under};
ghost use Rattle.listing_rules.specs.Names.{names_in, shown};
ghost use Rattle.listing_rules.specs.Pages.{ArePagesOf, items_of};

/// A listing shows at each valid name what stands there: by whether a key of the state lies below it, what is local there
/// and the object with its key. It shows no other names.
pub fn listings_are_entries()
    ensures entry { (state : BucketState) (prefix : List ℕ) (own : LocalNames) (name : List ℕ) (below : Bool) → is_valid_name name ≡ true → ((below ≡ true) ↔ HasBelow state (prefix ++ name)) → map.get (names_in prefix (items_under prefix (map.entries state.objects)) own) name ≡ shown below (local_at own (prefix ++ name)) (option_map (λ object. length object.bytes) (object_at state (prefix ++ name))) }
    ensures invalid { (prefix : List ℕ) (items : List PageItem) (own : LocalNames) (name : List ℕ) → is_valid_name name ≡ false → map.get (names_in prefix items own) name ≡ None }
{}

/// Pages of any sizes, asked for one behind the other of one state, show what all items of its keys show.
pub fn pages_of_one_state()
    ensures { (state : BucketState) (prefix : List ℕ) (pages : List Page) (own : LocalNames) → ArePagesOf (map.entries state.objects) prefix [] pages → names_in prefix (items_of pages) own ≡ names_in prefix (items_under prefix (map.entries state.objects)) own }
{}
