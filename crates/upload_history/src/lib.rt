//! The laws of one upload in a legal history: from the entry that creates it to the one that completes it, its parts are
//! those that were sent to it, in whatever order. No other call changes it, and a part that is sent again because its
//! answer was lost changes nothing. Nothing here is executed: each function is a theorem, and its clauses say it.
#![tactic(auto)]

ghost use Rattle.std.specs.Prelude.{◌≡◌, ℕ, ◌<◌, ◌≤◌, List, length, take, slice_get, Some};
ghost use Rattle.bucket_model.specs.declared.answer.Brief.TheVariants.{Made, Upload};
ghost use Rattle.bucket_model.specs.declared.call.Call.TheVariants.{Complete, Create};
ghost use Rattle.bucket_model.specs.declared.history.Logged.{Logged};
ghost use Rattle.bucket_model.specs.declared.history.Name.TheVariants as name;
ghost use Rattle.bucket_model.specs.Bucket.{Whole, upload_at, version_made, version_named, whole_of};
ghost use Rattle.bucket_model.specs.History.{IsLegalHistory, replay};
ghost use Rattle.upload_history.specs.Entries.{HasParts, IsCreatedAt, whole_from};

/// An upload that was created for a key and got just these parts makes the object of them all, joined by number, where
/// their count is asked for. It makes none for another count.
pub fn parts_make_the_whole()
    ensures whole { (log : List Logged) (upload from to : ℕ) (key : List ℕ) (parts : List (List ℕ)) → IsLegalHistory log → IsCreatedAt log from upload key → HasParts log upload from to parts → to ≤ length log → from < to → whole_of (length parts) (upload_at (replay (take to log)) upload) ≡ Some (whole_from key parts) }
    ensures count { (log : List Logged) (upload from to : ℕ) (key : List ℕ) (parts : List (List ℕ)) (count : ℕ) (whole : Whole) → IsLegalHistory log → IsCreatedAt log from upload key → HasParts log upload from to parts → to ≤ length log → from < to → whole_of count (upload_at (replay (take to log)) upload) ≡ Some whole → count ≡ length parts }
{}

/// The entry that completes such an upload makes a version of that object, under the ETag that it gave, if it gave one.
pub fn complete_makes_the_version()
    ensures { (log : List Logged) (upload from to : ℕ) (key : List ℕ) (parts : List (List ℕ)) (logged : Logged) → IsLegalHistory log → IsCreatedAt log from upload key → HasParts log upload from to parts → from < to → slice_get log to ≡ Some logged → logged.entry.call ≡ Complete upload (length parts) → version_made (replay (take to log)) logged ≡ version_named logged.made (whole_from key parts) }
{}

/// Where a complete is answered as made, the upload had the parts that it names, and the version has the ETag that was
/// told.
pub fn complete_tells_the_version()
    ensures whole { (log : List Logged) (position upload count : ℕ) (etag : List ℕ) (logged : Logged) → IsLegalHistory log → slice_get log position ≡ Some logged → logged.entry.call ≡ Complete upload count → logged.entry.answer ≡ Made etag → (whole : Whole) × (whole_of count (upload_at (replay (take position log)) upload) ≡ Some whole) }
    ensures made { (log : List Logged) (position upload count : ℕ) (etag : List ℕ) (logged : Logged) → IsLegalHistory log → slice_get log position ≡ Some logged → logged.entry.call ≡ Complete upload count → logged.entry.answer ≡ Made etag → logged.made ≡ Some (name.Version etag) }
{}

/// Where a create is answered with an id, the upload was created under this id.
pub fn create_tells_the_upload()
    ensures { (log : List Logged) (position upload : ℕ) (key : List ℕ) (logged : Logged) → IsLegalHistory log → slice_get log position ≡ Some logged → logged.entry.call ≡ Create key → logged.entry.answer ≡ Upload upload → IsCreatedAt log position upload key }
{}
