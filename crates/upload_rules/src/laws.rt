ghost use Rattle.std.specs.Prelude.{◌≡◌, ◌≢◌, ℕ, ◌+◌, ◌*◌, ◌≤◌, List, ◌∷◌, ◌++◌, length, Some};
ghost use Rattle.upload_rules.specs.Place.{HasItsPlace};
ghost use Rattle.upload_rules.specs.Run.{AreTheBytes, Asks, Happening, IsLife, bytes_taken, upload_after};
ghost use Rattle.upload_rules.specs.Upload.{Upload, due, with_ask};
ghost use Rattle.upload_rules.specs.declared.upload.UpAsk.{UpAsk};
ghost use Rattle.upload_rules.specs.declared.upload.UpAsk.TheVariants.{Abort, Complete, Create, Part};

/// The parts of an upload, in their order, are the bytes that its writer took, in theirs: each part but the last has
/// as many bytes as a part has, and the object is asked for only of all the bytes.
pub fn parts_are_the_bytes()
    ensures { (part : ℕ) (happenings : List Happening) → 1 ≤ part → IsLife part happenings → AreTheBytes part happenings }
{}

/// The part that is due has its number and its place by the count of parts before it alone, and its bytes are those
/// that the writer took at this place.
pub fn parts_have_their_place()
    ensures { (part : ℕ) (happenings : List Happening) (number from to : ℕ) → IsLife part happenings → due (upload_after part happenings) ≡ Some (Part number from to) → HasItsPlace part happenings number from to }
{}

/// So many bytes need no more parts than this: the writer's limit on bytes keeps the bucket's limit on parts.
pub fn parts_are_few()
    ensures { (part limit : ℕ) (happenings : List Happening) (number from to : ℕ) → 1 ≤ part → 1 ≤ limit → length (bytes_taken happenings) ≤ part * limit → IsLife part happenings → due (upload_after part happenings) ≡ Some (Part number from to) → (upload_after part happenings).asked + 1 ≤ limit }
{}

/// Behind an ask no new upload is due, and neither the object nor an abort is until a call is back. In a whole life a
/// new upload is asked for once.
pub fn asking_is_once()
    ensures create { (u : Upload) (ask : UpAsk) → due u ≡ Some ask → due (with_ask ask u) ≢ Some Create }
    ensures complete { (u : Upload) (ask : UpAsk) (parts : ℕ) → due (with_ask ask u) ≢ Some (Complete parts) }
    ensures abort { (u : Upload) (ask : UpAsk) → due (with_ask ask u) ≢ Some Abort }
    ensures life { (part : ℕ) (before behind : List Happening) → due (upload_after part (before ++ Asks Create ∷ behind)) ≢ Some Create }
{}
