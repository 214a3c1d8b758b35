ghost use Rattle.std.specs.Prelude.{◌≡◌, true, option_copied};
ghost use Rattle.mp_types.specs.Key.{IsKeyText};
ghost use Rattle.mp_types.specs.Path.{are_names, names_in};
ghost use Rattle.mp_rules.specs.declared.facts.Question.TheVariants as question;
ghost use Rattle.mp_rules.specs.Local.{local_at};
ghost use Rattle.mp_rules.specs.Walk.{AreDistinct, by_head, by_local, entry_at, fact_in, with_last};
ghost use Rattle.superblock.specs.Decided.{Decides, StopsAt};
ghost use Rattle.superblock.specs.Walked.{walk_of};

use crate::Decision;
use crate::fact::fact_of;
use crate::prefix::name_end;
use local_names::Locals;
use mp_rules::{Entry, Fact, Known, Local, OwnFacts, QuestionRef};
use mp_types::Errno;

// What stands at a key where the bucket has no key below it and nothing is local.
fn file_at<'a>(key: &'a str, own: &[Known], last: Option<&Known>, next: &mut usize) -> Decision<'a>
    requires distinct { AreDistinct own.now }
    requires key { IsKeyText key.now }
    ensures { Decides result (by_head key.now (fact_in (with_last (option_copied last.entry) own.now) (question.Head key.now))) }
{
    match fact_of(QuestionRef::Head(key), own, last, next) {
        None => Decision::Ask(QuestionRef::Head(key)),
        Some(Fact::Found { etag, size }) => Decision::Is(Entry::File {
            etag: etag.copy(),
            size: *size,
        }),
        Some(_) => Decision::Is(Entry::Nothing),
    }
}

// What stands at a key where the bucket has no key below it.
fn local_or_file_at<'a>(
    key: &'a str,
    names: &Locals,
    own: &[Known],
    last: Option<&Known>,
    next: &mut usize,
) -> Decision<'a>
    requires distinct { AreDistinct own.now }
    requires key { IsKeyText key.now }
    ensures { Decides result (by_local key.now (local_at names.now key.now) (fact_in (with_last (option_copied last.entry) own.now) (question.Head key.now))) }
{
    match names.at(key) {
        Local::Dir => Decision::Is(Entry::LocalDir),
        Local::File { size } => Decision::Is(Entry::LocalFile { size }),
        Local::None => file_at(key, own, last, next),
    }
}

// What stands at a key.
fn entry_at<'a>(
    key: &'a str,
    names: &Locals,
    own: &[Known],
    last: Option<&Known>,
    next: &mut usize,
) -> Decision<'a>
    requires distinct { AreDistinct own.now }
    requires key { IsKeyText key.now }
    ensures { Decides result (entry_at (fact_in (with_last (option_copied last.entry) own.now)) (local_at names.now) key.now) }
{
    match fact_of(QuestionRef::Probe(key), own, last, next) {
        None => Decision::Ask(QuestionRef::Probe(key)),
        Some(Fact::Yes) => Decision::Is(Entry::RemoteDir),
        Some(_) => local_or_file_at(key, names, own, last, next),
    }
}

// How a walk ends at a proper prefix where this stands. At a directory it goes on.
fn stop_above(found: Decision<'_>) -> Option<Decision<'_>>
    ensures { StopsAt found.entry result }
{
    match found {
        Decision::Is(Entry::RemoteDir) | Decision::Is(Entry::LocalDir) => None,
        Decision::Is(Entry::LocalFile { .. }) | Decision::Is(Entry::File { .. }) => {
            Some(Decision::Refused(Errno::Enotdir))
        }
        Decision::Is(Entry::Nothing) => Some(Decision::Refused(Errno::Enoent)),
        open => Some(open),
    }
}

fn walk<'a>(path: &'a str, names: &Locals, own: &[Known], last: Option<&Known>) -> Decision<'a>
    requires distinct { AreDistinct own.now }
    requires names { are_names (names_in path.now) ≡ true }
    requires key { IsKeyText path.now }
    ensures { Decides result (walk_of (fact_in (with_last (option_copied last.entry) own.now)) (local_at names.now) (names_in path.now)) }
{
    let mut end = name_end(path, 0);
    let mut next = 0usize;
    while end < path.len() {
        if let Some(stop) = stop_above(entry_at(&path[..end], names, own, last, &mut next)) {
            return stop;
        }
        end = name_end(path, end + 1);
    }
    entry_at(path, names, own, last, &mut next)
}

/// What stands at a path, or what has to be asked first, from the left. The path is given by what stands behind its
/// first `/`. It isn't the root, which needs no walk. The last fact may stand apart from the line's own ones.
pub fn decide<'a>(
    path: &'a str,
    names: &Locals,
    own: &OwnFacts,
    last: Option<&Known>,
) -> Decision<'a>
    requires names { are_names (names_in path.now) ≡ true }
    requires key { IsKeyText path.now }
    ensures { Decides result (walk_of (fact_in (with_last (option_copied last.entry) own.now)) (local_at names.now) (names_in path.now)) }
{
    walk(path, names, own.as_slice(), last)
}
