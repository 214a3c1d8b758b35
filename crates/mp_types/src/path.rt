ghost use Rattle.std.specs.Prelude.{◌≡◌, ◌≤◌, ◌==◌, ◌↔◌, List, ℕ, Ok, Err, true, length, not, ◌&&◌, IfOk, IsErrOf, MatchResult, option_map};
ghost use Rattle.std.specs.List.{list_all, position_from, slice_get, slice_split};
ghost use Rattle.mp_types.specs.Key.{max_key_length};
ghost use Rattle.mp_types.specs.Path.{IsPathText, are_names, is_bad_name, is_slash, is_valid_name, joined, names_in, path_of, slash};

use crate::Text;
use crate::key::MAX_KEY_LENGTH;
use std::alloc::{AllocError, Global};
use std::marker::Model;
use thiserror::Error;

/// Why a text is no path.
#[derive(Debug, Drop, PartialEq, Eq, Error)]
pub enum PathFault {
    #[error("a path begins with /")]
    Empty,
    #[error("a path has at most 1,024 bytes behind the first /")]
    TooLong,
    #[error("part {0} of the path is no name")]
    BadName(usize),
    #[error("no memory")]
    Memory,
}

/// A path as a list of names, from the root, which has none. It may have 1,024 bytes behind the first `/`, as a key may.
#[derive(Debug, Drop)]
pub struct FilePath {
    // what stands behind the first `/`
    text: Text,
}

impl Model for FilePath {
    ghost use Rattle.std.specs.Prelude.{List, ℕ, ◌≡◌, ◌≤◌, true, length};
    ghost use Rattle.mp_types.specs.Key.{max_key_length};
    ghost use Rattle.mp_types.specs.Path.{are_names, names_in};

    ghost Value = { List (List ℕ) };

    ghost view = { λ a. names_in a.text };

    ghost invariant = { λ a. (length a.text ≤ max_key_length) × (are_names (names_in a.text) ≡ true) };
}

fn has_no_bad_byte(name: &[u8]) -> bool
    ensures { result ≡ list_all (λ byte. not (byte == slash) && not (byte == 0)) name.now }
{
    name.iter().all(|byte| *byte != b'/' && *byte != 0)
}

/// Whether a text is a name of a path: Mountpoint gives no access to the empty name, to `.` and `..`,
/// and to names with `/` or NUL.
pub fn is_name(name: &str) -> bool
    ensures { result ≡ is_valid_name name.now }
{
    let name = name.as_bytes();
    !name.is_empty() && name != b".".as_slice() && name != b"..".as_slice() && has_no_bad_byte(name)
}

// The place of the first part that is no name.
fn first_bad_name(below: &str) -> Option<usize>
    ensures { result ≡ position_from is_bad_name 0 (slice_split is_slash below.now) }
{
    below.split('/').position(|name| !is_name(name))
}

/// What stands behind the first `/` of a path: its names with a `/` between each two, and nothing for the root.
/// Takes no memory.
pub fn below_root(text: &str) -> Result<&str, PathFault>
    ensures { MatchResult result (λ below. IsPathText text.now below.now) (λ why. path_of text.now ≡ Err why) }
{
    let Some(below) = text.strip_prefix('/') else {
        return Err(PathFault::Empty);
    };
    if below.len() > MAX_KEY_LENGTH {
        return Err(PathFault::TooLong);
    }
    if below.is_empty() {
        return Ok(below);
    }
    match first_bad_name(below) {
        Some(place) => Err(PathFault::BadName(place)),
        None => Ok(below),
    }
}

impl FilePath {
    /// The path of a text. Each fault but want of memory comes exactly for its texts;
    /// a bad name comes with its place, from 0.
    pub fn parse(alloc: Global, text: &str) -> Result<Self, PathFault>
        ensures ok { IfOk result (λ path. path_of text.now ≡ Ok path) }
        ensures empty { (IsErrOf result PathFault.Empty) ↔ (path_of text.now ≡ Err PathFault.Empty) }
        ensures too_long { (IsErrOf result PathFault.TooLong) ↔ (path_of text.now ≡ Err PathFault.TooLong) }
        ensures bad_name { (place : ℕ) → (IsErrOf result (PathFault.BadName place)) ↔ (path_of text.now ≡ Err (PathFault.BadName place)) }
    {
        match below_root(text) {
            Err(why) => Err(why),
            Ok(below) => match Text::copy(alloc, below) {
                Ok(text) => Ok(FilePath { text }),
                Err(_) => Err(PathFault::Memory),
            },
        }
    }

    /// The same path for one more owner of its text. Takes no memory: an error says that there are too many owners.
    pub fn share(&self) -> Result<Self, AllocError>
        ensures { IfOk result (λ shared. shared ≡ self.now) }
    {
        Ok(FilePath {
            text: self.text.share()?,
        })
    }

    /// The text of `as_key`, which its owners share.
    pub fn as_text(&self) -> &Text
        ensures { result.now ≡ joined self.now }
    {
        &self.text
    }

    /// Whether the path has no names.
    pub fn is_root(&self) -> bool
        ensures { result ≡ (length self.now == 0) }
    {
        self.text.as_str().is_empty()
    }

    /// How many names the path has.
    pub fn len(&self) -> usize
        ensures { result ≡ length self.now }
    {
        let text = self.text.as_str();
        if text.is_empty() {
            return 0;
        }
        text.split('/').count()
    }

    /// The name at a place, from 0.
    pub fn name_at(&self, place: usize) -> Option<&str>
        ensures { option_map (λ name. name.now) result ≡ slice_get self.now place }
    {
        let text = self.text.as_str();
        if text.is_empty() {
            return None;
        }
        text.split('/').nth(place)
    }

    /// The names with a `/` between each two, as keys have them: what stands behind the path's first `/`.
    pub fn as_key(&self) -> &str
        ensures text { result.now ≡ joined self.now }
        ensures names { names_in result.now ≡ self.now }
        ensures short { length result.now ≤ max_key_length }
        ensures root { (length result.now == 0) ≡ (length self.now == 0) }
        ensures valid { are_names self.now ≡ true }
    {
        self.text.as_str()
    }
}
