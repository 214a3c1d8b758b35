ghost use Rattle.std.specs.Prelude.{◌≡◌, IfOk};
ghost use Rattle.mp_types.specs.Path.{joined};
ghost use Rattle.mp_rules.specs.Keys.{is_below};

use mp_types::{FilePath, Text};
use std::alloc::AllocError;

/// The key of a path: its names with a `/` between each two, as Mountpoint maps them. The root's is empty,
/// which is no key of an object. It shares the path's text: an error says that there are too many owners.
pub fn key_of(path: &FilePath) -> Result<Text, AllocError>
    ensures { IfOk result (λ key. key ≡ joined path.now) }
{
    path.as_text().share()
}

/// Whether a key lies below another one, which then is a directory. All keys lie below the root's empty one.
pub fn below(key: &str, above: &str) -> bool
    ensures { result ≡ is_below key.now above.now }
{
    let key = key.as_bytes();
    let above = above.as_bytes();
    if above.is_empty() {
        return true;
    }
    key.starts_with(above) && key[above.len()..].starts_with(b"/")
}
