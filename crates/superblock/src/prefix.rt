ghost use Rattle.std.specs.Prelude.{◌≡◌, ◌+◌, ◌≤◌, drop, length};
ghost use Rattle.mp_types.specs.Key.{max_key_length};
ghost use Rattle.superblock.specs.Prefix.{name_length};

fn first_name_length(text: &[u8]) -> usize
    ensures length { result ≡ name_length text.now }
    ensures within { result ≤ length text.now }
{
    text.iter().take_while(|byte| **byte != b'/').count()
}

/// Where the name that begins here ends.
pub fn name_end(path: &str, start: usize) -> usize
    requires start { start ≤ length path.now }
    requires short { length path.now ≤ max_key_length }
    ensures { result ≡ start + name_length (drop start path.now) }
{
    start + first_name_length(&path.as_bytes()[start..])
}
