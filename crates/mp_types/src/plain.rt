ghost use Rattle.std.specs.Prelude.{◌≡◌};
ghost use Rattle.mp_types.specs.Plain.{is_plain};

/// Whether a byte stands for itself in the texts of scripts and records: from 0x21 to 0x7E, and not `%`.
pub fn is_plain(byte: u8) -> bool
    ensures { result ≡ is_plain byte }
{
    byte >= b'!' && byte <= b'~' && byte != b'%'
}
