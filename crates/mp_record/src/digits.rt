ghost use Rattle.std.specs.Prelude.{◌≡◌, ◌≤◌, ◌++◌, length, OnOk};
ghost use Rattle.hex.specs.Hex.{encode_lower};

use std::alloc::AllocError;

/// So many bytes are turned into digits at once.
pub const PIECE: usize = 512;

static ZEROS: [u8; 1024] = [0; 1024];

/// The bytes in hexadecimal, two lower-case digits each. They are written where they are to stand.
pub fn push_digits(out: &mut Vec<u8>, bytes: &[u8]) -> Result<(), AllocError>
    requires { length bytes.now ≤ 512 }
    ensures { OnOk result (out.new.items ≡ out.old.items ++ encode_lower bytes.now) }
{
    let start = out.len();
    out.extend_from_slice(&ZEROS[..2 * bytes.len()])?;
    match hex::encode_to_slice(bytes, &mut out[start..]) {
        Ok(()) => Ok(()),
        Err(_) => unreachable!(),
    }
}
