ghost use Rattle.std.specs.Prelude.{◌≡◌, ◌++◌, ◌<◌, flat_map, OnOk};
ghost use Rattle.std.specs.List.{list_all};
ghost use Rattle.mp_types.specs.Plain.{is_plain};
ghost use Rattle.mp_record.specs.RecordText.{hex_digit, escaped_byte, escaped};

use mp_types::is_plain;
use std::alloc::AllocError;

fn are_plain(text: &[u8]) -> bool
    ensures { result ≡ list_all is_plain text.now }
{
    text.iter().all(|byte| is_plain(*byte))
}

fn hex_digit(digit: u8) -> u8
    requires { digit < 16 }
    ensures { result ≡ hex_digit digit }
{
    if digit < 10 {
        b'0' + digit
    } else {
        b'A' - 10 + digit
    }
}

fn push_escaped_byte(out: &mut Vec<u8>, byte: u8) -> Result<(), AllocError>
    ensures { OnOk result (out.new.items ≡ out.old.items ++ escaped_byte byte) }
{
    if is_plain(byte) {
        out.extend_from_slice(&[byte])
    } else {
        out.extend_from_slice(&[b'%', hex_digit(byte / 16), hex_digit(byte % 16)])
    }
}

fn push_escaped_bytes(out: &mut Vec<u8>, text: &[u8]) -> Result<(), AllocError>
    ensures { OnOk result (out.new.items ≡ out.old.items ++ flat_map escaped_byte text.now) }
{
    for byte in text {
        push_escaped_byte(out, *byte)?;
    }
    Ok(())
}

/// A text of plain bytes, as most are, is copied at once.
pub fn push_escaped(out: &mut Vec<u8>, text: &[u8]) -> Result<(), AllocError>
    ensures { OnOk result (out.new.items ≡ out.old.items ++ escaped text.now) }
{
    if text.is_empty() {
        return out.extend_from_slice(b"%");
    }
    if are_plain(text) {
        return out.extend_from_slice(text);
    }
    push_escaped_bytes(out, text)
}
