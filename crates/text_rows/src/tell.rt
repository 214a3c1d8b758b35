use itoa::Buffer;

/// Of more bytes only the ends are told.
pub const WHOLE: usize = 64;

const DIGITS: [u8; 16] = *b"0123456789abcdef";

pub fn tell_word(printed: &mut Vec<u8>, word: &str) -> Option<()> {
    printed.extend_from_slice(word.as_bytes()).ok()
}

/// Tells a word and the number behind it.
pub fn tell_counted(printed: &mut Vec<u8>, word: &str, number: u64) -> Option<()> {
    tell_word(printed, word)?;
    tell_word(printed, Buffer::new().format(number))
}

fn tell_byte(printed: &mut Vec<u8>, byte: u8) -> Option<()> {
    if byte >= b' ' && byte <= b'~' && byte != b'\\' {
        return printed.push(byte).ok();
    }
    let high = DIGITS[usize::from(byte / 16)];
    let low = DIGITS[usize::from(byte % 16)];
    printed.extend_from_slice(&[b'\\', high, low]).ok()
}

fn tell_each(printed: &mut Vec<u8>, bytes: &[u8]) -> Option<()> {
    for byte in bytes {
        tell_byte(printed, *byte)?;
    }
    Some(())
}

// Tells the ends of more bytes than are told whole.
fn tell_ends(printed: &mut Vec<u8>, bytes: &[u8]) -> Option<()> {
    let (front, _) = bytes.split_at_checked(32)?;
    let (_, back) = bytes.split_at_checked(bytes.len().checked_sub(16)?)?;
    tell_each(printed, front)?;
    tell_word(printed, "..")?;
    tell_each(printed, back)
}

/// Tells bytes behind a word, with their length.
pub fn tell_bytes(printed: &mut Vec<u8>, word: &str, bytes: &[u8]) -> Option<()> {
    tell_counted(printed, word, bytes.len() as u64)?;
    tell_word(printed, ":")?;
    if bytes.len() <= WHOLE {
        tell_each(printed, bytes)
    } else {
        tell_ends(printed, bytes)
    }
}
