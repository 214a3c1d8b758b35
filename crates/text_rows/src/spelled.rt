use hex::FromHex;

// A byte by its two digits, and the plain bytes behind it.
fn push_coded(bytes: &mut Vec<u8>, piece: &[u8]) -> Option<()> {
    match piece {
        [high, low, plain @ ..] => {
            let coded = <[u8; 1]>::from_hex([*high, *low]).ok()?;
            bytes.extend_from_slice(&coded).ok()?;
            bytes.extend_from_slice(plain).ok()
        }
        _ => None,
    }
}

// A text so many times, and the plain bytes behind it.
fn push_repeated(bytes: &mut Vec<u8>, piece: &str) -> Option<()> {
    let (repeated, plain) = piece.split_once(')')?;
    let (count, text) = repeated.split_once(' ')?;
    for _ in 0..count.parse::<usize>().ok()? {
        bytes.extend_from_slice(text.as_bytes()).ok()?;
    }
    bytes.extend_from_slice(plain.as_bytes()).ok()
}

// What stands behind a `\`, up to the next.
fn push_piece(bytes: &mut Vec<u8>, piece: &str) -> Option<()> {
    match piece.strip_prefix('(') {
        Some(repeated) => push_repeated(bytes, repeated),
        None => push_coded(bytes, piece.as_bytes()),
    }
}

/// Adds the bytes that a line of the table spells.
pub fn push_spelled(bytes: &mut Vec<u8>, line: &str) -> Option<()> {
    let (plain, coded) = match line.split_once('\\') {
        Some(parts) => parts,
        None => return bytes.extend_from_slice(line.as_bytes()).ok(),
    };
    bytes.extend_from_slice(plain.as_bytes()).ok()?;
    for piece in coded.split('\\') {
        push_piece(bytes, piece)?;
    }
    Some(())
}

/// Adds so many lines of the bytes that a line of the table spells.
pub fn push_copies(bytes: &mut Vec<u8>, count: usize, line: &str) -> Option<()> {
    for _ in 0..count {
        push_spelled(bytes, line)?;
        bytes.extend_from_slice(b"\n").ok()?;
    }
    Some(())
}
