ghost use Rattle.std.specs.Prelude.{◌≤◌, length};

use crate::cut::cut;
use crate::words::number_of;
use itoa::Buffer;
use std::alloc::AllocError;

// A number, with so many digits at least. Of no digits nothing is written.
fn push_number(script: &mut Vec<u8>, number: u64, width: usize) -> Result<(), AllocError> {
    if width == 0 {
        return Ok(());
    }
    let mut buffer = Buffer::new();
    let digits = buffer.format(number).as_bytes();
    for _ in digits.len()..width {
        script.push(b'0')?;
    }
    script.extend_from_slice(digits)
}

// The place of the first `#`, or the end.
fn sign_in(line: &[u8]) -> usize
    ensures { result ≤ length line.now }
{
    match line.iter().position(|byte| *byte == b'#') {
        Some(at) => at,
        None => line.len(),
    }
}

// How many `#` a text begins with.
fn signs_of(text: &[u8]) -> usize
    ensures { result ≤ length text.now }
{
    match text.iter().position(|byte| *byte != b'#') {
        Some(at) => at,
        None => text.len(),
    }
}

// So many copies of a line, each with its number.
fn push_copies(script: &mut Vec<u8>, count: u64, line: &[u8]) -> Result<(), AllocError> {
    let (front, rest) = line.split_at(sign_in(line));
    let (signs, back) = rest.split_at(signs_of(rest));
    for number in 0..count {
        script.extend_from_slice(front)?;
        push_number(script, number, signs.len())?;
        script.extend_from_slice(back)?;
        script.push(b'\n')?;
    }
    Ok(())
}

// Adds what a row's line stands for.
fn push_line(script: &mut Vec<u8>, line: &[u8]) -> Result<(), AllocError> {
    if let Some(copied) = line.strip_prefix(b"* ") {
        let parted = cut(copied, b' ');
        if let Some(count) = number_of(parted.before) {
            return push_copies(script, count, parted.after);
        }
    }
    script.extend_from_slice(line)?;
    script.push(b'\n')?;
    Ok(())
}

/// Adds the script that a row's lines stand for.
pub fn push_script(script: &mut Vec<u8>, lines: &[u8]) -> Result<(), AllocError> {
    let lines = match lines.strip_suffix(b"\n") {
        Some(lines) => lines,
        None => lines,
    };
    if lines.is_empty() {
        return Ok(());
    }
    for line in lines.split(|byte| *byte == b'\n') {
        push_line(script, line)?;
    }
    Ok(())
}
