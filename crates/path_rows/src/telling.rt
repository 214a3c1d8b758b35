use itoa::Buffer;
use std::alloc::AllocError;

/// Tells a text, which may have no bytes.
pub fn tell_text(printed: &mut String, text: &str) -> Result<(), AllocError> {
    printed.push_str(if text.is_empty() { "-" } else { text })
}

pub fn tell_number(printed: &mut String, number: u64) -> Result<(), AllocError> {
    printed.push_str(Buffer::new().format(number))
}

pub fn tell_answer(printed: &mut String, holds: bool) -> Result<(), AllocError> {
    printed.push_str(if holds { "yes" } else { "no" })
}

/// Tells a word and a number behind it.
pub fn tell_counted(printed: &mut String, word: &str, number: u64) -> Result<(), AllocError> {
    printed.push_str(word)?;
    tell_number(printed, number)
}

/// Tells a name in a directory, behind the mark of what stands there.
pub fn tell_name(printed: &mut String, mark: &str, name: &str) -> Result<(), AllocError> {
    printed.push_str(mark)?;
    printed.push_str(name)
}

/// Tells the name of a file in a directory, behind its mark and how many bytes it has.
pub fn tell_file(
    printed: &mut String,
    mark: &str,
    size: u64,
    name: &str,
) -> Result<(), AllocError> {
    tell_counted(printed, mark, size)?;
    tell_name(printed, ":", name)
}
