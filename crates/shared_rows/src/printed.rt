use bucket_model::Answer;
use itoa::Buffer;
use std::alloc::AllocError;

/// Prints a number.
pub fn print_number(printed: &mut Vec<u8>, number: u64) -> Result<(), AllocError> {
    printed.extend_from_slice(Buffer::new().format(number).as_bytes())
}

/// Prints a line that says how many there are of what.
pub fn print_count(printed: &mut Vec<u8>, what: &[u8], count: u64) -> Result<(), AllocError> {
    printed.extend_from_slice(what)?;
    printed.extend_from_slice(b": ")?;
    print_number(printed, count)?;
    printed.extend_from_slice(b"\n")
}

fn print_found(printed: &mut Vec<u8>, etag: &[u8], size: u64) -> Result<(), AllocError> {
    printed.extend_from_slice(b" found ")?;
    printed.extend_from_slice(etag)?;
    printed.extend_from_slice(b" ")?;
    print_number(printed, size)
}

fn print_made(printed: &mut Vec<u8>, etag: &[u8]) -> Result<(), AllocError> {
    printed.extend_from_slice(b" made ")?;
    printed.extend_from_slice(etag)
}

/// Prints a line with the position of a call's entry and its answer.
pub fn print_answer(
    printed: &mut Vec<u8>,
    what: &[u8],
    position: u64,
    answer: &Answer,
) -> Result<(), AllocError> {
    printed.extend_from_slice(what)?;
    printed.extend_from_slice(b": ")?;
    print_number(printed, position)?;
    match answer {
        Answer::Found { etag, size } => print_found(printed, etag.as_bytes(), *size)?,
        Answer::Made(etag) => print_made(printed, etag.as_bytes())?,
        _ => printed.extend_from_slice(b" otherwise")?,
    }
    printed.extend_from_slice(b"\n")
}
