use bucket_model::{Brief, Page, PageItem};
use itoa::Buffer;
use std::alloc::AllocError;

/// Prints a word behind a space.
pub fn say(printed: &mut Vec<u8>, word: &[u8]) -> Result<(), AllocError> {
    printed.extend_from_slice(b" ")?;
    printed.extend_from_slice(word)
}

/// Prints a number behind a space.
pub fn say_number(printed: &mut Vec<u8>, number: u64) -> Result<(), AllocError> {
    printed.extend_from_slice(b" ")?;
    print_number(printed, number)
}

/// Prints a number.
pub fn print_number(printed: &mut Vec<u8>, number: u64) -> Result<(), AllocError> {
    printed.extend_from_slice(Buffer::new().format(number).as_bytes())
}

/// Prints a text of any bytes, which may be none.
pub fn print_text(printed: &mut Vec<u8>, text: &[u8]) -> Result<(), AllocError> {
    printed.extend_from_slice(if text.is_empty() {
        b"-".as_slice()
    } else {
        text
    })
}

fn say_object(printed: &mut Vec<u8>, key: &[u8], etag: &[u8], size: u64) -> Result<(), AllocError> {
    say(printed, key)?;
    printed.extend_from_slice(b":")?;
    printed.extend_from_slice(etag)?;
    printed.extend_from_slice(b":")?;
    print_number(printed, size)
}

fn say_item(printed: &mut Vec<u8>, item: &PageItem) -> Result<(), AllocError> {
    match item {
        PageItem::Object { key, etag, size } => {
            say_object(printed, key.as_str().as_bytes(), etag.as_bytes(), *size)
        }
        PageItem::Prefix(prefix) => say(printed, prefix.as_str().as_bytes()),
    }
}

fn say_page(printed: &mut Vec<u8>, page: &Page) -> Result<(), AllocError> {
    say(printed, b"page")?;
    for item in page.items.as_slice() {
        say_item(printed, item)?;
    }
    if page.more {
        say(printed, b"+")
    } else {
        Ok(())
    }
}

fn say_found(printed: &mut Vec<u8>, etag: &[u8], size: u64) -> Result<(), AllocError> {
    say(printed, b"found")?;
    say(printed, etag)?;
    say_number(printed, size)
}

fn say_bytes(printed: &mut Vec<u8>, bytes: &[u8]) -> Result<(), AllocError> {
    say(printed, b"bytes ")?;
    print_text(printed, bytes)
}

fn say_made(printed: &mut Vec<u8>, etag: &[u8]) -> Result<(), AllocError> {
    say(printed, b"made")?;
    say(printed, etag)
}

fn say_upload(printed: &mut Vec<u8>, upload: u64) -> Result<(), AllocError> {
    say(printed, b"upload")?;
    say_number(printed, upload)
}

fn say_brief(printed: &mut Vec<u8>, answer: &Brief, bytes: &[u8]) -> Result<(), AllocError> {
    match answer {
        Brief::Found { etag, size } => say_found(printed, etag.as_bytes(), *size),
        Brief::Missing => say(printed, b"missing"),
        Brief::Yes => say(printed, b"yes"),
        Brief::No => say(printed, b"no"),
        Brief::Page(page) => say_page(printed, page),
        Brief::Bytes { .. } => say_bytes(printed, bytes),
        Brief::Changed => say(printed, b"changed"),
        Brief::Gone => say(printed, b"gone"),
        Brief::Made(etag) => say_made(printed, etag.as_bytes()),
        Brief::Upload(upload) => say_upload(printed, *upload),
        Brief::Stored => say(printed, b"stored"),
        Brief::NoUpload => say(printed, b"no upload"),
        Brief::Fault => say(printed, b"fault"),
        Brief::NoMemory => say(printed, b"no memory"),
    }
}

/// Prints the place of a call's entry and its answer, which brings these bytes.
pub fn print_answer(
    printed: &mut Vec<u8>,
    place: u64,
    answer: &Brief,
    bytes: &[u8],
) -> Result<(), AllocError> {
    print_number(printed, place)?;
    say_brief(printed, answer, bytes)
}
