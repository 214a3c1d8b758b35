use crate::request::tell_line;
use crate::tell::{tell_counted, tell_word};
use mount_model::Line;
use mp_script::{ScriptCause, ScriptError, What, read_script};
use std::alloc::Global;

fn cause_name(cause: ScriptCause) -> &'static str {
    match cause {
        ScriptCause::Actor => " actor\n",
        ScriptCause::Verb => " verb\n",
        ScriptCause::Words => " words\n",
        ScriptCause::Handle => " handle\n",
        ScriptCause::Number => " number\n",
        ScriptCause::Escape => " escape\n",
        ScriptCause::Utf8 => " utf8\n",
        ScriptCause::Key => " key\n",
        ScriptCause::Data => " data\n",
    }
}

fn tell_error(printed: &mut Vec<u8>, error: ScriptError) -> Option<()> {
    match error {
        ScriptError::Bad { line, cause } => {
            tell_counted(printed, "bad ", u64::from(line))?;
            tell_word(printed, cause_name(cause))
        }
        ScriptError::TooLong(What::Bytes) => tell_word(printed, "long bytes\n"),
        ScriptError::TooLong(What::Lines) => tell_word(printed, "long lines\n"),
        ScriptError::TooLong(What::Reads) => tell_word(printed, "long reads\n"),
        ScriptError::TooLong(What::Data) => tell_word(printed, "long data\n"),
        ScriptError::Memory => None,
    }
}

fn tell_lines(alloc: Global, lines: &[Line], printed: &mut Vec<u8>) -> Option<()> {
    tell_counted(printed, "read ", lines.len() as u64)?;
    tell_word(printed, "\n")?;
    for line in lines {
        tell_line(alloc, line, printed)?;
    }
    Some(())
}

fn tell_read(alloc: Global, bytes: &[u8], printed: &mut Vec<u8>) -> Option<()> {
    match read_script(alloc, bytes) {
        Ok(lines) => tell_lines(alloc, lines.as_slice(), printed),
        Err(error) => tell_error(printed, error),
    }
}

/// Reads the script, and leaves an empty one.
pub fn read(alloc: Global, script: &mut Vec<u8>, printed: &mut Vec<u8>) -> Option<()> {
    let told = tell_read(alloc, script.as_slice(), printed);
    script.clear();
    told
}
