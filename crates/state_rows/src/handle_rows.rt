use crate::print::{say, say_maybe, say_number, say_whether, say_with};
use crate::words::{name, number};
use mp_handles::{Handles, OpenFault};

// The process and the name that two words give.
fn names(actor: &str, handle: &str) -> Option<(u16, u16)> {
    Some((name(actor)?, name(handle)?))
}

fn open(handles: &mut Handles<u64>, arguments: &[&str], printed: &mut Vec<u8>) -> Option<()> {
    let [actor, handle, value] = arguments else {
        return None;
    };
    let (actor, name) = names(*actor, *handle)?;
    match handles.open(actor, name, number(*value)?) {
        Ok(()) => say(printed, "opened"),
        Err((OpenFault::InUse, value)) => say_with(printed, "in use ", value),
        Err((OpenFault::Full, value)) => say_with(printed, "full ", value),
        Err((OpenFault::Memory, value)) => say_with(printed, "no memory ", value),
    }
}

fn open_many(handles: &mut Handles<u64>, arguments: &[&str], printed: &mut Vec<u8>) -> Option<()> {
    let [actor, count] = arguments else {
        return None;
    };
    let (actor, count) = names(*actor, *count)?;
    let mut opened: u16 = 0;
    for name in 0..count {
        match handles.open(actor, name, u64::from(name)) {
            Ok(()) => opened = opened.saturating_add(1),
            Err(_) => {}
        }
    }
    say_number(printed, u64::from(opened))
}

fn get(handles: &Handles<u64>, arguments: &[&str], printed: &mut Vec<u8>) -> Option<()> {
    let [actor, handle] = arguments else {
        return None;
    };
    let (actor, name) = names(*actor, *handle)?;
    say_maybe(printed, handles.get(actor, name).copied())
}

fn set(handles: &mut Handles<u64>, arguments: &[&str], printed: &mut Vec<u8>) -> Option<()> {
    let [actor, handle, value] = arguments else {
        return None;
    };
    let (actor, name) = names(*actor, *handle)?;
    let value = number(*value)?;
    match handles.get_mut(actor, name) {
        Some(place) => {
            *place = value;
            say(printed, "set")
        }
        None => say(printed, "none"),
    }
}

fn close(handles: &mut Handles<u64>, arguments: &[&str], printed: &mut Vec<u8>) -> Option<()> {
    let [actor, handle] = arguments else {
        return None;
    };
    let (actor, name) = names(*actor, *handle)?;
    say_maybe(printed, handles.close(actor, name))
}

/// Plays a call of the table of handles.
pub fn play_handles(
    handles: &mut Handles<u64>,
    verb: &str,
    arguments: &[&str],
    printed: &mut Vec<u8>,
) -> Option<()> {
    match verb {
        "open" => open(handles, arguments, printed),
        "open_many" => open_many(handles, arguments, printed),
        "get" => get(handles, arguments, printed),
        "set" => set(handles, arguments, printed),
        "close" => close(handles, arguments, printed),
        "len" if arguments.is_empty() => say_number(printed, handles.len() as u64),
        "full" if arguments.is_empty() => say_whether(printed, handles.is_full()),
        _ => None,
    }
}
