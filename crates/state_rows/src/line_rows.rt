ghost use Rattle.std.specs.Prelude.{IsTrue};
ghost use Rattle.mount_model.specs.Run.{AreRising};

use crate::print::{say, say_number, say_whether, say_with};
use crate::words::{line_number, name, only, words_of};
use bucket_model::Brief;
use line_table::Lines;
use mount_model::{Line, Phase, Request, Script, Told};
use mp_rules::{Fact, Known, Question};
use mp_types::{FilePath, Items, Key};
use std::alloc::Global;

fn request(alloc: Global, word: &str) -> Option<Request> {
    match word {
        "await" => Some(Request::Await),
        "stat" => Some(Request::Stat {
            path: Ok(FilePath::parse(alloc, "/a").ok()?),
        }),
        _ => None,
    }
}

fn line_of(alloc: Global, parts: &[&str]) -> Option<Line> {
    let [number, actor, asks] = parts else {
        return None;
    };
    let number = line_number(*number)?;
    let actor = name(*actor)?;
    let request = request(alloc, *asks)?;
    Some(Line {
        number,
        actor,
        request,
    })
}

fn add_line(alloc: Global, word: &str, script: &mut Script) -> Option<()> {
    let parts = words_of(alloc, word, ':').ok()?;
    let line = line_of(alloc, parts.as_slice());
    drop(parts);
    script.push(line?).ok()
}

fn add_lines(alloc: Global, words: &[&str], script: &mut Script) -> Option<()> {
    for word in words {
        add_line(alloc, *word, script)?;
    }
    Some(())
}

// Whether the numbers rise, from above this one on.
fn are_rising(above: u32, lines: &[Line]) -> bool
    ensures { IsTrue result → AreRising above lines.now }
{
    match lines {
        [] => true,
        [line, rest @ ..] => above < line.number && are_rising(line.number, rest),
    }
}

/// The lines of the script that these words give.
pub fn lines_of(alloc: Global, words: &[&str]) -> Option<Lines> {
    let mut script = Items::new(alloc);
    match add_lines(alloc, words, &mut script) {
        Some(()) if are_rising(0, script.as_slice()) => Lines::new(alloc, script).ok(),
        _ => {
            drop(script);
            None
        }
    }
}

fn begin(
    alloc: Global,
    lines: &mut Lines,
    arguments: &[&str],
    printed: &mut Vec<u8>,
) -> Option<()> {
    let number = line_number(only(arguments)?)?;
    if !lines.startable(number) {
        return None;
    }
    lines.begin(alloc, number);
    say(printed, "ok")
}

fn reply(lines: &mut Lines, arguments: &[&str], printed: &mut Vec<u8>) -> Option<()> {
    let number = line_number(only(arguments)?)?;
    match &lines.standing(number)?.phase {
        Phase::Begun(_) => {}
        Phase::Waiting | Phase::Replied => return None,
    }
    lines.reply(number);
    say(printed, "ok")
}

fn may(lines: &Lines, arguments: &[&str], printed: &mut Vec<u8>) -> Option<()> {
    say_whether(printed, lines.startable(line_number(only(arguments)?)?))
}

// The lines that may begin.
fn startable(lines: &Lines, printed: &mut Vec<u8>) -> Option<()> {
    say(printed, "these")?;
    for place in 0..lines.startable_len() {
        say_with(printed, " ", u64::from(lines.startable_at(place)?))?;
    }
    Some(())
}

fn told(alloc: Global, words: &[&str]) -> Option<Told> {
    match words {
        ["gone"] => Some(Told::Answer(Brief::Gone)),
        ["fault"] => Some(Told::Answer(Brief::Fault)),
        ["no", key] => Some(Told::Fact(Known {
            question: Question::Probe(Key::parse(alloc, *key).ok()?),
            fact: Fact::No,
        })),
        _ => None,
    }
}

fn hear(alloc: Global, lines: &mut Lines, arguments: &[&str], printed: &mut Vec<u8>) -> Option<()> {
    let [line, words @ ..] = arguments else {
        return None;
    };
    let number = line_number(*line)?;
    lines.hear(number, told(alloc, words)?).ok()?;
    say(printed, "ok")
}

fn heard(lines: &Lines, arguments: &[&str], printed: &mut Vec<u8>) -> Option<()> {
    let number = line_number(only(arguments)?)?;
    match lines.standing(number) {
        Some(standing) => match &standing.phase {
            Phase::Begun(heard) => {
                say_number(printed, heard.facts.as_slice().len() as u64)?;
                say_with(printed, " ", heard.answers.len() as u64)
            }
            Phase::Waiting | Phase::Replied => say(printed, "none"),
        },
        None => say(printed, "none"),
    }
}

fn due(lines: &Lines, printed: &mut Vec<u8>) -> Option<()> {
    match lines.due_await() {
        Some(line) => say_number(printed, u64::from(line)),
        None => say(printed, "none"),
    }
}

/// Plays a call of the lines.
pub fn play_lines(
    alloc: Global,
    lines: &mut Lines,
    verb: &str,
    arguments: &[&str],
    printed: &mut Vec<u8>,
) -> Option<()> {
    match verb {
        "begin" => begin(alloc, lines, arguments, printed),
        "reply" => reply(lines, arguments, printed),
        "may" => may(lines, arguments, printed),
        "startable" if arguments.is_empty() => startable(lines, printed),
        "startable_count" if arguments.is_empty() => {
            say_number(printed, lines.startable_len() as u64)
        }
        "hear" => hear(alloc, lines, arguments, printed),
        "heard" => heard(lines, arguments, printed),
        "due" if arguments.is_empty() => due(lines, printed),
        "all_replied" if arguments.is_empty() => say_whether(printed, lines.all_replied()),
        _ => None,
    }
}
