use crate::tell::{tell_bytes, tell_word};
use bucket_model::Brief;
use bytes::Bytes;
use mount_model::{Answered, Ask, AskedCall, Event, Owner, Record, Reply};
use mp_io::MemSink;
use mp_record::{PrintFault, print_record, write_all};
use mp_types::Errno;
use std::alloc::Global;

fn sink_of(alloc: Global, word: &str) -> Option<MemSink> {
    let (room, others) = word.split_once(':')?;
    let (piece, fail) = others.split_once(':')?;
    let room = room.parse::<usize>().ok()?;
    let piece = piece.parse::<usize>().ok()?;
    if piece == 0 {
        return None;
    }
    let fails = if fail.is_empty() {
        Vec::new(alloc)
    } else {
        Vec::from_slice(alloc, &[fail.parse::<u64>().ok()?]).ok()?
    };
    MemSink::new(alloc, room, piece, fails).ok()
}

fn add_step(record: &mut Record, event: Event) -> Option<()> {
    match record.make_room(1) {
        Ok(()) => {
            record.event(event);
            Some(())
        }
        Err(_) => {
            drop(event);
            None
        }
    }
}

fn add_steps(record: &mut Record, count: &str) -> Option<()> {
    for _ in 0..count.parse::<usize>().ok()? {
        add_step(
            record,
            Event::Begin {
                line: 1,
                time: 100_000,
            },
        )?;
    }
    Some(())
}

fn answer_of(word: &str) -> Option<Brief> {
    match word {
        "missing" => Some(Brief::Missing),
        "yes" => Some(Brief::Yes),
        "no" => Some(Brief::No),
        "changed" => Some(Brief::Changed),
        "gone" => Some(Brief::Gone),
        "stored" => Some(Brief::Stored),
        "noupload" => Some(Brief::NoUpload),
        "fault" => Some(Brief::Fault),
        "nomemory" => Some(Brief::NoMemory),
        _ => None,
    }
}

fn add_answers(record: &mut Record, words: &str) -> Option<()> {
    for word in words.split(' ') {
        let answer = answer_of(word)?;
        add_step(
            record,
            Event::Done {
                job: 1,
                position: 0,
                answer,
            },
        )?;
    }
    Some(())
}

fn add_data(alloc: Global, record: &mut Record, count: &str) -> Option<()> {
    let bytes = vec![in alloc; 165u8; count.parse::<usize>().ok()?].ok()?;
    let reply = Reply::Data(Bytes::from_vec(bytes).ok()?);
    match record.make_room(2) {
        Ok(()) => {
            record.event(Event::Begin { line: 1, time: 0 });
            record.reply(Answered { line: 1, reply });
            Some(())
        }
        Err(_) => {
            drop(reply);
            None
        }
    }
}

fn add_mixed(record: &mut Record) -> Option<()> {
    record.make_room(7).ok()?;
    record.event(Event::Done {
        job: 2,
        position: 1,
        answer: Brief::Fault,
    });
    record.reply(Answered {
        line: 4,
        reply: Reply::Failed(Errno::Eio),
    });
    record.ask(Ask {
        job: 5,
        owner: Owner::Writer(2),
        call: AskedCall::Abort { upload: 7 },
    });
    record.drop_job(3);
    record.drop_job(4);
    record.event(Event::Begin { line: 6, time: 0 });
    record.drop_job(5);
    Some(())
}

fn add_items(alloc: Global, record: &mut Record, words: &str) -> Option<()> {
    let (kind, rest) = words.split_once(' ').unwrap_or((words, ""));
    match kind {
        "steps" => add_steps(record, rest),
        "data" => add_data(alloc, record, rest),
        "done" => add_answers(record, rest),
        "mixed" if rest.is_empty() => add_mixed(record),
        _ => None,
    }
}

fn tell_held(printed: &mut Vec<u8>, sink: &MemSink, word: &str) -> Option<()> {
    tell_bytes(printed, word, sink.held())?;
    tell_word(printed, "\n")
}

fn write_into(sink: &mut MemSink, text: &str, printed: &mut Vec<u8>) -> Option<()> {
    let word = match write_all(sink, text.as_bytes()) {
        Ok(()) => "ok ",
        Err(_) => "failed ",
    };
    tell_held(printed, sink, word)
}

/// Writes a text, and tells what is held of it.
pub fn write(alloc: Global, words: &str, printed: &mut Vec<u8>) -> Option<()> {
    let (word, text) = words.split_once(' ')?;
    let mut sink = sink_of(alloc, word)?;
    write_into(&mut sink, text, printed)
}

fn print_into(
    alloc: Global,
    record: &Record,
    sink: &mut MemSink,
    printed: &mut Vec<u8>,
) -> Option<()> {
    let word = match print_record(alloc, record, sink) {
        Ok(()) => "ok ",
        Err(PrintFault::Sink) => "failed ",
        Err(PrintFault::Memory) => return None,
    };
    tell_held(printed, sink, word)
}

fn print_items(
    alloc: Global,
    words: &str,
    sink: &mut MemSink,
    printed: &mut Vec<u8>,
) -> Option<()> {
    let mut record = Record::new(alloc);
    match add_items(alloc, &mut record, words) {
        Some(()) => print_into(alloc, &record, sink, printed),
        None => None,
    }
}

/// Prints a record, and tells what is held of its text.
pub fn print(alloc: Global, words: &str, printed: &mut Vec<u8>) -> Option<()> {
    let (word, items) = words.split_once(' ')?;
    let mut sink = sink_of(alloc, word)?;
    print_items(alloc, items, &mut sink, printed)
}
