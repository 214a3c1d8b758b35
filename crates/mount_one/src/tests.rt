use crate::served::run;
use crate::status::Status;
use mem_store::MemStore;
use mp_io::{Clock, ListClock, MemSink, MemSource};
use mp_script::{ScriptCause, What};
use mp_types::Text;
use std::alloc::Global;
use std::test::Fail;
use store_trait::Store;

// One run over an empty bucket, with a clock that stands at 0 and a sink that takes a byte a write.
#[derive(Clone, Copy)]
struct Case<'a> {
    words: &'a [&'a str],
    script: &'a [u8],
    /// The read and the write that fail, counted from 1; 0 is none.
    failing_read: u64,
    failing_write: u64,
    // How it ends, and what then stands in the sink and in the bucket's history.
    status: Status,
    written: &'a [u8],
    position: u64,
}

fn words_of(alloc: Global, words: &[&str]) -> Result<Vec<Text>, Fail> {
    let mut texts = Vec::new(alloc);
    for word in words {
        texts.push(Text::copy(alloc, word)?)?;
    }
    Ok(texts)
}

fn source_of(alloc: Global, case: &Case<'_>) -> Result<MemSource, Fail> {
    let bytes = case.script.to_vec(alloc)?;
    let fails = vec![in alloc; case.failing_read]?;
    Ok(MemSource::new(bytes, 4096, fails))
}

fn sink_of(alloc: Global, case: &Case<'_>) -> Result<MemSink, Fail> {
    let fails = vec![in alloc; case.failing_write]?;
    Ok(MemSink::new(alloc, 4096, 1, fails)?)
}

fn ends_so<C: Clock>(
    alloc: Global,
    case: &Case<'_>,
    words: &[Text],
    source: &mut MemSource,
    sink: &mut MemSink,
    store: &mut MemStore,
    clock: &mut C,
) -> bool {
    let status = run(alloc, words, source, sink, store, clock);
    status == case.status && sink.held() == case.written && store.mark() == case.position
}

// Whether a run is as the case says.
fn is_so(alloc: Global, case: &Case<'_>) -> Result<bool, Fail> {
    let words = words_of(alloc, case.words)?;
    let mut source = source_of(alloc, case)?;
    let mut sink = sink_of(alloc, case)?;
    let mut store = MemStore::new(alloc)?;
    let mut clock = ListClock::new(vec![in alloc; 0u64]?);
    Ok(ends_so(
        alloc,
        case,
        words.as_slice(),
        &mut source,
        &mut sink,
        &mut store,
        &mut clock,
    ))
}

const FIRST: &[u8] = b"0 put a thello\n1 await\n1 stat /a\n";

const FIRST_RECORD: &[u8] =
    b"B 1 0\nA 1 L1 put a 5\nT 1 0 0\nD 1 0 made v1\nR 1 made v1\nB 2 0\nR 2 ok\nB 3 0\nA 2 L3 probe a\nT 2 0 1\nD 2 1 no\nA 3 L3 head a\nT 3 0 2\nD 3 2 found v1 5\nR 3 file 5\n";

#[test]
fn a_put_an_await_and_a_stat_give_this_record(rt: HostRuntime) -> Result<(), Fail> {
    let case = Case {
        words: &["run"],
        script: FIRST,
        failing_read: 0,
        failing_write: 0,
        status: Status::Done,
        written: FIRST_RECORD,
        position: 3,
    };
    assert!(rt; is_so(rt.alloc(), &case)?);
    Ok(())
}

#[test]
fn a_bad_line_is_named_and_nothing_is_done(rt: HostRuntime) -> Result<(), Fail> {
    let case = Case {
        words: &["run"],
        script: b"0 put a t1\n1 stat /a\n1 frob /a\n",
        failing_read: 0,
        failing_write: 0,
        status: Status::BadScript {
            line: 3,
            cause: ScriptCause::Verb,
        },
        written: b"",
        position: 0,
    };
    assert!(rt; is_so(rt.alloc(), &case)?);
    Ok(())
}

#[test]
fn one_byte_too_many_is_refused(rt: HostRuntime) -> Result<(), Fail> {
    let script = vec![in rt.alloc(); b'#'; 67_108_865]?;
    let case = Case {
        words: &["run"],
        script: script.as_slice(),
        failing_read: 0,
        failing_write: 0,
        status: Status::TooLong(What::Bytes),
        written: b"",
        position: 0,
    };
    assert!(rt; is_so(rt.alloc(), &case)?);
    Ok(())
}

fn refused<'a>(words: &'a [&'a str]) -> Case<'a> {
    Case {
        words,
        script: FIRST,
        failing_read: 0,
        failing_write: 0,
        status: Status::Usage,
        written: b"",
        position: 0,
    }
}

#[test]
fn other_words_are_refused(rt: HostRuntime) -> Result<(), Fail> {
    let alloc = rt.alloc();
    assert!(rt; is_so(alloc, &refused(&["run", "--part"]))?);
    assert!(rt; is_so(alloc, &refused(&["walk"]))?);
    assert!(rt; is_so(alloc, &refused(&[]))?);
    Ok(())
}

#[test]
fn a_source_that_fails_leaves_nothing_written(rt: HostRuntime) -> Result<(), Fail> {
    let case = Case {
        words: &["run"],
        script: FIRST,
        failing_read: 1,
        failing_write: 0,
        status: Status::SourceFault,
        written: b"",
        position: 0,
    };
    assert!(rt; is_so(rt.alloc(), &case)?);
    Ok(())
}

#[test]
fn a_sink_that_fails_holds_a_front_of_the_record(rt: HostRuntime) -> Result<(), Fail> {
    let case = Case {
        words: &["run"],
        script: FIRST,
        failing_read: 0,
        failing_write: 11,
        status: Status::SinkFault,
        written: b"B 1 0\nA 1 ",
        position: 3,
    };
    assert!(rt; is_so(rt.alloc(), &case)?);
    Ok(())
}
