ghost use Rattle.std.specs.Prelude.{◌≡◌, List, ℕ, [], Result, Ok, Err, MatchResult};
ghost use Rattle.mp_types.specs.declared.path.PathFault.{PathFault};
ghost use Rattle.mp_script.specs.ScriptText as script;
ghost use Rattle.mp_script.specs.ScriptText.{words_of, change_of, asked_by_process, request_of, put_of, delete_of, open_of, read_of, write_of, handle_only, path_only, asked_of};
ghost use Rattle.mp_script.specs.Reads.{Gives, asked};
ghost use Rattle.mp_script.specs.Words.{opened, verb_request};

use crate::cause::ScriptCause;
use crate::content::content;
use crate::cut::{cut, has_empty_word, one_part, three_parts, two_parts};
use crate::fault::Fault;
use crate::word;
use mount_model::{AskedPath, Request};
use std::alloc::Global;

/// How a file is opened.
#[derive(Clone, Copy)]
pub enum Access {
    Read,
    Write,
    Truncate,
}

/// The verbs of the script.
#[derive(Clone, Copy)]
pub enum Verb {
    Await,
    Put,
    Delete,
    Stat,
    List,
    Open(Access),
    Read,
    Write,
    Sync,
    Close,
    MakeDir,
    RemoveDir,
    Unlink,
}

// Whether a word is the one that is spelled so.
fn is_word(word: &[u8], spelled: &[u8]) -> bool
    ensures { result ≡ script.is_word word.now spelled.now }
{
    word == spelled
}

// The verb of a change that the others make.
fn change_verb(word: &[u8]) -> Result<Verb, ScriptCause>
    ensures { (words : List (List ℕ)) → MatchResult result (λ verb. change_of word.now words ≡ verb_request verb words) (λ cause. change_of word.now words ≡ Err cause) }
{
    if is_word(word, b"put") {
        return Ok(Verb::Put);
    }
    if is_word(word, b"delete") {
        return Ok(Verb::Delete);
    }
    Err(ScriptCause::Verb)
}

// The verb of what a process asks for.
fn process_verb(word: &[u8]) -> Result<Verb, ScriptCause>
    ensures { (words : List (List ℕ)) → MatchResult result (λ verb. asked_by_process word.now words ≡ verb_request verb words) (λ cause. asked_by_process word.now words ≡ Err cause) }
{
    if is_word(word, b"stat") {
        return Ok(Verb::Stat);
    }
    if is_word(word, b"list") {
        return Ok(Verb::List);
    }
    if is_word(word, b"openr") {
        return Ok(Verb::Open(Access::Read));
    }
    if is_word(word, b"openw") {
        return Ok(Verb::Open(Access::Write));
    }
    if is_word(word, b"opent") {
        return Ok(Verb::Open(Access::Truncate));
    }
    if is_word(word, b"read") {
        return Ok(Verb::Read);
    }
    if is_word(word, b"write") {
        return Ok(Verb::Write);
    }
    if is_word(word, b"fsync") {
        return Ok(Verb::Sync);
    }
    if is_word(word, b"close") {
        return Ok(Verb::Close);
    }
    if is_word(word, b"mkdir") {
        return Ok(Verb::MakeDir);
    }
    if is_word(word, b"rmdir") {
        return Ok(Verb::RemoveDir);
    }
    if is_word(word, b"unlink") {
        return Ok(Verb::Unlink);
    }
    Err(ScriptCause::Verb)
}

// The verb, where this actor has it.
fn verb_of(actor: u16, word: &[u8]) -> Result<Verb, ScriptCause>
    ensures { (words : List (List ℕ)) → MatchResult result (λ verb. request_of actor word.now words ≡ verb_request verb words) (λ cause. request_of actor word.now words ≡ Err cause) }
{
    if is_word(word, b"await") {
        return Ok(Verb::Await);
    }
    if actor == 0 {
        return change_verb(word);
    }
    process_verb(word)
}

fn put(alloc: Global, text: &[u8]) -> Result<Request, Fault>
    ensures { Gives (λ r. r) result (put_of (words_of text.now)) }
{
    match two_parts(text, b' ') {
        None => Err(Fault::Cause(ScriptCause::Words)),
        Some(parted) => {
            let key = word::key(alloc, parted.before)?;
            match content(alloc, parted.after) {
                Ok(content) => Ok(Request::Put { key, content }),
                Err(fault) => {
                    drop(key);
                    Err(fault)
                }
            }
        }
    }
}

fn delete(alloc: Global, text: &[u8]) -> Result<Request, Fault>
    ensures { Gives (λ r. r) result (delete_of (words_of text.now)) }
{
    match one_part(text, b' ') {
        None => Err(Fault::Cause(ScriptCause::Words)),
        Some(word) => {
            let key = word::key(alloc, word)?;
            Ok(Request::Delete { key })
        }
    }
}

// The path of a request that has no other words.
fn only_path(alloc: Global, text: &[u8]) -> Result<AskedPath, Fault>
    ensures { (asks : Result (List (List ℕ)) PathFault → Request) → Gives asks result (path_only asks (words_of text.now)) }
{
    match one_part(text, b' ') {
        None => Err(Fault::Cause(ScriptCause::Words)),
        Some(word) => word::path(alloc, word),
    }
}

fn open_file(alloc: Global, access: Access, text: &[u8]) -> Result<Request, Fault>
    ensures { Gives (λ r. r) result (open_of (opened access) (words_of text.now)) }
{
    match two_parts(text, b' ') {
        None => Err(Fault::Cause(ScriptCause::Words)),
        Some(parted) => {
            let handle = word::handle(parted.before)?;
            let path = word::path(alloc, parted.after)?;
            match access {
                Access::Read => Ok(Request::OpenRead { handle, path }),
                Access::Write => Ok(Request::OpenWrite { handle, path }),
                Access::Truncate => Ok(Request::OpenTruncate { handle, path }),
            }
        }
    }
}

fn read(text: &[u8]) -> Result<Request, ScriptCause>
    ensures { result ≡ read_of (words_of text.now) }
{
    match three_parts(text, b' ') {
        None => Err(ScriptCause::Words),
        Some((name, range)) => {
            let handle = word::handle(name)?;
            let offset = word::number(range.before)?;
            let count = word::number(range.after)?;
            Ok(Request::Read {
                handle,
                offset,
                count,
            })
        }
    }
}

fn write(alloc: Global, text: &[u8]) -> Result<Request, Fault>
    ensures { Gives (λ r. r) result (write_of (words_of text.now)) }
{
    match three_parts(text, b' ') {
        None => Err(Fault::Cause(ScriptCause::Words)),
        Some((name, rest)) => {
            let handle = word::handle(name)?;
            let offset = word::number(rest.before)?;
            let content = content(alloc, rest.after)?;
            Ok(Request::Write {
                handle,
                offset,
                content,
            })
        }
    }
}

// The handle of a request that has no other words.
fn only_handle(text: &[u8]) -> Result<u16, ScriptCause>
    ensures { (asks : ℕ → Request) → MatchResult result (λ handle. handle_only asks (words_of text.now) ≡ Ok (asks handle)) (λ cause. handle_only asks (words_of text.now) ≡ Err cause) }
{
    match one_part(text, b' ') {
        None => Err(ScriptCause::Words),
        Some(word) => word::handle(word),
    }
}

// The request of a verb with nothing behind it.
fn bare_request(verb: Verb) -> Result<Request, ScriptCause>
    ensures { result ≡ verb_request verb [] }
{
    match verb {
        Verb::Await => Ok(Request::Await),
        Verb::Put
        | Verb::Delete
        | Verb::Stat
        | Verb::List
        | Verb::Open(_)
        | Verb::Read
        | Verb::Write
        | Verb::Sync
        | Verb::Close
        | Verb::MakeDir
        | Verb::RemoveDir
        | Verb::Unlink => Err(ScriptCause::Words),
    }
}

// The request of a verb with these words behind it.
fn request(alloc: Global, verb: Verb, text: &[u8]) -> Result<Request, Fault>
    ensures { Gives (λ r. r) result (verb_request verb (words_of text.now)) }
{
    match verb {
        Verb::Await => Err(Fault::Cause(ScriptCause::Words)),
        Verb::Put => put(alloc, text),
        Verb::Delete => delete(alloc, text),
        Verb::Stat => match only_path(alloc, text) {
            Ok(path) => Ok(Request::Stat { path }),
            Err(fault) => Err(fault),
        },
        Verb::List => match only_path(alloc, text) {
            Ok(path) => Ok(Request::List { path }),
            Err(fault) => Err(fault),
        },
        Verb::Open(access) => open_file(alloc, access, text),
        Verb::Read => Ok(read(text)?),
        Verb::Write => write(alloc, text),
        Verb::Sync => {
            let handle = only_handle(text)?;
            Ok(Request::Sync { handle })
        }
        Verb::Close => {
            let handle = only_handle(text)?;
            Ok(Request::Close { handle })
        }
        Verb::MakeDir => match only_path(alloc, text) {
            Ok(path) => Ok(Request::MakeDir { path }),
            Err(fault) => Err(fault),
        },
        Verb::RemoveDir => match only_path(alloc, text) {
            Ok(path) => Ok(Request::RemoveDir { path }),
            Err(fault) => Err(fault),
        },
        Verb::Unlink => match only_path(alloc, text) {
            Ok(path) => Ok(Request::Unlink { path }),
            Err(fault) => Err(fault),
        },
    }
}

// The request that the words behind the actor spell.
fn words_request(alloc: Global, actor: u16, text: &[u8]) -> Result<Request, Fault>
    ensures { Gives (λ r. r) result (script.words_request actor (words_of text.now)) }
{
    match cut(text, b' ') {
        None => Ok(bare_request(verb_of(actor, text)?)?),
        Some(parted) => request(alloc, verb_of(actor, parted.before)?, parted.after),
    }
}

fn words_asked(alloc: Global, line: &[u8]) -> Result<(u16, Request), Fault>
    ensures { Gives asked result (script.words_asked (words_of line.now)) }
{
    match cut(line, b' ') {
        None => {
            word::actor(line)?;
            Err(Fault::Cause(ScriptCause::Words))
        }
        Some(parted) => {
            let actor = word::actor(parted.before)?;
            let request = words_request(alloc, actor, parted.after)?;
            Ok((actor, request))
        }
    }
}

/// Who asks for what in a line.
pub fn asked(alloc: Global, line: &[u8]) -> Result<(u16, Request), Fault>
    ensures { Gives asked result (asked_of line.now) }
{
    if has_empty_word(line) {
        return Err(Fault::Cause(ScriptCause::Words));
    }
    words_asked(alloc, line)
}
