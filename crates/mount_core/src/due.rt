ghost use Rattle.std.specs.Prelude.{◌≡◌, ℕ, Option, IfOk, option_copied};
ghost use Rattle.mp_types.specs.Content.{bytes_of};
ghost use Rattle.mp_types.specs.Key.{IsKeyText};
ghost use Rattle.bucket_model.specs.declared.call.Call.TheVariants.{Delete, Get, List as Page, Put};
ghost use Rattle.mp_rules.specs.QuestionRef.{as_question, key_in};
ghost use Rattle.listing_rules.specs.Names.{listing_of, prefix_of};
ghost use Rattle.listing_rules.specs.Pages.{items_of};
ghost use Rattle.mount_model.specs.declared.request.Request.{Request};
ghost use Rattle.mount_model.specs.Conversation.{Next, Asks, Makes, Opens, Creates, Lists, next_of, pages_in};
ghost use Rattle.mount_model.specs.Handles.{Handle as HandleAt, owner_for};
ghost use Rattle.mount_model.specs.Heard.{call_of};
ghost use Rattle.mount_plan.specs.Meant.{MeansOne, text_behind, with_last};
ghost use Rattle.mount_plan.specs.Seen.{view_of};
ghost use Rattle.mount_core.specs.Due.{DueMeans, DueIsOf, DueTells};

use crate::listing::{listing, page_calls};
use bucket_model::Call;
use bytes::Bytes;
use job_table::{Asking, Purpose};
use local_names::Locals;
use mount_model::{AskedCall, Handle, Heard, Owner, Reply, Request, Told, Version, Waiter};
use mount_plan::{LinePlan, Plan, View, plan};
use mp_rules::{DirEntry, Question, QuestionRef};
use mp_types::{Data, ETag, FilePath, Items, Key, Text};
use part_uploader::Uploader;
use std::alloc::{AllocError, Global};

/// What is due of a line, with all the memory that it takes.
#[derive(Drop)]
pub enum Due {
    /// A call of the line.
    Call(Asking),
    Reply(Reply),
    /// The directory of this key.
    MakeDir(Key),
    /// The directory of its path goes. That takes no memory, so no key is copied.
    RemoveDir,
    /// A handle on this version.
    Open(Version),
    /// A handle on a new file of this key.
    Create(Key),
    /// What a directory shows.
    Listed(Items<DirEntry>),
    /// The content of its request goes to the writer of its handle. No byte is copied before that.
    Write,
    /// The writer of its handle makes its object, and the line waits for it so.
    Wait(Waiter),
    /// The bytes that the last answer brought, or none.
    Data,
    /// It waits for other lines.
    Nothing,
    /// A call, a handle, a directory or what one shows is due, and there is no memory for it.
    NoMemory,
}

// A key for the call, and one for what the record tells of it.
fn shared_twice(key: &Key) -> Result<(Key, Key), AllocError>
    ensures { IfOk result (λ keys. (keys.0 ≡ key.now) × (keys.1 ≡ key.now)) }
{
    Ok((key.share()?, key.share()?))
}

// And one for the question that waits for the answer.
fn three_keys(alloc: Global, text: &str) -> Result<(Key, Key, Key), AllocError>
    requires key { IsKeyText text.now }
    ensures { IfOk result (λ keys. (keys.0 ≡ text.now) × (keys.1 ≡ text.now) × (keys.2 ≡ text.now)) }
{
    let own = Key::of(alloc, text)?;
    let (key, told) = shared_twice(&own)?;
    Ok((key, told, own))
}

fn ask(alloc: Global, line: u32, owner: Owner, asked: QuestionRef<'_>) -> Due
    requires key { IsKeyText (key_in asked) }
    ensures means { DueMeans result owner (Asks (call_of (as_question asked.entry))) }
    ensures whose { (number : ℕ) (request : Request) (handle : Option HandleAt) → DueIsOf result number request handle }
    ensures tells { DueTells result line }
{
    let (key, told, own) = match three_keys(alloc, asked.key()) {
        Ok(keys) => keys,
        Err(_) => return Due::NoMemory,
    };
    let (call, told, question) = match asked {
        QuestionRef::Probe(_) => (
            Call::Probe { key },
            AskedCall::Probe { key: told },
            Question::Probe(own),
        ),
        QuestionRef::Head(_) => (
            Call::Head { key },
            AskedCall::Head { key: told },
            Question::Head(own),
        ),
    };
    Due::Call(Asking {
        owner,
        line,
        call,
        asked: told,
        purpose: Purpose::Question(question),
    })
}

fn page(
    alloc: Global,
    line: u32,
    owner: Owner,
    path: &FilePath,
    after: Option<&Text>,
    max: u32,
) -> Due
    ensures means { DueMeans result owner (Asks (Page (prefix_of path.now) (text_behind after.entry) max)) }
    ensures whose { (number : ℕ) (asked : Request) (handle : Option HandleAt) → DueIsOf result number asked handle }
    ensures tells { DueTells result line }
{
    match page_calls(alloc, path, after, max) {
        Ok((call, asked)) => Due::Call(Asking {
            owner,
            line,
            call,
            asked,
            purpose: Purpose::Other,
        }),
        Err(_) => Due::NoMemory,
    }
}

fn get(line: u32, owner: Owner, version: &Version, from: u64, to: u64) -> Due
    ensures means { DueMeans result owner (Asks (Get version.now.key version.now.etag from to)) }
    ensures whose { (number : ℕ) (asked : Request) (handle : Option HandleAt) → DueIsOf result number asked handle }
    ensures tells { DueTells result line }
{
    match shared_twice(&version.key) {
        Ok((key, told)) => Due::Call(Asking {
            owner,
            line,
            call: Call::Get {
                key,
                etag: version.etag.copy(),
                from,
                to,
            },
            asked: AskedCall::Get {
                key: told,
                etag: version.etag.copy(),
                from,
                to,
            },
            purpose: Purpose::Other,
        }),
        Err(_) => Due::NoMemory,
    }
}

fn delete(line: u32, owner: Owner, key: &Key) -> Due
    ensures means { DueMeans result owner (Asks (Delete key.now)) }
    ensures whose { (number : ℕ) (asked : Request) (handle : Option HandleAt) → DueIsOf result number asked handle }
    ensures tells { DueTells result line }
{
    match shared_twice(key) {
        Ok((key, told)) => Due::Call(Asking {
            owner,
            line,
            call: Call::Delete { key },
            asked: AskedCall::Delete { key: told },
            purpose: Purpose::Other,
        }),
        Err(_) => Due::NoMemory,
    }
}

fn unlink(alloc: Global, line: u32, owner: Owner, text: &str) -> Due
    requires key { IsKeyText text.now }
    ensures means { DueMeans result owner (Asks (Delete text.now)) }
    ensures whose { (number : ℕ) (asked : Request) (handle : Option HandleAt) → DueIsOf result number asked handle }
    ensures tells { DueTells result line }
{
    match Key::of(alloc, text) {
        Ok(key) => {
            let due = delete(line, owner, &key);
            drop(key);
            due
        }
        Err(_) => Due::NoMemory,
    }
}

fn stored(alloc: Global, content: &Data) -> Result<Bytes, AllocError>
    ensures { IfOk result (λ bytes. bytes ≡ bytes_of content.now) }
{
    match Bytes::from_vec(content.to_vec(alloc)?) {
        Ok(bytes) => Ok(bytes),
        Err(_) => Err(AllocError),
    }
}

fn put(alloc: Global, line: u32, owner: Owner, key: &Key, content: &Data) -> Due
    ensures means { DueMeans result owner (Asks (Put key.now (bytes_of content.now))) }
    ensures whose { (number : ℕ) (asked : Request) (handle : Option HandleAt) → DueIsOf result number asked handle }
    ensures tells { DueTells result line }
{
    let bytes = match stored(alloc, content) {
        Ok(bytes) => bytes,
        Err(_) => return Due::NoMemory,
    };
    match shared_twice(key) {
        Ok((key, told)) => {
            let length = bytes.len() as u64;
            Due::Call(Asking {
                owner,
                line,
                call: Call::Put { key, bytes },
                asked: AskedCall::Put { key: told, length },
                purpose: Purpose::Other,
            })
        }
        Err(_) => {
            drop(bytes);
            Due::NoMemory
        }
    }
}

fn make_dir(alloc: Global, text: &str) -> Due
    requires key { IsKeyText text.now }
    ensures means { (owner : Owner) → DueMeans result owner (Makes text.now) }
    ensures whose { (number : ℕ) (asked : Request) (handle : Option HandleAt) → DueIsOf result number asked handle }
    ensures tells { (line : ℕ) → DueTells result line }
{
    match Key::of(alloc, text) {
        Ok(key) => Due::MakeDir(key),
        Err(_) => Due::NoMemory,
    }
}

fn open(alloc: Global, text: &str, etag: ETag, size: u64) -> Due
    requires key { IsKeyText text.now }
    ensures means { (owner : Owner) → DueMeans result owner (Opens (record { key = text.now; etag = etag; size = size })) }
    ensures whose { (number : ℕ) (asked : Request) (handle : Option HandleAt) → DueIsOf result number asked handle }
    ensures tells { (line : ℕ) → DueTells result line }
{
    match Key::of(alloc, text) {
        Ok(key) => Due::Open(Version { key, etag, size }),
        Err(_) => Due::NoMemory,
    }
}

fn create(alloc: Global, text: &str) -> Due
    requires key { IsKeyText text.now }
    ensures means { (owner : Owner) → DueMeans result owner (Creates text.now) }
    ensures whose { (number : ℕ) (asked : Request) (handle : Option HandleAt) → DueIsOf result number asked handle }
    ensures tells { (line : ℕ) → DueTells result line }
{
    match Key::of(alloc, text) {
        Ok(key) => Due::Create(key),
        Err(_) => Due::NoMemory,
    }
}

fn listed(alloc: Global, path: &FilePath, heard: &Heard, last: Option<&Told>, names: &Locals) -> Due
    ensures means { (owner : Owner) → DueMeans result owner (Lists (listing_of (prefix_of path.now) (items_of (pages_in (with_last (option_copied last.entry) heard.now).answers)) names.now)) }
    ensures whose { (number : ℕ) (asked : Request) (handle : Option HandleAt) → DueIsOf result number asked handle }
    ensures tells { (line : ℕ) → DueTells result line }
{
    match listing(alloc, path, heard, last, names) {
        Ok(entries) => Due::Listed(entries),
        Err(_) => Due::NoMemory,
    }
}

// Whose jobs the line asks for: a read asks for the stream of its handle.
fn owner_of(line: u32, request: &Request, handle: Option<&Handle<Uploader>>) -> Owner
    ensures { result ≡ owner_for line request.now (option_copied handle.entry) }
{
    match request {
        Request::Read { .. } => match handle {
            Some(Handle::Reading { line: opened, .. }) => Owner::Stream(*opened),
            Some(Handle::Writing(_)) | None => Owner::Line(line),
        },
        _ => Owner::Line(line),
    }
}

// What a line does next by itself, with all the memory that it takes.
fn line_due(alloc: Global, line: u32, owner: Owner, plan: LinePlan) -> Due
    requires { (next : Next) × MeansOne plan next }
    ensures means { (next : Next) → MeansOne plan.entry next → DueMeans result owner next }
    ensures whose { (number : ℕ) (asked : Request) (handle : Option HandleAt) → DueIsOf result number asked handle }
    ensures tells { DueTells result line }
{
    match plan {
        LinePlan::Ask(asked) => ask(alloc, line, owner, asked),
        LinePlan::Page { path, after, max } => page(alloc, line, owner, path, after, max),
        LinePlan::Get { version, from, to } => get(line, owner, version, from, to),
        LinePlan::Delete(key) => delete(line, owner, key),
        LinePlan::Unlink(key) => unlink(alloc, line, owner, key),
        LinePlan::Put { key, content } => put(alloc, line, owner, key, content),
        LinePlan::MakeDir(key) => make_dir(alloc, key),
        LinePlan::RemoveDir(_) => Due::RemoveDir,
        LinePlan::Open { key, etag, size } => open(alloc, key, etag, size),
        LinePlan::Create { key } => create(alloc, key),
        LinePlan::List {
            path,
            heard,
            last,
            names,
        } => listed(alloc, path, heard, last, names),
        LinePlan::Give { .. } => Due::Data,
        LinePlan::Reply(reply) => Due::Reply(reply),
        LinePlan::Wait => Due::Nothing,
    }
}

/// What is due of a line by what it sees of the mount, its request, and what it has heard of its own calls, the last
/// answer apart.
pub fn due_of(
    alloc: Global,
    view: View,
    request: &Request,
    heard: &Heard,
    last: Option<&Told>,
) -> Due
    ensures means { DueMeans result (owner_for (view_of view.entry).line request.now (view_of view.entry).handle) (next_of (view_of view.entry) request.now (with_last (option_copied last.entry) heard.now)) }
    ensures whose { DueIsOf result (view_of view.entry).line request.now (view_of view.entry).handle }
    ensures tells { DueTells result (view_of view.entry).line }
{
    let line = view.line;
    let owner = owner_of(line, request, view.handle);
    match plan(view, request, heard, last) {
        Plan::Line(plan) => line_due(alloc, line, owner, plan),
        Plan::Write { .. } => Due::Write,
        Plan::Sync { .. } => Due::Wait(Waiter::Sync(line)),
        Plan::Finish { .. } => Due::Wait(Waiter::Close(line)),
    }
}
