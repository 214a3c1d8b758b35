ghost use Rattle.std.specs.Prelude.{◌≡◌, ◌≢◌, Some, None, IfOk, IfErr, OnOk, OnErr};
ghost use Rattle.std.specs.Borrow.{sem};
ghost use Rattle.std.specs.FinMap.{get, insert, len};
ghost use Rattle.mp_types.specs.HandleName.{max_handles};
ghost use Rattle.mp_types.specs.Content.{bytes_of};
ghost use Rattle.bucket_model.specs.declared.call.Call.{Call};
ghost use Rattle.mount_model.specs.declared.handle.Handle.TheVariants.{Writing};
ghost use Rattle.mount_model.specs.Handles.{Writer as WriterOf};
ghost use Rattle.mount_model.specs.Conversation.{with_upload};
ghost use Rattle.mount_model.specs.Writers.{hears_answer, is_under_way};
ghost use Rattle.job_table.specs.LiveJobs.{purpose_of};
ghost use Rattle.file_handles.specs.Lends.{lends_writer, lends_writer_at};
ghost use Rattle.file_handles.specs.Writing.{IsRefused, IsWriter, IsWriting, MayHear, Wrote, unanswered, waits};

use crate::writer::{begin_wait, end_wait, hear_back, take_bytes};
use bucket_model::Brief;
use job_table::Purpose;
use mount_model::{Handle, Waiter, Writer};
use mp_handles::{Handles, OpenFault};
use mp_types::{Data, Errno};
use part_uploader::Uploader;
use std::alloc::AllocError;

/// One more handle, under a free name. Only want of memory is an error.
pub fn open(
    handles: &mut Handles<Handle<Uploader>>,
    actor: u16,
    name: u16,
    handle: Handle<Uploader>,
) -> Result<(), AllocError>
    requires free { get handles.old (actor, name) ≡ None }
    requires place { len handles.old ≢ max_handles }
    ensures ok { OnOk result (handles.new ≡ insert handles.old (actor, name) handle) }
    ensures err { OnErr result (handles.new ≡ handles.old) }
{
    match handles.open(actor, name, handle) {
        Ok(()) => Ok(()),
        Err((fault, refused)) => {
            drop(refused);
            match fault {
                OpenFault::Memory => Err(AllocError),
                OpenFault::InUse => unreachable!(),
                OpenFault::Full => unreachable!(),
            }
        }
    }
}

// The writer of a handle that writes.
fn writer_in(handle: &mut Handle<Uploader>) -> &mut Writer<Uploader>
    requires { IsWriter handle.old }
    ensures* writes_back { sem 𝓛 (lends_writer handle.entry result) }
    ensures value { handle.old ≡ Writing result.now }
{
    match handle {
        Handle::Writing(writer) => writer,
        Handle::Reading { .. } => unreachable!(),
    }
}

/// The writer under the name. What is written through it stands there when it ends.
pub fn writer_at(
    handles: &mut Handles<Handle<Uploader>>,
    actor: u16,
    name: u16,
) -> &mut Writer<Uploader>
    requires { IsWriting (actor, name) handles.old }
    ensures* writes_back { sem 𝓛 (lends_writer_at handles.entry (actor, name) result) }
    ensures value { get handles.old (actor, name) ≡ Some (Writing result.now) }
{
    match handles.get_mut(actor, name) {
        Some(handle) => writer_in(handle),
        None => unreachable!(),
    }
}

/// A write's bytes go to the writer, and are counted. A refusal changes nothing.
pub fn write(
    handles: &mut Handles<Handle<Uploader>>,
    actor: u16,
    name: u16,
    offset: u64,
    content: &Data,
) -> Result<u64, Errno>
    requires { IsWriting (actor, name) handles.old }
    ensures ok { (w : WriterOf) → get handles.old (actor, name) ≡ Some (Writing w) → IfOk result (λ count. Wrote (actor, name) w offset (bytes_of content.now) count handles.old handles.new) }
    ensures err { OnErr result (handles.new ≡ handles.old) }
    ensures why { (w : WriterOf) → get handles.old (actor, name) ≡ Some (Writing w) → IfErr result (λ errno. IsRefused w offset (bytes_of content.now) errno) }
{
    take_bytes(writer_at(handles, actor, name), offset, content)
}

/// An fsync or a close waits for the writer from now on. Tells whether it was under way before. Takes no memory.
pub fn wait(handles: &mut Handles<Handle<Uploader>>, actor: u16, name: u16, waiter: Waiter) -> bool
    requires { IsWriting (actor, name) handles.old }
    ensures { (w : WriterOf) → get handles.old (actor, name) ≡ Some (Writing w) → (result ≡ is_under_way w.upload.state) × (handles.new ≡ insert handles.old (actor, name) (Writing (waits waiter w))) }
{
    begin_wait(writer_at(handles, actor, name), waiter)
}

/// The writer hears the answer to a call of this purpose. Tells whether it was under way before. Takes no memory.
pub fn hear(
    handles: &mut Handles<Handle<Uploader>>,
    actor: u16,
    name: u16,
    purpose: &Purpose,
    answer: &Brief,
) -> bool
    requires { MayHear purpose.now (actor, name) handles.old }
    ensures { (w : WriterOf) (called : Call) → get handles.old (actor, name) ≡ Some (Writing w) → purpose_of called ≡ purpose.now → (result ≡ is_under_way w.upload.state) × (handles.new ≡ insert handles.old (actor, name) (Writing (with_upload (hears_answer called answer.now w.upload) w))) }
{
    hear_back(writer_at(handles, actor, name), purpose, answer)
}

/// The fsync that waited for the writer was answered, and nobody waits any more. Takes no memory.
pub fn answered(handles: &mut Handles<Handle<Uploader>>, actor: u16, name: u16)
    requires { IsWriting (actor, name) handles.old }
    ensures { (w : WriterOf) → get handles.old (actor, name) ≡ Some (Writing w) → handles.new ≡ insert handles.old (actor, name) (Writing (unanswered w)) }
{
    end_wait(writer_at(handles, actor, name));
}
