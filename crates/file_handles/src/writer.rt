ghost use Rattle.std.specs.Prelude.{◌≡◌, IfOk, IfErr, OnErr};
ghost use Rattle.mp_types.specs.Content.{bytes_of};
ghost use Rattle.bucket_model.specs.declared.call.Call.{Call};
ghost use Rattle.mount_model.specs.Conversation.{Writes, ended, errno_for, with_upload, write_to};
ghost use Rattle.mount_model.specs.Writers.{hears_answer, is_under_way};
ghost use Rattle.job_table.specs.LiveJobs.{purpose_of};
ghost use Rattle.file_handles.specs.Writing.{IsRefused, MayComeBack, unanswered, waits};

use bucket_model::Brief;
use job_table::Purpose;
use mount_model::{Waiter, Writer, errno_of};
use mp_types::{Data, Errno};
use part_uploader::{UpFault, Uploader};
use upload_rules::UpState;

// The error that a write is answered with.
fn errno_for(why: UpFault) -> Errno
    ensures { result ≡ errno_for why }
{
    match why {
        UpFault::Failed(errno) => errno,
        UpFault::Finished | UpFault::OutOfOrder => Errno::Einval,
        UpFault::TooBig => Errno::Efbig,
        UpFault::Memory => Errno::Enomem,
    }
}

/// The writer takes the bytes, which are to stand at this offset. A refusal changes nothing.
pub fn take_bytes(writer: &mut Writer<Uploader>, offset: u64, content: &Data) -> Result<u64, Errno>
    ensures ok { IfOk result (λ count. write_to writer.old offset (bytes_of content.now) ≡ Writes count writer.new) }
    ensures err { OnErr result (writer.new ≡ writer.old) }
    ensures why { IfErr result (λ errno. IsRefused writer.old offset (bytes_of content.now) errno) }
{
    match writer.upload.write(offset, content, 0) {
        Ok(count) => Ok(count),
        Err(why) => Err(errno_for(why)),
    }
}

// No more bytes come.
fn end(upload: &mut Uploader)
    ensures { upload.new ≡ ended upload.old }
{
    match upload.state() {
        UpState::Open => upload.finish(),
        UpState::Finished | UpState::Done | UpState::Failed(_) => {}
    }
}

fn is_under_way(state: UpState) -> bool
    ensures { result ≡ is_under_way state }
{
    match state {
        UpState::Open | UpState::Finished => true,
        UpState::Done | UpState::Failed(_) => false,
    }
}

/// An fsync or a close waits for the writer, which takes no more bytes. Tells whether it was under way before.
pub fn begin_wait(writer: &mut Writer<Uploader>, waiter: Waiter) -> bool
    ensures was { result ≡ is_under_way writer.old.upload.state }
    ensures waits { writer.new ≡ waits waiter writer.old }
{
    let was_under_way = is_under_way(writer.upload.state());
    match waiter {
        Waiter::Nobody => return was_under_way,
        Waiter::Sync(_) => end(&mut writer.upload),
        Waiter::Close(_) => {
            end(&mut writer.upload);
            writer.upload.closing();
        }
    }
    writer.waiter = waiter;
    was_under_way
}

/// Nobody waits any more.
pub fn end_wait(writer: &mut Writer<Uploader>)
    ensures { writer.new ≡ unanswered writer.old }
{
    writer.waiter = Waiter::Nobody;
}

// The upload hears the answer to a call of this purpose.
fn hear_answer(upload: &mut Uploader, purpose: &Purpose, answer: &Brief)
    requires { MayComeBack purpose.now upload.old }
    ensures { (called : Call) → purpose_of called ≡ purpose.now → upload.new ≡ hears_answer called answer.now upload.old }
{
    match (purpose, answer) {
        (Purpose::Create, Brief::Upload(id)) => upload.created(*id),
        (Purpose::Part, Brief::Stored) => upload.part_done(),
        (Purpose::Complete, Brief::Made(_)) => upload.completed(),
        (Purpose::Abort, _) => upload.aborted(),
        (_, said) => upload.fault(errno_of(said)),
    }
}

/// The writer hears the answer to a call of this purpose. Tells whether it was under way before.
pub fn hear_back(writer: &mut Writer<Uploader>, purpose: &Purpose, answer: &Brief) -> bool
    requires { MayComeBack purpose.now writer.old.upload }
    ensures was { result ≡ is_under_way writer.old.upload.state }
    ensures heard { (called : Call) → purpose_of called ≡ purpose.now → writer.new ≡ with_upload (hears_answer called answer.now writer.old.upload) writer.old }
{
    let was_under_way = is_under_way(writer.upload.state());
    hear_answer(&mut writer.upload, purpose, answer);
    was_under_way
}
