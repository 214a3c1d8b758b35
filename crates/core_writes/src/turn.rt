ghost use Rattle.std.specs.Prelude.{◌≡◌, ℕ, ◌+◌, ◌≤◌, length, option_to_list};
ghost use Rattle.mount_model.specs.Step.{HasStep};
ghost use Rattle.mount_model.specs.Conversation.{with_upload};
ghost use Rattle.mount_model.specs.Writers.{answer_to, close_answer, sync_answer};
ghost use Rattle.job_table.specs.LiveJobs.{ready_of_writer};
ghost use Rattle.core_writes.specs.Owed.{owes_jobs};
ghost use Rattle.core_writes.specs.Turn.{Turns};

use crate::asks::{ask_all, give_up};
use crate::drops::drop_ready;
use job_table::{Jobs, Journal};
use mount_model::{Answered, Reply, Waiter, Writer};
use part_uploader::Uploader;
use upload_rules::UpState;

fn sync_answer(line: u32, state: UpState) -> Option<Answered>
    ensures { option_to_list result ≡ sync_answer line state }
{
    match state {
        UpState::Open | UpState::Finished => None,
        UpState::Done => Some(Answered {
            line,
            reply: Reply::Success,
        }),
        UpState::Failed(errno) => Some(Answered {
            line,
            reply: Reply::Failed(errno),
        }),
    }
}

// A close of a failed writer waits until its calls are back.
fn close_answer(line: u32, uploader: &Uploader) -> Option<Answered>
    ensures { option_to_list result ≡ close_answer line uploader.now.pending uploader.now.state }
{
    match uploader.state() {
        UpState::Failed(_) if !uploader.all_back() => None,
        state => sync_answer(line, state),
    }
}

// The reply to who waits for the writer, once it can be told.
fn answer(waiter: Waiter, uploader: &Uploader) -> Option<Answered>
    ensures { option_to_list result ≡ answer_to waiter uploader.now }
{
    match waiter {
        Waiter::Nobody => None,
        Waiter::Sync(line) => sync_answer(line, uploader.state()),
        Waiter::Close(line) => close_answer(line, uploader),
    }
}

/// One turn of a writer: it asks for what is due, one call behind the other, and has failed where there is no memory
/// for one. Where it has failed, each job of it that is ready is dropped, also those that it has just asked for, and
/// its upload is given up once it is closed and all calls are back. The result is the reply to who waits for it,
/// where it can be told by then. `owed` is how many items the record still gets for what has been begun.
pub fn take_turn(
    writer: &mut Writer<Uploader>,
    jobs: &mut Jobs,
    journal: &mut Journal,
    owed: &mut usize,
) -> Option<Answered>
    requires step { HasStep journal.old.steps }
    requires owes { owes_jobs jobs.old.held ≤ owed.old }
    requires enough { owed.old ≤ journal.old.room }
    requires at_work { length (ready_of_writer writer.old.line jobs.old.held) ≤ writer.old.upload.pending }
    ensures writer { writer.new ≡ with_upload writer.new.upload writer.old }
    ensures known { journal.new.known ≡ journal.old.known }
    ensures room { owed.new ≤ journal.new.room }
    ensures owes { (others : ℕ) → others + owes_jobs jobs.old.held ≤ owed.old → others + owes_jobs jobs.new.held ≤ owed.new }
    ensures turn { Turns writer.old jobs.old jobs.new journal.old.steps journal.new.steps writer.new.upload result }
{
    ask_all(writer, jobs, journal, owed);
    drop_ready(writer, jobs, journal, owed);
    give_up(writer, jobs, journal, owed);
    answer(writer.waiter, &writer.upload)
}
