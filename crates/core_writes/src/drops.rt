ghost use Rattle.std.specs.Prelude.{◌≡◌, ◌<◌, ◌≤◌, [], ◌∷◌, Some, length, slice_get};
ghost use Rattle.mount_model.specs.Step.{HasStep};
ghost use Rattle.mount_model.specs.Conversation.{with_upload};
ghost use Rattle.mount_model.specs.Writers.{has_failed};
ghost use Rattle.job_table.specs.LiveJobs.{IsReadyIn, ready_of_writer};
ghost use Rattle.core_writes.specs.Owed.{IsPaid, owes_jobs};
ghost use Rattle.core_writes.specs.Dropped.{DropsReady, HasDropped};

use job_table::{Jobs, Journal};
use mount_model::Writer;
use part_uploader::Uploader;
use upload_rules::UpState;

fn has_failed(uploader: &Uploader) -> bool
    ensures { result ≡ has_failed uploader.now }
{
    match uploader.state() {
        UpState::Failed(_) => true,
        UpState::Open | UpState::Finished | UpState::Done => false,
    }
}

// The first ready job of the writer is dropped.
fn drop_first(
    writer: &mut Writer<Uploader>,
    jobs: &mut Jobs,
    journal: &mut Journal,
    owed: &mut usize,
    job: u64,
)
    requires step { HasStep journal.old.steps }
    requires owes { owes_jobs jobs.old.held ≤ owed.old }
    requires enough { owed.old ≤ journal.old.room }
    requires at_work { length (ready_of_writer writer.old.line jobs.old.held) ≤ writer.old.upload.pending }
    requires first { slice_get (ready_of_writer writer.old.line jobs.old.held) 0 ≡ Some job }
    requires ready { IsReadyIn job jobs.old.held }
    ensures writer { writer.new ≡ with_upload writer.new.upload writer.old }
    ensures paid { IsPaid jobs.old jobs.new journal.old journal.new owed.old owed.new }
    ensures dropped { HasDropped (job ∷ []) writer.old writer.new.upload jobs.old jobs.new journal.old journal.new }
    ensures owes { owes_jobs jobs.new.held ≤ owed.new }
    ensures at_work { length (ready_of_writer writer.old.line jobs.new.held) ≤ writer.new.upload.pending }
    ensures fewer { length (ready_of_writer writer.old.line jobs.new.held) < length (ready_of_writer writer.old.line jobs.old.held) }
{
    jobs.drop_job(journal, job);
    writer.upload.dropped();
    *owed -= 2;
}

/// Where the writer has failed, drops each job of it that is ready. Takes no memory.
pub fn drop_ready(
    writer: &mut Writer<Uploader>,
    jobs: &mut Jobs,
    journal: &mut Journal,
    owed: &mut usize,
)
    requires step { HasStep journal.old.steps }
    requires owes { owes_jobs jobs.old.held ≤ owed.old }
    requires enough { owed.old ≤ journal.old.room }
    requires at_work { length (ready_of_writer writer.old.line jobs.old.held) ≤ writer.old.upload.pending }
    ensures writer { writer.new ≡ with_upload writer.new.upload writer.old }
    ensures paid { IsPaid jobs.old jobs.new journal.old journal.new owed.old owed.new }
    ensures drops { DropsReady writer.old writer.new.upload jobs.old jobs.new journal.old journal.new }
{
    if !has_failed(&writer.upload) {
        return;
    }
    while let Some(job) = jobs.ready_of_writer(writer.line) {
        drop_first(writer, jobs, journal, owed, job);
    }
}
