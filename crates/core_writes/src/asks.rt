ghost use Rattle.std.specs.Prelude.{◌≡◌, ◌≤◌, [], ◌∷◌, Some, length, IfOk, OnOk, OnErr};
ghost use Rattle.upload_rules.specs.Upload.{due, with_ask};
ghost use Rattle.mount_model.specs.Step.{HasStep};
ghost use Rattle.mount_model.specs.Conversation.{with_upload};
ghost use Rattle.mount_model.specs.Writers.{asking_for, id_in};
ghost use Rattle.job_table.specs.LiveJobs.{purpose_of, ready_of_writer};
ghost use Rattle.core_writes.specs.Owed.{IsPaid};
ghost use Rattle.core_writes.specs.Asked.{AsksAll, GivesUp, HasJobs, call_in, job_for};

use bucket_model::Call;
use job_table::{Asking, Jobs, Journal, Purpose};
use mount_model::{AskedCall, Owner, Writer};
use part_uploader::Uploader;
use std::alloc::AllocError;
use upload_rules::UpAsk;

// The upload's id, which all its calls but the first tell.
fn id_of(uploader: &Uploader) -> u64
    ensures { result ≡ id_in uploader.now.created }
{
    match uploader.id() {
        Some(upload) => upload,
        None => 0,
    }
}

// The call that is due, as the bucket gets it and as the record tells it, and what it is for. Both share the writer's key.
// The bytes of a part are shared with the writer until it is asked for.
fn calls(
    writer: &mut Writer<Uploader>,
    ask: UpAsk,
) -> Result<(Call, AskedCall, Purpose), AllocError>
    requires { due writer.old.upload ≡ Some ask }
    ensures kept { writer.new ≡ writer.old }
    ensures call { IfOk result (λ calls. calls.0 ≡ (asking_for writer.old.key writer.old.upload ask).call) }
    ensures told { IfOk result (λ calls. calls.1 ≡ (asking_for writer.old.key writer.old.upload ask).told) }
    ensures purpose { IfOk result (λ calls. calls.2 ≡ purpose_of (asking_for writer.old.key writer.old.upload ask).call) }
{
    let upload = id_of(&writer.upload);
    match ask {
        UpAsk::Create => {
            let key = writer.key.share()?;
            let told = match writer.key.share() {
                Ok(told) => told,
                Err(error) => {
                    drop(key);
                    return Err(error);
                }
            };
            Ok((
                Call::Create { key },
                AskedCall::Create { key: told },
                Purpose::Create,
            ))
        }
        UpAsk::Part { number, from, to } => {
            let bytes = writer.upload.part_bytes()?;
            Ok((
                Call::Part {
                    upload,
                    number,
                    bytes,
                },
                AskedCall::Part {
                    upload,
                    number,
                    from,
                    to,
                },
                Purpose::Part,
            ))
        }
        UpAsk::Complete { parts } => Ok((
            Call::Complete { upload, parts },
            AskedCall::Complete { upload, parts },
            Purpose::Complete,
        )),
        UpAsk::Abort => Ok((
            Call::Abort { upload },
            AskedCall::Abort { upload },
            Purpose::Abort,
        )),
    }
}

// The job that is due.
fn job(writer: &mut Writer<Uploader>, ask: UpAsk) -> Result<Asking, AllocError>
    requires { due writer.old.upload ≡ Some ask }
    ensures kept { writer.new ≡ writer.old }
    ensures job { IfOk result (λ job. job ≡ job_for writer.old.line (asking_for writer.old.key writer.old.upload ask)) }
{
    let (call, asked, purpose) = calls(writer, ask)?;
    Ok(Asking {
        owner: Owner::Writer(writer.line),
        line: writer.line,
        call,
        asked,
        purpose,
    })
}

// Asks for what is due. An error changes nothing that is seen.
fn ask_one(
    writer: &mut Writer<Uploader>,
    jobs: &mut Jobs,
    journal: &mut Journal,
    owed: &mut usize,
    ask: UpAsk,
) -> Result<(), AllocError>
    requires step { HasStep journal.old.steps }
    requires enough { owed.old ≤ journal.old.room }
    requires due { due writer.old.upload ≡ Some ask }
    ensures writer { writer.new ≡ with_upload writer.new.upload writer.old }
    ensures paid { IsPaid jobs.old jobs.new journal.old journal.new owed.old owed.new }
    ensures left { OnOk result (writer.new.upload ≡ with_ask ask writer.old.upload) }
    ensures asked { OnOk result (HasJobs writer.old.line (asking_for writer.old.key writer.old.upload ask ∷ []) jobs.old jobs.new journal.old journal.new) }
    ensures stays { OnErr result (writer.new.upload ≡ writer.old.upload) }
    ensures unasked { OnErr result (HasJobs writer.old.line [] jobs.old jobs.new journal.old journal.new) }
{
    let job = job(writer, ask)?;
    jobs.ask(journal, *owed, job)?;
    writer.upload.asked();
    *owed += 2;
    Ok(())
}

// What is due, but an abort.
fn next_call(uploader: &Uploader) -> Option<UpAsk>
    ensures call { result ≡ call_in (due uploader.now) }
    ensures part { 1 ≤ uploader.now.part }
{
    match uploader.next_ask() {
        Some(UpAsk::Abort) => None,
        ask => ask,
    }
}

/// Asks for all that is due but an abort. Where there is no memory for it, the writer has failed.
pub fn ask_all(
    writer: &mut Writer<Uploader>,
    jobs: &mut Jobs,
    journal: &mut Journal,
    owed: &mut usize,
)
    requires step { HasStep journal.old.steps }
    requires enough { owed.old ≤ journal.old.room }
    requires at_work { length (ready_of_writer writer.old.line jobs.old.held) ≤ writer.old.upload.pending }
    ensures writer { writer.new ≡ with_upload writer.new.upload writer.old }
    ensures paid { IsPaid jobs.old jobs.new journal.old journal.new owed.old owed.new }
    ensures at_work { length (ready_of_writer writer.old.line jobs.new.held) ≤ writer.new.upload.pending }
    ensures asks { AsksAll writer.old writer.new.upload jobs.old jobs.new journal.old journal.new }
{
    while let Some(ask) = next_call(&writer.upload) {
        match ask_one(writer, jobs, journal, owed, ask) {
            Ok(()) => {}
            Err(_) => {
                writer.upload.lack();
                return;
            }
        }
    }
}

/// Asks for the abort of the upload where it is due. Where there is no memory for it, it is passed over.
pub fn give_up(
    writer: &mut Writer<Uploader>,
    jobs: &mut Jobs,
    journal: &mut Journal,
    owed: &mut usize,
)
    requires step { HasStep journal.old.steps }
    requires enough { owed.old ≤ journal.old.room }
    ensures writer { writer.new ≡ with_upload writer.new.upload writer.old }
    ensures paid { IsPaid jobs.old jobs.new journal.old journal.new owed.old owed.new }
    ensures gives_up { GivesUp writer.old writer.new.upload jobs.old jobs.new journal.old journal.new }
{
    let Some(UpAsk::Abort) = writer.upload.next_ask() else {
        return;
    };
    match ask_one(writer, jobs, journal, owed, UpAsk::Abort) {
        Ok(()) => {}
        Err(_) => {}
    }
}
