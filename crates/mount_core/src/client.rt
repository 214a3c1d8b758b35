ghost use Rattle.std.specs.Prelude.{◌≡◌, ◌<◌, [], ◌↔◌, true, max, IfOk, IsTrue, Some, length, slice_get, option_copied};
ghost use Rattle.std.specs.List.{AllByRecursion};
ghost use Rattle.mp_types.specs.Options.{AreWithin};
ghost use Rattle.bucket_model.specs.Answers.{MayBeMade, brief_of, bytes_in};
ghost use Rattle.bucket_model.specs.declared.answer.Brief.TheVariants as brief;
ghost use Rattle.bucket_model.specs.declared.page.Page.{Page};
ghost use Rattle.mount_model.specs.declared.event.Event.TheVariants.{Begin, Take, Done};
ghost use Rattle.mount_model.specs.State.{Job, job_at};
ghost use Rattle.bucket_model.specs.declared.call.Call.{Call};
ghost use Rattle.job_table.specs.LiveJobs.{purpose_of};
ghost use Rattle.mount_model.specs.Heard.{question_of};
ghost use Rattle.mount_model.specs.Replies.{reply_to};
ghost use Rattle.mount_model.specs.Run.{AreRising, IsRunSoFar, IsQuiet, MayDone, is_among, ready, startable};

use crate::work::Work;
use bucket_model::{Answer, Call};
use bytes::Bytes;
use job_table::Purpose;
use mount_model::{Owner, Record, Reply, Script, told_by};
use mp_rules::Question;
use mp_types::Opts;
use std::alloc::{AllocError, Global};
use std::marker::Model;

/// The mount on one thread. Each event is one step of its record.
#[derive(Drop)]
pub struct Core {
    work: Work,
}

impl Model for Core {
    ghost use Rattle.mount_core.specs.Core.{CoreState, IsCore, core_of};

    ghost Value = { CoreState };

    ghost view = { λ c. core_of c.work };

    ghost invariant = { λ c. IsCore c.work (core_of c.work) };
}

// The question that a call of this purpose asks, if it asks one.
fn question_in(purpose: Purpose) -> Option<Question>
    ensures { (called : Call) → purpose_of called ≡ purpose → result ≡ question_of called }
{
    match purpose {
        Purpose::Question(question) => Some(question),
        _ => None,
    }
}

// Whether more stands behind the page that an answer brings.
fn tells_more(answer: &Answer) -> bool
    ensures { (page : Page) → brief_of answer.now ≡ brief.Page page → page.more ≡ result }
{
    matches!(answer, Answer::Page(page) if page.more)
}

impl Core {
    ghost use Rattle.mount_core.specs.Core.{Advances, state_of};

    /// A mount with these options that has done nothing, for a script whose line numbers rise.
    pub fn new(alloc: Global, script: Script, options: Opts) -> Result<Self, AllocError>
        requires rising { AreRising 0 script }
        requires within { AreWithin options }
        ensures options { IfOk result (λ core. core.options ≡ options) }
        ensures script { IfOk result (λ core. core.script ≡ script) }
        ensures steps { IfOk result (λ core. core.steps ≡ []) }
    {
        Ok(Core {
            work: Work::start(alloc, script, options)?,
        })
    }

    /// Whether the line waits and each line of its actor above it has its reply.
    pub fn startable(&self, line: u32) -> bool
        ensures { result ≡ is_among line (startable (state_of self.now).lines) }
    {
        self.work.lines.startable(line)
    }

    /// The line at place `i`, from 0, of those that may begin, in order.
    pub fn startable_at(&self, i: usize) -> Option<u32>
        ensures value { result ≡ slice_get (startable (state_of self.now).lines) i }
        ensures rising { AreRising 0 self.now.script }
        ensures within { AreWithin self.now.options }
        ensures run { IsRunSoFar self.now.options self.now.script self.now.steps }
    {
        self.work.lines.startable_at(i)
    }

    /// The job at place `i`, from 0, of those that may be taken, in order.
    pub fn ready(&self, i: usize) -> Option<u64>
        ensures { result ≡ slice_get (ready (state_of self.now).jobs) i }
    {
        self.work.jobs.ready(i)
    }

    /// A line begins. Times that fall are read as the greatest so far.
    pub fn begin(&mut self, line: u32, time: u64)
        requires { is_among line (startable (state_of self.old).lines) ≡ true }
        ensures { Advances (Begin line (max (state_of self.old).time time)) [] self.old self.new }
    {
        self.work.begin_line(line, time);
        self.work.turn_line(line, None, Bytes::new());
        self.work.answer_awaits();
    }

    /// A ready job is taken: its call is to be made now, behind the history's first `from` entries. Takes no memory.
    pub fn take(&mut self, job: u64, time: u64, from: u64) -> Call
        requires ready { is_among job (ready (state_of self.old).jobs) ≡ true }
        requires behind { AllByRecursion (λ position. position < from) (state_of self.old).positions }
        ensures call { (j : Job) → job_at job (state_of self.old).jobs ≡ Some j → result ≡ j.call }
        ensures may { MayBeMade result }
        ensures step { Advances (Take job (max (state_of self.old).time time) from) [] self.old self.new }
    {
        self.work.take_job(job, time, from)
    }

    /// The answer of a job that is out has come; its entry stands at this position. The bytes that it brings are
    /// those that the line's reply gives, and nothing is copied. A line can't hear of a page whose items have too many
    /// owners: its listing fails.
    pub fn done(&mut self, job: u64, position: u64, answer: Answer)
        requires { MayDone (state_of self.old) job position (brief_of answer) }
        ensures { Advances (Done job position (brief_of answer)) (bytes_in answer) self.old self.new }
    {
        let more = tells_more(&answer);
        let heard = answer.brief();
        let (brief, bytes) = answer.split();
        let asker = self.work.end_job(job, position, brief);
        if let Owner::Writer(opened) = asker.owner {
            let Ok(heard) = heard else { unreachable!() };
            self.work.hear(opened, asker.purpose, heard);
            self.work.answer_awaits();
            return;
        }
        let Ok(heard) = heard else {
            self.work.fail_listing(asker.line, more);
            self.work.answer_awaits();
            return;
        };
        let told = told_by(question_in(asker.purpose), heard);
        self.work.turn_line(asker.line, Some(told), bytes);
        self.work.answer_awaits();
    }

    /// Whether each line has its reply and no job is ready or out.
    pub fn quiet(&self) -> bool
        ensures { IsTrue result ↔ IsQuiet (state_of self.now) }
    {
        self.work.lines.all_replied() && self.work.jobs.is_empty()
    }

    /// What has happened so far.
    pub fn record(&self) -> &Record
        ensures steps { result.now.steps ≡ self.now.steps }
        ensures rising { AreRising 0 self.now.script }
        ensures within { AreWithin self.now.options }
        ensures run { IsRunSoFar self.now.options self.now.script self.now.steps }
    {
        self.work.record.record()
    }

    /// The line's reply, where it has one. Takes no memory.
    pub fn reply(&self, line: u32) -> Option<&Reply>
        ensures { option_copied result ≡ reply_to line self.now.steps }
    {
        self.work.record.reply_to(line)
    }

    /// How many jobs may be taken.
    pub fn ready_len(&self) -> usize
        ensures { result ≡ length (ready (state_of self.now).jobs) }
    {
        self.work.jobs.ready_len()
    }

    /// How many lines may begin.
    pub fn startable_len(&self) -> usize
        ensures value { result ≡ length (startable (state_of self.now).lines) }
        ensures rising { AreRising 0 self.now.script }
        ensures within { AreWithin self.now.options }
    {
        self.work.lines.startable_len()
    }
}
