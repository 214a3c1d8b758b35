ghost use Rattle.std.specs.Prelude.{◌≡◌, ◌+◌, ◌^◌, ◌<◌, ◌≤◌, [], ◌∷◌, ◌++◌, map, max, true, Option, Some, IfOk, option_copied};
ghost use Rattle.mp_types.specs.Options.{AreWithin};
ghost use Rattle.mount_model.specs.declared.event.Event.TheVariants.{Begin, Take, Done};
ghost use Rattle.mount_model.specs.declared.standing.Phase.TheVariants.{Begun};
ghost use Rattle.mount_model.specs.Heard.{nothing_heard};
ghost use Rattle.mount_model.specs.Step.{step_of, HasStep};
ghost use Rattle.mount_model.specs.declared.standing.Standing.{Standing};
ghost use Rattle.mount_model.specs.Handles.{handle_of};
ghost use Rattle.mount_model.specs.State.{opening, change_line, line_at, shared_at_first};
ghost use Rattle.mount_model.specs.Run.{AreRising, startable, is_among};
ghost use Rattle.line_table.specs.Table.{HasBegun};
ghost use Rattle.job_table.specs.LiveJobs.{Held, held_at, with_taken, without, IsReadyIn, IsOutIn};
ghost use Rattle.mount_core.specs.Due.{DueMeans, DueIsOf, DueTells};
ghost use Rattle.job_table.specs.Journal.{all_known};
ghost use Rattle.mount_core.specs.Rising.{AreRising-prop};
ghost use Rattle.core_writes.specs.Owed.{owes_jobs};
ghost use Rattle.mount_core.specs.Room.{owes_lines};

use crate::due::{Due, due_of};
use bucket_model::{Brief, Call};
use job_table::{Asker, Jobs, Journal};
use line_table::Lines;
use local_names::Locals;
use mount_model::{Answered, Event, Handle, Phase, Reply, Script, Told};
use mp_handles::Handles;
use mp_types::Opts;
use part_uploader::Uploader;
use std::alloc::{AllocError, Global};

/// The parts of the mount. The record has room for all that lines and jobs still owe it, and a place for the reply
/// to each line, so that what has happened can always be told.
#[derive(Drop)]
pub struct Work {
    pub lines: Lines,
    pub jobs: Jobs,
    pub record: Journal,
    pub options: Opts,
    /// The live handles, by the process that opened each and the name that it gave.
    pub handles: Handles<Handle<Uploader>>,
    /// The mount's own names.
    pub names: Locals,
    pub time: u64,
    /// How many items lines and jobs still owe the record.
    pub owed: usize,
    pub alloc: Global,
    ghost counted: { owes_lines lines + owes_jobs jobs.held ≤ owed },
    ghost enough: { owed ≤ record.room },
    ghost knows: { all_known record.known (map (λ s. s.line) lines) ≡ true },
    ghost part_low: { 1 ≤ options.part },
    ghost part_high: { options.part ≤ 2 ^ 30 },
    ghost rising: { AreRising 0 (map (λ s. s.line) lines) } by { AreRising-prop 0 (map (λ s. s.line) lines) },
}

impl Work {
    ghost use Rattle.mount_core.specs.Shared.{shared_in};
    ghost use Rattle.mount_core.specs.Turn.{Answers, next_behind, owner_behind};

    /// Nothing has begun. Room for the begin and the reply of each line is made here.
    pub fn start(alloc: Global, script: Script, options: Opts) -> Result<Self, AllocError>
        requires rising { AreRising 0 script }
        requires within { AreWithin options }
        ensures lines { IfOk result (λ work. work.lines ≡ (opening options script).lines) }
        ensures jobs { IfOk result (λ work. (work.jobs.count ≡ 0) × (work.jobs.held ≡ [])) }
        ensures steps { IfOk result (λ work. work.record.steps ≡ []) }
        ensures time { IfOk result (λ work. work.time ≡ 0) }
        ensures shared { IfOk result (λ work. shared_in work ≡ shared_at_first options) }
    {
        let Some(owed) = script.len().checked_mul(2) else {
            return Err(AllocError);
        };
        let mut record = Journal::new(alloc, script.as_slice())?;
        record.make_room(owed)?;
        let lines = Lines::new(alloc, script)?;
        Ok(Work {
            lines,
            jobs: Jobs::new(alloc),
            record,
            options,
            handles: Handles::new(alloc),
            names: Locals::new(alloc),
            time: 0,
            owed,
            alloc,
        })
    }

    /// The step of a line's begin begins.
    pub fn begin_line(&mut self, line: u32, time: u64)
        requires { is_among line (startable self.old.lines) ≡ true }
        ensures time { self.new.time ≡ max self.old.time time }
        ensures steps { self.new.record.steps ≡ self.old.record.steps ++ step_of (Begin line (max self.old.time time)) ∷ [] }
        ensures lines { self.new.lines ≡ change_line line (λ phase. Begun nothing_heard) self.old.lines }
        ensures jobs { self.new.jobs ≡ self.old.jobs }
        ensures shared { shared_in self.new ≡ shared_in self.old }
    {
        let time = self.time.max(time);
        self.time = time;
        self.record.event(Event::Begin { line, time });
        self.lines.begin(self.alloc, line);
        self.owed -= 1;
    }

    /// The step of a job's take: its call is handed out.
    pub fn take_job(&mut self, job: u64, time: u64, from: u64) -> Call
        requires { IsReadyIn job self.old.jobs.held }
        ensures call { (h : Held) → held_at job self.old.jobs.held ≡ Some h → h.call ≡ Some result }
        ensures time { self.new.time ≡ max self.old.time time }
        ensures steps { self.new.record.steps ≡ self.old.record.steps ++ step_of (Take job (max self.old.time time) from) ∷ [] }
        ensures lines { self.new.lines ≡ self.old.lines }
        ensures count { self.new.jobs.count ≡ self.old.jobs.count }
        ensures held { self.new.jobs.held ≡ with_taken job self.old.jobs.held }
        ensures shared { shared_in self.new ≡ shared_in self.old }
    {
        let time = self.time.max(time);
        self.time = time;
        let call = self.jobs.take(&mut self.record, job, time, from);
        self.owed -= 1;
        call
    }

    /// The step of a job's end begins, and the turn of who asked for it.
    pub fn end_job(&mut self, job: u64, position: u64, answer: Brief) -> Asker
        requires { IsOutIn job self.old.jobs.held }
        ensures asker { (h : Held) → held_at job self.old.jobs.held ≡ Some h → (result.owner ≡ h.owner) × (result.line ≡ h.line) × (result.purpose ≡ h.purpose) }
        ensures time { self.new.time ≡ self.old.time }
        ensures steps { self.new.record.steps ≡ self.old.record.steps ++ step_of (Done job position answer) ∷ [] }
        ensures lines { self.new.lines ≡ self.old.lines }
        ensures count { self.new.jobs.count ≡ self.old.jobs.count }
        ensures held { self.new.jobs.held ≡ without job self.old.jobs.held }
        ensures shared { shared_in self.new ≡ shared_in self.old }
    {
        let asker = self.jobs.done(&mut self.record, job, position, answer);
        self.owed -= 1;
        asker
    }

    /// A line gets its reply in the last step.
    pub fn reply_line(&mut self, line: u32, reply: Reply)
        requires begun { HasBegun line self.old.lines }
        requires step { HasStep self.old.record.steps }
        ensures answers { Answers (record { line = line; reply = reply } ∷ []) self.old self.new }
        ensures shared { shared_in self.new ≡ shared_in self.old }
    {
        self.record.reply(Answered { line, reply });
        self.lines.reply(line);
        self.owed -= 1;
    }

    /// What is due of a line that has begun, behind what it has heard so far and this last answer.
    pub fn due(&self, line: u32, last: Option<&Told>) -> Due
        requires { HasBegun line self.now.lines }
        ensures means { DueMeans result (owner_behind line (option_copied last.entry) self.now) (next_behind line (option_copied last.entry) self.now) }
        ensures whose { (s : Standing) → line_at line self.now.lines ≡ Some s → DueIsOf result line s.line.request (handle_of s.line self.now.handles) }
        ensures tells { DueTells result line }
    {
        let Some(standing) = self.lines.standing(line) else {
            unreachable!()
        };
        match &standing.phase {
            Phase::Begun(heard) => due_of(
                self.alloc,
                self.view(&standing.line),
                &standing.line.request,
                heard,
                last,
            ),
            Phase::Waiting => unreachable!(),
            Phase::Replied => unreachable!(),
        }
    }
}
