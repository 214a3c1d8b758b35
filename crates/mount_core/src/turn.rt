ghost use Rattle.std.specs.Prelude.{◌≡◌, ℕ, List, length, false, Some, None, OnOk, OnErr, ◌⊎◌};
ghost use Rattle.bucket_model.specs.declared.answer.Brief.TheVariants as answer;
ghost use Rattle.bucket_model.specs.declared.page.Page.{Page};
ghost use Rattle.mount_model.specs.declared.standing.Heard.{Heard};
ghost use Rattle.mount_model.specs.declared.standing.Phase.TheVariants.{Begun};
ghost use Rattle.mount_model.specs.declared.standing.Standing.{Standing};
ghost use Rattle.mount_model.specs.declared.standing.Told.TheVariants.{Answer as Hears};
ghost use Rattle.mount_model.specs.Step.{Step, HasStep};
ghost use Rattle.mount_model.specs.State.{by_reply, closes, has_effect, line_at};
ghost use Rattle.mount_model.specs.Conversation.{Gives, Makes, Opens, Removes, Replies};
ghost use Rattle.mount_model.specs.Run.{asked_of, due_awaits};
ghost use Rattle.line_table.specs.Table.{HasBegun};
ghost use Rattle.job_table.specs.LiveJobs.{purpose_of};
ghost use Rattle.local_names.specs.Names.{is_name};
ghost use Rattle.mount_plan.specs.Unkept.{unkept_errno};
ghost use Rattle.mount_core.specs.Due.{DueTells};
ghost use Rattle.mount_core.specs.Listing.{IsListing};

use crate::due::Due;
use crate::seen::name_in;
use crate::work::Work;
use bytes::Bytes;
use job_table::Asking;
use mount_model::{Handle, Phase, Reply, Request, Told, Version};
use mount_plan::unkept_errno;
use mp_types::{Errno, Key};
use std::alloc::AllocError;

impl Work {
    ghost use Rattle.mount_core.specs.Shared.{shared_in};
    ghost use Rattle.mount_core.specs.Turn.{NamedMayTurn, Answers, MayGoOn, MayOpen, RemovesDir, SharedAlone, Speaks, Takes, lines_behind, next_behind, turn_behind};
    ghost use Rattle.mount_core.specs.Ends.{Asks, AsksNot, Ends};

    /// The last answer, if it stands apart, is kept behind the line's others.
    fn keep_answer(&mut self, line: u32, last: Option<Told>) -> Result<(), AllocError>
        ensures ok { OnOk result (self.new.lines ≡ lines_behind line last self.old) }
        ensures err { OnErr result (self.new.lines ≡ self.old.lines) }
        ensures record_stays { self.new.record ≡ self.old.record }
        ensures jobs_stay { self.new.jobs ≡ self.old.jobs }
        ensures time_stays { self.new.time ≡ self.old.time }
        ensures owed_stays { self.new.owed ≡ self.old.owed }
        ensures shared_stays { shared_in self.new ≡ shared_in self.old }
    {
        match last {
            Some(told) => self.lines.hear(line, told),
            None => Ok(()),
        }
    }

    /// The line asks for a call. The last answer is kept first, so that an error may leave it heard.
    fn ask_call(&mut self, line: u32, asking: Asking, last: Option<Told>) -> Result<(), AllocError>
        requires begun { HasBegun line self.old.lines }
        requires step { HasStep self.old.record.steps }
        requires told { asking.asked ≡ asked_of asking.call }
        requires asks { asking.purpose ≡ purpose_of asking.call }
        requires of_line { asking.line ≡ line }
        ensures ok { OnOk result (Asks line asking.owner asking.call last self.old self.new) }
        ensures err { OnErr result (AsksNot line self.old self.new) }
        ensures shared { shared_in self.new ≡ shared_in self.old }
    {
        match self.keep_answer(line, last) {
            Ok(()) => {}
            Err(error) => {
                drop(asking);
                return Err(error);
            }
        }
        self.jobs.ask(&mut self.record, self.owed, asking)?;
        self.owed += 2;
        Ok(())
    }

    /// The handle that the line closes, if it closes one, is given up.
    fn close_handle(&mut self, line: u32)
        ensures shared { (s : Standing) → line_at line self.old.lines ≡ Some s → shared_in self.new ≡ closes s.line (shared_in self.old) }
        ensures alone { SharedAlone self.old self.new }
    {
        if let Some(standing) = self.lines.standing(line) {
            if let Request::Close { handle } = &standing.line.request {
                self.handles.close(standing.line.actor, *handle);
            }
        }
    }

    /// A close that succeeds gives its handle up.
    fn give_up(&mut self, line: u32, reply: &Reply)
        ensures shared { (s : Standing) (step : Step) → line_at line self.old.lines ≡ Some s → shared_in self.new ≡ by_reply (Replies reply.now) s.line step (shared_in self.old) (Some reply.now) }
        ensures alone { SharedAlone self.old self.new }
    {
        match reply {
            Reply::Success => self.close_handle(line),
            _ => {}
        }
    }

    /// The line has a handle from now on, under the name that it gives.
    fn keep_handle(&mut self, line: u32, version: Version) -> Result<(), AllocError>
        requires begun { HasBegun line self.old.lines }
        requires may { MayOpen line self.old }
        ensures ok { (s : Standing) → line_at line self.old.lines ≡ Some s → OnOk result (shared_in self.new ≡ has_effect (Opens version) s.line (shared_in self.old)) }
        ensures err { OnErr result (shared_in self.new ≡ shared_in self.old) }
        ensures alone { SharedAlone self.old self.new }
    {
        let Some(standing) = self.lines.standing(line) else {
            unreachable!()
        };
        let handle = Handle::Reading {
            line: standing.line.number,
            version,
        };
        let Some(name) = name_in(&standing.line.request) else {
            unreachable!()
        };
        file_handles::open(&mut self.handles, standing.line.actor, name, handle)
    }

    /// The line's open succeeds, where there is memory for its handle.
    fn open(&mut self, line: u32, version: Version)
        requires begun { HasBegun line self.old.lines }
        requires step { HasStep self.old.record.steps }
        requires may { MayOpen line self.old }
        ensures { Ends line (Opens version) self.old self.new }
    {
        let size = version.size;
        match self.keep_handle(line, version) {
            Ok(()) => self.reply_line(line, Reply::Open { size }),
            Err(_) => self.reply_line(line, Reply::Failed(Errno::Enomem)),
        }
    }

    /// The directory is made, where there is memory for its name.
    fn make_dir(&mut self, line: u32, key: Key)
        requires begun { HasBegun line self.old.lines }
        requires step { HasStep self.old.record.steps }
        requires new { is_name self.old.names key ≡ false }
        ensures { Ends line (Makes key) self.old self.new }
    {
        match self.names.add_dir(&key) {
            Ok(()) => self.reply_line(line, Reply::Success),
            Err(_) => self.reply_line(line, Reply::Failed(Errno::Enomem)),
        }
    }

    /// The name of the directory that the line removes is given up. The key stands in the line's path, so that this
    /// takes no memory.
    fn remove_name(&mut self, line: u32)
        requires { (key : List ℕ) × RemovesDir line key self.old.lines }
        ensures shared { (key : List ℕ) (s : Standing) → RemovesDir line key self.old.lines → shared_in self.new ≡ has_effect (Removes key) s.line (shared_in self.old) }
        ensures alone { SharedAlone self.old self.new }
    {
        let Some(standing) = self.lines.standing(line) else {
            unreachable!()
        };
        let Request::RemoveDir { path } = &standing.line.request else {
            unreachable!()
        };
        let Ok(path) = path else { unreachable!() };
        self.names.remove(path.as_key());
    }

    /// The directory that the line removes goes. Takes no memory.
    fn remove_dir(&mut self, line: u32)
        requires begun { HasBegun line self.old.lines }
        requires step { HasStep self.old.record.steps }
        requires removes { (key : List ℕ) × RemovesDir line key self.old.lines }
        ensures { (key : List ℕ) → RemovesDir line key self.old.lines → Ends line (Removes key) self.old self.new }
    {
        self.remove_name(line);
        self.reply_line(line, Reply::Success);
    }

    /// The line does what is due: it asks, replies, makes or removes its directory, opens, gives what a directory shows,
    /// writes, gives these bytes or waits. Where a call, a handle or a directory finds no memory, the reply says so.
    pub fn go_on(&mut self, line: u32, due: Due, last: Option<Told>, bytes: Bytes)
        requires begun { HasBegun line self.old.lines }
        requires step { HasStep self.old.record.steps }
        requires tells { DueTells due line }
        requires turn { MayGoOn line due last bytes self.old }
        requires writers { NamedMayTurn line self.old }
        ensures { Takes (turn_behind line last self.old) (lines_behind line last self.old) bytes self.old self.new }
    {
        match due {
            Due::Call(asking) => {
                drop(bytes);
                match self.ask_call(line, asking, last) {
                    Ok(()) => {}
                    Err(_) => self.reply_line(line, Reply::Failed(Errno::Enomem)),
                }
            }
            Due::NoMemory => {
                drop(last);
                self.reply_line(line, Reply::Failed(Errno::Enomem));
            }
            Due::Reply(reply) => {
                drop(last);
                self.give_up(line, &reply);
                self.reply_line(line, reply);
            }
            Due::MakeDir(key) => {
                drop(last);
                self.make_dir(line, key);
            }
            Due::RemoveDir => {
                drop(last);
                self.remove_dir(line);
            }
            Due::Open(version) => {
                drop(last);
                self.open(line, version);
            }
            Due::Create(key) => {
                drop(last);
                self.create(line, key);
            }
            Due::Listed(entries) => {
                drop(last);
                self.reply_line(line, Reply::Listed(entries));
            }
            Due::Write => {
                drop(last);
                self.write(line);
            }
            Due::Wait(waiter) => {
                drop(last);
                self.wait(line, waiter);
            }
            Due::Data => {
                drop(last);
                self.reply_line(line, Reply::Data(bytes));
            }
            Due::Nothing => drop(last),
        }
    }

    /// The line's turn, behind this last answer. Bytes that it gives are these.
    pub fn turn_line(&mut self, line: u32, last: Option<Told>, bytes: Bytes)
        requires begun { HasBegun line self.old.lines }
        requires step { HasStep self.old.record.steps }
        requires not_idle { (last ≡ None) ⊎ Speaks (next_behind line last self.old) }
        requires gives { (count : ℕ) → next_behind line last self.old ≡ Gives count → length bytes ≡ count }
        requires writers { NamedMayTurn line self.old }
        ensures { Takes (turn_behind line last self.old) (lines_behind line last self.old) bytes self.old self.new }
    {
        let due = self.due(line, last.as_ref());
        self.go_on(line, due, last, bytes);
    }

    // The error of a line that can't keep the next page of its listing.
    fn unkept(&self, line: u32, more: bool) -> Errno
        requires { HasBegun line self.now.lines }
        ensures { (s : Standing) (heard : Heard) → line_at line self.now.lines ≡ Some s → s.phase ≡ Begun heard → result ≡ unkept_errno more heard.answers }
    {
        let Some(standing) = self.lines.standing(line) else {
            unreachable!()
        };
        match &standing.phase {
            Phase::Begun(heard) => unkept_errno(heard, more),
            Phase::Waiting => unreachable!(),
            Phase::Replied => unreachable!(),
        }
    }

    /// The turn of a line whose listing gets a page that can't be kept, since its items have too many owners. Where there
    /// is more behind that page, so many may have come that the listing fails for that.
    pub fn fail_listing(&mut self, line: u32, more: bool)
        requires listing { IsListing line self.old.lines }
        requires step { HasStep self.old.record.steps }
        ensures { (page : Page) (bytes : List ℕ) → page.more ≡ more → Takes (turn_behind line (Some (Hears (answer.Page page))) self.old) (lines_behind line (Some (Hears (answer.Page page))) self.old) bytes self.old self.new }
    {
        let errno = self.unkept(line, more);
        self.reply_line(line, Reply::Failed(errno));
    }

    /// Each await that has become due gets its reply, one after another.
    pub fn answer_awaits(&mut self)
        requires { HasStep self.old.record.steps }
        ensures answers { Answers (due_awaits self.old.lines) self.old self.new }
        ensures shared { shared_in self.new ≡ shared_in self.old }
    {
        while let Some(line) = self.lines.due_await() {
            self.reply_line(line, Reply::Success);
        }
    }
}
