ghost use Rattle.std.specs.Prelude.{◌≡◌, ℕ, false, List, Option, Some, None, OnOk, OnErr, IfSome, IsSome, option_to_list};
ghost use Rattle.std.specs.FinMap.{get};
ghost use Rattle.mp_rules.specs.Local.{with_file};
ghost use Rattle.upload_rules.specs.Upload.{written};
ghost use Rattle.bucket_model.specs.declared.call.Call.{Call};
ghost use Rattle.mount_model.specs.declared.handle.Handle.TheVariants.{Writing};
ghost use Rattle.mount_model.specs.declared.standing.Standing.{Standing};
ghost use Rattle.mount_model.specs.declared.standing.Told.{Told};
ghost use Rattle.mount_model.specs.Handles.{Writer as WriterAt};
ghost use Rattle.mount_model.specs.Step.{HasStep};
ghost use Rattle.mount_model.specs.State.{handle_behind, handle_name, has_effect, is_answered, line_at, names_behind, turn_of_writer, with_names};
ghost use Rattle.mount_model.specs.Conversation.{Creates};
ghost use Rattle.line_table.specs.Table.{HasBegun};
ghost use Rattle.job_table.specs.LiveJobs.{purpose_of};
ghost use Rattle.local_names.specs.Names.{is_name};
ghost use Rattle.file_handles.specs.Writing.{IsWriting};

use crate::seen::name_in;
use crate::work::Work;
use bucket_model::Brief;
use core_writes::take_turn;
use file_handles::writer_at;
use job_table::Purpose;
use mount_model::{Answered, Handle, Reply, Request, Waiter, Writer};
use mp_types::{Errno, Key};
use part_uploader::Uploader;
use std::alloc::AllocError;
use upload_rules::UpState;

impl Work {
    ghost use Rattle.mount_core.specs.Shared.{shared_in};
    ghost use Rattle.mount_core.specs.Turn.{NamedMayTurn, Answers, HasWriter, MayOpen, SharedAlone, Takes, WriterTurned, lines_behind, turn_behind};
    ghost use Rattle.mount_core.specs.Ends.{Ends};
    ghost use Rattle.mount_core.specs.Writing.{AsksWriter, GivesBytes, HasLine, MayHear, WaitsFor, WritesTo};

    // The file of the writer under the name is a name of the mount's own from now on.
    fn name_file(&mut self, actor: u16, name: u16) -> Result<(), AllocError>
        requires writer { IsWriting (actor, name) self.old.handles }
        requires new { (w : WriterAt) → get self.old.handles (actor, name) ≡ Some (Writing w) → is_name self.old.names w.key ≡ false }
        ensures ok { (w : WriterAt) → get self.old.handles (actor, name) ≡ Some (Writing w) → OnOk result (shared_in self.new ≡ with_names (with_file w.key 0 self.old.names) (shared_in self.old)) }
        ensures err { OnErr result (shared_in self.new ≡ shared_in self.old) }
        ensures alone { SharedAlone self.old self.new }
    {
        let Some(Handle::Writing(writer)) = self.handles.get(actor, name) else {
            unreachable!()
        };
        self.names.add_file(&writer.key)
    }

    /// The line has a writer from now on, under the name that it gives, and its file is a name of the mount's own.
    fn keep_writer(&mut self, line: u32, key: Key) -> Result<(), AllocError>
        requires begun { HasBegun line self.old.lines }
        requires may { MayOpen line self.old }
        requires new { is_name self.old.names key ≡ false }
        ensures ok { (s : Standing) → line_at line self.old.lines ≡ Some s → OnOk result (shared_in self.new ≡ has_effect (Creates key) s.line (shared_in self.old)) }
        ensures err { OnErr result (shared_in self.new ≡ shared_in self.old) }
        ensures alone { SharedAlone self.old self.new }
    {
        let Some(standing) = self.lines.standing(line) else {
            unreachable!()
        };
        let Some(name) = name_in(&standing.line.request) else {
            unreachable!()
        };
        let writer = Writer {
            line: standing.line.number,
            key,
            upload: Uploader::new(self.alloc, self.options.part),
            waiter: Waiter::Nobody,
        };
        let actor = standing.line.actor;
        file_handles::open(&mut self.handles, actor, name, Handle::Writing(writer))?;
        match self.name_file(actor, name) {
            Ok(()) => Ok(()),
            Err(_) => {
                self.handles.close(actor, name);
                Err(AllocError)
            }
        }
    }

    /// The line's open of a new file succeeds, where there is memory for its handle and its name.
    pub fn create(&mut self, line: u32, key: Key)
        requires begun { HasBegun line self.old.lines }
        requires step { HasStep self.old.record.steps }
        requires may { MayOpen line self.old }
        requires new { is_name self.old.names key ≡ false }
        ensures { Ends line (Creates key) self.old self.new }
    {
        match self.keep_writer(line, key) {
            Ok(()) => self.reply_line(line, Reply::Open { size: 0 }),
            Err(_) => self.reply_line(line, Reply::Failed(Errno::Enomem)),
        }
    }

    // The name that a line gives for a handle of its process.
    fn named_by(&self, line: u32) -> (u16, u16)
        requires { HasLine line self.now.lines }
        ensures { (s : Standing) → line_at line self.now.lines ≡ Some s → result ≡ handle_name s.line }
    {
        let Some(standing) = self.lines.standing(line) else {
            unreachable!()
        };
        match name_in(&standing.line.request) {
            Some(name) => (standing.line.actor, name),
            None => (standing.line.actor, 0),
        }
    }

    // The file of the writer under the name has as many bytes as the writer has taken.
    fn resize_file(&mut self, actor: u16, name: u16)
        requires writer { IsWriting (actor, name) self.old.handles }
        requires named { (w : WriterAt) → get self.old.handles (actor, name) ≡ Some (Writing w) → IsSome (get self.old.names.files w.key) }
        ensures names { (w : WriterAt) → get self.old.handles (actor, name) ≡ Some (Writing w) → shared_in self.new ≡ with_names (with_file w.key (written w.upload) self.old.names) (shared_in self.old) }
        ensures alone { SharedAlone self.old self.new }
    {
        let Some(Handle::Writing(writer)) = self.handles.get(actor, name) else {
            unreachable!()
        };
        self.names.resize(writer.key.as_str(), writer.upload.len());
    }

    /// The content of the line's write goes to its writer. An error changes nothing.
    fn give_bytes(&mut self, line: u32) -> Result<u64, Errno>
        requires writes { WritesTo line self.old }
        requires named { NamedMayTurn line self.old }
        ensures { GivesBytes line result self.old self.new }
    {
        let Some(standing) = self.lines.standing(line) else {
            unreachable!()
        };
        let Request::Write {
            handle,
            offset,
            content,
        } = &standing.line.request
        else {
            unreachable!()
        };
        let actor = standing.line.actor;
        let name = *handle;
        match file_handles::write(&mut self.handles, actor, name, *offset, content) {
            Ok(count) => {
                self.resize_file(actor, name);
                Ok(count)
            }
            Err(errno) => Err(errno),
        }
    }

    /// The writer that stands under a name asks for what is due, drops what it needn't, and answers who waits for it,
    /// where that can be told.
    fn ask_writer(&mut self, actor: u16, name: u16) -> Option<Answered>
        requires step { HasStep self.old.record.steps }
        requires writer { HasWriter (actor, name) self.old }
        ensures { (w : WriterAt) → get self.old.handles (actor, name) ≡ Some (Writing w) → AsksWriter (actor, name) w result self.old self.new }
    {
        take_turn(
            writer_at(&mut self.handles, actor, name),
            &mut self.jobs,
            &mut self.record,
            &mut self.owed,
        )
    }

    /// Where the writer has ended, its file is no name of the mount's own any more; and where its object is there, the
    /// bucket has the directories above it.
    fn settle_name(&mut self, actor: u16, name: u16)
        requires { IsWriting (actor, name) self.old.handles }
        ensures names { (w : WriterAt) → get self.old.handles (actor, name) ≡ Some (Writing w) → shared_in self.new ≡ with_names (names_behind w.upload.state w.key self.old.names) (shared_in self.old) }
        ensures alone { SharedAlone self.old self.new }
    {
        let Some(Handle::Writing(writer)) = self.handles.get(actor, name) else {
            unreachable!()
        };
        match writer.upload.state() {
            UpState::Open | UpState::Finished => {}
            UpState::Done => {
                self.names.remove_file(writer.key.as_str());
                self.names.dirs_above(writer.key.as_str());
            }
            UpState::Failed(_) => self.names.remove_file(writer.key.as_str()),
        }
    }

    /// Who waits for the writer gets its answer, if it has come: nobody waits then, and a handle goes with the reply to
    /// its close.
    fn answer_waiter(&mut self, actor: u16, name: u16, answered: Option<Answered>)
        requires step { HasStep self.old.record.steps }
        requires writer { IsWriting (actor, name) self.old.handles }
        requires begun { IfSome answered (λ a. HasBegun a.line self.old.lines) }
        ensures answers { Answers (option_to_list answered) self.old self.new }
        ensures shared { (w : WriterAt) → get self.old.handles (actor, name) ≡ Some (Writing w) → shared_in self.new ≡ handle_behind (actor, name) w w.upload (is_answered (option_to_list answered)) (shared_in self.old) }
    {
        let Some(Answered { line, reply }) = answered else {
            return;
        };
        let Some(Handle::Writing(writer)) = self.handles.get(actor, name) else {
            unreachable!()
        };
        match writer.waiter {
            Waiter::Close(_) => drop(self.handles.close(actor, name)),
            Waiter::Nobody | Waiter::Sync(_) => {
                file_handles::answered(&mut self.handles, actor, name);
            }
        }
        self.reply_line(line, reply);
    }

    /// The writer that stands under a name has its turn. Where it was under way before, its name goes as its end says.
    fn turn_writer(&mut self, actor: u16, name: u16, was_under_way: bool)
        requires step { HasStep self.old.record.steps }
        requires writer { HasWriter (actor, name) self.old }
        ensures { (w : WriterAt) → get self.old.handles (actor, name) ≡ Some (Writing w) → WriterTurned (actor, name) was_under_way w self.old self.new }
    {
        let answered = self.ask_writer(actor, name);
        if was_under_way {
            self.settle_name(actor, name);
        }
        self.answer_waiter(actor, name, answered);
    }

    /// The line writes: its content goes to the writer of its handle, and then it is the writer's turn.
    pub fn write(&mut self, line: u32)
        requires begun { HasBegun line self.old.lines }
        requires step { HasStep self.old.record.steps }
        requires writes { WritesTo line self.old }
        requires writers { NamedMayTurn line self.old }
        ensures { (last : Option Told) (bytes : List ℕ) → Takes (turn_behind line last self.old) (lines_behind line last self.old) bytes self.old self.new }
    {
        match self.give_bytes(line) {
            Ok(count) => {
                self.reply_line(line, Reply::Wrote { length: count });
                let (actor, name) = self.named_by(line);
                self.turn_writer(actor, name, true);
            }
            Err(errno) => self.reply_line(line, Reply::Failed(errno)),
        }
    }

    /// The line waits for the writer of its handle, which gets no more bytes, and then it is the writer's turn.
    pub fn wait(&mut self, line: u32, waiter: Waiter)
        requires begun { HasBegun line self.old.lines }
        requires step { HasStep self.old.record.steps }
        requires waits { WaitsFor line waiter self.old }
        requires writers { NamedMayTurn line self.old }
        ensures { (last : Option Told) (bytes : List ℕ) → last ≡ None → Takes (turn_behind line last self.old) (lines_behind line last self.old) bytes self.old self.new }
    {
        let (actor, name) = self.named_by(line);
        let was_under_way = file_handles::wait(&mut self.handles, actor, name, waiter);
        self.turn_writer(actor, name, was_under_way);
    }

    /// The answer to a call of the writer that this line opened has come, and then it is the writer's turn.
    pub fn hear(&mut self, opened: u32, purpose: Purpose, answer: Brief)
        requires step { HasStep self.old.record.steps }
        requires hears { MayHear opened purpose self.old }
        ensures { (called : Call) (bytes : List ℕ) → purpose_of called ≡ purpose → Takes (turn_of_writer (shared_in self.old) called answer (line_at opened self.old.lines)) self.old.lines bytes self.old self.new }
    {
        let (actor, name) = self.named_by(opened);
        let was_under_way = file_handles::hear(&mut self.handles, actor, name, &purpose, &answer);
        self.turn_writer(actor, name, was_under_way);
    }
}
