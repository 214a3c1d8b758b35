ghost use Rattle.std.specs.Prelude.{◌≡◌, ◌≢◌, ◌==◌, ◌+◌, ◌-◌, ◌^◌, ◌<◌, ◌≤◌, ◌↔◌, Some, IsSome, IsTrue, length, drop, IfOk, OnOk, OnErr, IsErrOf};
ghost use Rattle.mp_types.specs.declared.errno.Errno.TheVariants.{Enomem};
ghost use Rattle.mp_types.specs.Content.{bytes_of};
ghost use Rattle.upload_rules.specs.Upload.{new_upload, written, is_full, has_part, next_part, ask_part, due_open, due_finished, due_failed, due, with_ask, with_bytes, finished, with_closing, with_back, with_id, with_stored, completed, fails_with, with_failure, given_up, with_due};
ghost use Rattle.part_uploader.specs.Asks.{is_part, known_id};
ghost use Rattle.upload_rules.specs.Refusal.{refusal_open, refusal};

use crate::waiting::Waiting;
use bytes::Bytes;
use mp_types::{Data, Errno};
use std::alloc::{AllocError, Global};
use std::marker::Model;
use upload_rules::{Created, UpAsk, UpFault, UpState};

/// How many parts an upload may have.
pub const MAX_PARTS: u32 = 10_000;

/// The state of one writer: bytes come in, and parts go out.
#[derive(Drop)]
pub struct Uploader {
    state: UpState,
    created: Created,
    asked: u32,
    sent: u64,
    stored: u32,
    waiting: Waiting,
    // so many bytes were written
    total: u64,
    pending: u32,
    closing: bool,
}

impl Model for Uploader {
    ghost use Rattle.upload_rules.specs.Upload.{Upload};

    ghost Value = { Upload };

    ghost use Rattle.part_uploader.specs.Sound.{IsSound, upload_of};

    ghost view = { λ a. upload_of a.state a.created a.asked a.sent a.stored a.waiting a.pending a.closing };

    ghost invariant = { λ a. IsSound (upload_of a.state a.created a.asked a.sent a.stored a.waiting a.pending a.closing) a.waiting.ended a.total };
}

impl Uploader {
    /// A writer of no bytes, whose parts have so many bytes each. Takes no memory.
    pub fn new(alloc: Global, part: u64) -> Self
        requires some { 1 ≤ part }
        requires small { part ≤ 2 ^ 30 }
        ensures { result ≡ new_upload part }
    {
        Uploader {
            state: UpState::Open,
            created: Created::NotAsked,
            asked: 0,
            sent: 0,
            stored: 0,
            waiting: Waiting::new(alloc, part as usize),
            total: 0,
            pending: 0,
            closing: false,
        }
    }

    /// How far the writer has come.
    pub fn state(&self) -> UpState
        ensures { result ≡ self.now.state }
    {
        self.state
    }

    /// How many bytes were written.
    pub fn len(&self) -> u64
        ensures { result ≡ written self.now }
    {
        self.total
    }

    // Why an open writer takes no more bytes at this place.
    fn refusal_open(&self, offset: u64, count: u64) -> Option<UpFault>
        requires { self.now.state ≡ UpState.Open }
        ensures { result ≡ refusal_open self.now offset count }
    {
        let most = self.waiting.part() as u64 * u64::from(MAX_PARTS);
        if offset != self.total {
            return Some(UpFault::OutOfOrder);
        }
        if count > most - self.total {
            return Some(UpFault::TooBig);
        }
        None
    }

    fn refusal(&self, offset: u64, count: u64) -> Option<UpFault>
        ensures { result ≡ refusal self.now offset count }
    {
        match self.state {
            UpState::Open => self.refusal_open(offset, count),
            UpState::Finished | UpState::Done => Some(UpFault::Finished),
            UpState::Failed(errno) => Some(UpFault::Failed(errno)),
        }
    }

    /// Takes the bytes of the data from place `at` on, which are to stand at `offset` of the object, and says how many
    /// they are. A refusal changes nothing; it comes for the reason that the rules give, or else for want of memory.
    pub fn write(&mut self, offset: u64, data: &Data, at: u64) -> Result<u64, UpFault>
        requires { at ≤ length (bytes_of «data».now) }
        ensures count { IfOk result (λ count. at + count ≡ length (bytes_of «data».now)) }
        ensures ok { OnOk result (self.new ≡ with_bytes (drop at (bytes_of «data».now)) self.old) }
        ensures refused { (why : UpFault) → why ≢ UpFault.Memory → (IsErrOf result why) ↔ (refusal self.old offset (length (bytes_of «data».now) - at) ≡ Some why) }
        ensures err { OnErr result (self.new ≡ self.old) }
    {
        let count = data.len() - at;
        match self.refusal(offset, count) {
            Some(why) => return Err(why),
            None => {}
        }
        match self.waiting.add(data, at) {
            Ok(()) => {}
            Err(_) => return Err(UpFault::Memory),
        }
        self.total += count;
        Ok(count)
    }

    /// The writer has all its bytes. Takes no memory.
    pub fn finish(&mut self)
        requires { self.old.state ≡ UpState.Open }
        ensures { self.new ≡ finished self.old }
    {
        self.state = UpState::Finished;
    }

    /// A close waits for the end of the upload.
    pub fn closing(&mut self)
        ensures { self.new ≡ with_closing self.old }
    {
        self.closing = true;
    }

    // How many bytes wait for a part.
    fn waiting_len(&self) -> u64
        ensures { result ≡ length self.now.rest }
    {
        self.total - self.sent
    }

    fn is_full(&self) -> bool
        ensures { result ≡ is_full self.now }
    {
        self.waiting_len() >= self.waiting.part() as u64
    }

    fn has_part(&self) -> bool
        ensures { result ≡ has_part self.now }
    {
        self.waiting_len() != 0 || self.asked == 0
    }

    fn ask_part(&self) -> UpAsk
        ensures { result ≡ ask_part self.now }
    {
        let waiting = self.total - self.sent;
        UpAsk::Part {
            number: self.asked + 1,
            from: self.sent,
            to: self.sent + waiting.min(self.waiting.part() as u64),
        }
    }

    fn due_open(&self) -> Option<UpAsk>
        ensures { result ≡ due_open self.now.created self.now }
    {
        if !self.is_full() {
            return None;
        }
        match self.created {
            Created::NotAsked => Some(UpAsk::Create),
            Created::Asked | Created::GivenUp => None,
            Created::Known(_) => Some(self.ask_part()),
        }
    }

    fn due_finished(&self) -> Option<UpAsk>
        ensures { result ≡ due_finished self.now.created self.now }
    {
        match self.created {
            Created::NotAsked => Some(UpAsk::Create),
            Created::Asked | Created::GivenUp => None,
            Created::Known(_) => {
                if self.has_part() {
                    Some(self.ask_part())
                } else if self.stored == self.asked && self.pending == 0 {
                    Some(UpAsk::Complete { parts: self.asked })
                } else {
                    None
                }
            }
        }
    }

    fn due_failed(&self) -> Option<UpAsk>
        ensures { result ≡ due_failed self.now.created self.now }
    {
        match self.created {
            Created::NotAsked | Created::Asked | Created::GivenUp => None,
            Created::Known(_) => {
                if self.closing && self.pending == 0 {
                    Some(UpAsk::Abort)
                } else {
                    None
                }
            }
        }
    }

    /// The upload's id, while it is known.
    pub fn id(&self) -> Option<u64>
        ensures { result ≡ known_id self.now.created }
    {
        match self.created {
            Created::Known(upload) => Some(upload),
            Created::NotAsked | Created::Asked | Created::GivenUp => None,
        }
    }

    /// Whether all calls that were asked for are back.
    pub fn all_back(&self) -> bool
        ensures { result ≡ (self.now.pending == 0) }
    {
        self.pending == 0
    }

    /// What is to be asked of the bucket next.
    pub fn next_ask(&self) -> Option<UpAsk>
        ensures ask { result ≡ due self.now }
        ensures part { 1 ≤ self.now.part }
    {
        match self.state {
            UpState::Open => self.due_open(),
            UpState::Finished => self.due_finished(),
            UpState::Done => None,
            UpState::Failed(_) => self.due_failed(),
        }
    }

    /// The bytes of the part that is due, which isn't asked for yet. No byte is copied: until it is asked for, the
    /// bytes are shared.
    pub fn part_bytes(&mut self) -> Result<Bytes, AllocError>
        requires { IsTrue (is_part (due self.old)) }
        ensures next { due self.old ≡ Some (ask_part self.old) }
        ensures bytes { IfOk result (λ bytes. bytes ≡ next_part self.old) }
        ensures kept { self.new ≡ self.old }
    {
        self.waiting.front()
    }

    // The part that is due is asked for.
    fn part_asked(&mut self)
        requires { IsTrue (is_part (due self.old)) }
        ensures { self.new ≡ with_ask (ask_part self.old) self.old }
    {
        let waiting = self.total - self.sent;
        self.sent += waiting.min(self.waiting.part() as u64);
        self.asked += 1;
        self.pending += 1;
        self.waiting.drop_front();
    }

    /// What is due is asked for, and the bytes of a part are let go. Takes no memory.
    pub fn asked(&mut self)
        requires { IsSome (due self.old) }
        ensures { self.new ≡ with_due (due self.old) self.old }
    {
        match self.next_ask() {
            Some(UpAsk::Create) => {
                self.created = Created::Asked;
                self.pending += 1;
            }
            Some(UpAsk::Part { .. }) => self.part_asked(),
            Some(UpAsk::Complete { .. }) | Some(UpAsk::Abort) => self.pending += 1,
            None => {}
        }
    }

    /// The upload was made, and has this id.
    pub fn created(&mut self, upload: u64)
        requires asked { self.old.created ≡ Created.Asked }
        requires some { 0 < self.old.pending }
        ensures { self.new ≡ with_id upload self.old }
    {
        self.created = Created::Known(upload);
        self.pending -= 1;
    }

    /// A part is stored.
    pub fn part_done(&mut self)
        requires some { 0 < self.old.pending }
        requires asked { self.old.stored < self.old.asked }
        ensures { self.new ≡ with_stored self.old }
    {
        self.stored += 1;
        self.pending -= 1;
    }

    /// The object was made.
    pub fn completed(&mut self)
        requires finished { self.old.state ≡ UpState.Finished }
        requires some { 0 < self.old.pending }
        ensures { self.new ≡ completed self.old }
    {
        self.state = UpState::Done;
        self.pending -= 1;
    }

    // The first failure decides. What no part was asked for is let go.
    fn fail(&mut self, why: Errno)
        ensures { self.new ≡ fails_with why self.old }
    {
        match self.state {
            UpState::Open | UpState::Finished => {
                self.state = UpState::Failed(why);
                self.waiting.clear();
                self.total = self.sent;
            }
            UpState::Done | UpState::Failed(_) => {}
        }
    }

    /// A call failed for this reason.
    pub fn fault(&mut self, why: Errno)
        requires { 0 < self.old.pending }
        ensures { self.new ≡ with_failure why self.old }
    {
        self.dropped();
        self.fail(why);
    }

    /// There was no memory for a call that is due. Takes no memory.
    pub fn lack(&mut self)
        ensures { self.new ≡ fails_with Enomem self.old }
    {
        self.fail(Errno::Enomem);
    }

    /// The bucket has answered the abort, whatever it said.
    pub fn aborted(&mut self)
        requires { 0 < self.old.pending }
        ensures { self.new ≡ given_up self.old }
    {
        self.created = Created::GivenUp;
        self.pending -= 1;
    }

    /// A call that was asked for was dropped before it was made.
    pub fn dropped(&mut self)
        requires { 0 < self.old.pending }
        ensures { self.new ≡ with_back self.old }
    {
        self.pending -= 1;
    }
}
