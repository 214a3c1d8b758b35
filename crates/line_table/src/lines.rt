ghost use Rattle.std.specs.Prelude.{◌≡◌, ◌↔◌, List, [], ◌∷◌, map, true, IfOk, OnOk, OnErr, IsTrue, MatchOption, length, slice_get, option_copied};
ghost use Rattle.std.specs.List.{AllByRecursion};
ghost use Rattle.mount_model.specs.declared.request.Reply.TheVariants.{Success};
ghost use Rattle.mount_model.specs.declared.standing.Phase.TheVariants.{Waiting, Begun, Replied};
ghost use Rattle.mount_model.specs.Heard.{nothing_heard};
ghost use Rattle.mount_model.specs.State.{line_at, change_line, heard};
ghost use Rattle.mount_model.specs.Run.{is_among, startable, due_awaits, AreRising};
ghost use Rattle.line_table.specs.Table.{HasBegun};

use crate::places::{awaited_number, hear_one, open_from, place_among, place_of, put_follower};
use crate::prepare::{find_followers, find_startable, wait_all};
use mount_model::{Heard, Phase, Script, Standing, Told};
use std::alloc::{AllocError, Global};
use std::marker::Model;

/// The lines of a script with how far each has come.
#[derive(Debug, Drop)]
pub struct Lines {
    standings: Vec<Standing>,
    // for each place the number of the next line of the same actor
    followers: Vec<Option<u32>>,
    // rising, with room for each line
    startable: Vec<u32>,
    // the place of the first line without a reply
    first_open: usize,
}

impl Model for Lines {
    ghost use Rattle.std.specs.Prelude.{List, vec_capacity};
    ghost use Rattle.mount_model.specs.declared.standing.Standing.{Standing};
    ghost use Rattle.line_table.specs.Table.{IsTable};

    ghost Value = { List Standing };

    ghost view = { λ a. a.standings.items };

    ghost invariant = { λ a. IsTable a.standings.items a.followers.items a.startable.items (vec_capacity a.startable) a.first_open };
}

impl Lines {
    /// The lines of a script, none of which has begun.
    pub fn new(alloc: Global, script: Script) -> Result<Self, AllocError>
        requires { AreRising 0 script }
        ensures { IfOk result (λ lines. lines ≡ map (λ line. record { line = line; phase = Waiting }) script) }
    {
        let lines = script.into_vec();
        let followers = find_followers(alloc, lines.as_slice())?;
        let startable = find_startable(alloc, lines.as_slice())?;
        let standings = wait_all(alloc, lines)?;
        let first_open = open_from(standings.as_slice(), 0);
        Ok(Lines {
            standings,
            followers,
            startable,
            first_open,
        })
    }

    /// Whether the line of this number may begin.
    pub fn startable(&self, number: u32) -> bool
        ensures value { result ≡ is_among number (startable self.now) }
        ensures rising { AreRising 0 (map (λ s. s.line) self.now) }
    {
        place_among(self.startable.as_slice(), number).is_ok()
    }

    /// The number at place `i`, from 0, among the lines that may begin, which stand in order.
    pub fn startable_at(&self, i: usize) -> Option<u32>
        ensures value { result ≡ slice_get (startable self.now) i }
        ensures rising { AreRising 0 (map (λ s. s.line) self.now) }
    {
        self.startable.as_slice().get(i).copied()
    }

    /// How many lines may begin.
    pub fn startable_len(&self) -> usize
        ensures { result ≡ length (startable self.now) }
    {
        self.startable.len()
    }

    /// The line of this number.
    pub fn standing(&self, number: u32) -> Option<&Standing>
        ensures value { option_copied result ≡ line_at number self.now }
        ensures rising { AreRising 0 (map (λ s. s.line) self.now) }
    {
        match place_of(self.standings.as_slice(), number) {
            Some(i) => Some(&self.standings[i]),
            None => None,
        }
    }

    /// The line begins. Takes no memory.
    pub fn begin(&mut self, alloc: Global, number: u32)
        requires { is_among number (startable self.old) ≡ true }
        ensures { self.new ≡ change_line number (λ phase. Begun nothing_heard) self.old }
    {
        let Ok(at) = place_among(self.startable.as_slice(), number) else {
            unreachable!()
        };
        let Some(i) = place_of(self.standings.as_slice(), number) else {
            unreachable!()
        };
        self.startable.remove(at);
        self.standings[i].phase = Phase::Begun(Heard::new(alloc));
    }

    /// One more answer for the line, if it has begun and has no reply. A refusal changes nothing.
    pub fn hear(&mut self, number: u32, told: Told) -> Result<(), AllocError>
        ensures ok { OnOk result (self.new ≡ change_line number (heard told) self.old) }
        ensures err { OnErr result (self.new ≡ self.old) }
    {
        match place_of(self.standings.as_slice(), number) {
            Some(i) => hear_one(&mut self.standings[i], told),
            None => Ok(()),
        }
    }

    /// The line has its reply. Takes no memory.
    pub fn reply(&mut self, number: u32)
        requires { HasBegun number self.old }
        ensures { self.new ≡ change_line number (λ phase. Replied) self.old }
    {
        let Some(i) = place_of(self.standings.as_slice(), number) else {
            unreachable!()
        };
        let follower = self.followers[i];
        self.standings[i].phase = Phase::Replied;
        put_follower(&mut self.startable, follower);
        self.first_open = open_from(self.standings.as_slice(), self.first_open);
    }

    /// The first line without a reply, if it is an await that has begun: it is due.
    pub fn due_await(&self) -> Option<u32>
        ensures { MatchOption result (due_awaits self.now ≡ []) (λ n. (due_awaits self.now ≡ record { line = n; reply = Success } ∷ due_awaits (change_line n (λ phase. Replied) self.now)) × HasBegun n self.now) }
    {
        match self.standings.as_slice().get(self.first_open) {
            Some(standing) => awaited_number(standing),
            None => None,
        }
    }

    /// Whether each line has its reply.
    pub fn all_replied(&self) -> bool
        ensures { IsTrue result ↔ AllByRecursion (λ s. s.phase ≡ Replied) self.now }
    {
        self.first_open == self.standings.len()
    }
}
