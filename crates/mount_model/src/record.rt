ghost use Rattle.std.specs.Prelude.{◌≡◌, ◌+◌, ◌<◌, ◌≤◌, [], ◌∷◌, ◌++◌, OnOk};
ghost use Rattle.mount_model.specs.declared.record.Item.TheVariants as item;
ghost use Rattle.mount_model.specs.Step.{step_of, steps_of, with_drop, with_ask, with_reply, change_last, HasStep, IsRow};

use crate::{Answered, Ask, Event};
use std::alloc::{AllocError, Global};
use std::marker::Model;

/// One piece of a record.
#[derive(Debug, Drop)]
pub enum Item {
    /// A step begins.
    Event(Event),
    /// The step drops a job that is ready.
    Drop(u64),
    /// The step asks for a job.
    Ask(Ask),
    /// The step gives a reply.
    Reply(Answered),
}

/// What happened, step by step. All items stand in one row, so that room is made for them together.
#[derive(Debug, Drop)]
pub struct Record {
    items: Vec<Item>,
}

impl Model for Record {
    ghost use Rattle.std.specs.Prelude.{◌-◌, vec_len, vec_capacity};
    ghost use Rattle.mount_model.specs.Step.{Written, steps_of, IsRow};

    ghost Value = { Written };

    ghost view = { λ a. record { items = a.items.items; steps = steps_of a.items.items; room = vec_capacity a.items - vec_len a.items } };

    ghost invariant = { λ a. IsRow a.items.items };
}

impl Record {
    /// A record of nothing. Takes no memory.
    pub fn new(alloc: Global) -> Self
        ensures steps { result.steps ≡ [] }
        ensures items { result.items ≡ [] }
    {
        Record {
            items: Vec::new(alloc),
        }
    }

    /// Makes room for this many items more. Only this can find no memory.
    pub fn make_room(&mut self, items: usize) -> Result<(), AllocError>
        ensures steps { self.new.steps ≡ self.old.steps }
        ensures items { self.new.items ≡ self.old.items }
        ensures room { OnOk result (items ≤ self.new.room) }
        ensures kept { self.old.room ≤ self.new.room }
    {
        self.items.reserve(items)
    }

    /// Begins a step.
    pub fn event(&mut self, event: Event)
        requires { 0 < self.old.room }
        ensures steps { self.new.steps ≡ self.old.steps ++ step_of event ∷ [] }
        ensures items { self.new.items ≡ self.old.items ++ item.Event event ∷ [] }
        ensures room { self.new.room + 1 ≡ self.old.room }
    {
        self.items.push_reserved(Item::Event(event));
    }

    /// Adds a job that is dropped to the last step.
    pub fn drop_job(&mut self, job: u64)
        requires room { 0 < self.old.room }
        requires may { HasStep self.old.steps }
        ensures steps { self.new.steps ≡ change_last (with_drop job) self.old.steps }
        ensures items { self.new.items ≡ self.old.items ++ item.Drop job ∷ [] }
        ensures room { self.new.room + 1 ≡ self.old.room }
    {
        self.items.push_reserved(Item::Drop(job));
    }

    /// Adds a job to the last step.
    pub fn ask(&mut self, ask: Ask)
        requires room { 0 < self.old.room }
        requires may { HasStep self.old.steps }
        ensures steps { self.new.steps ≡ change_last (with_ask ask) self.old.steps }
        ensures items { self.new.items ≡ self.old.items ++ item.Ask ask ∷ [] }
        ensures room { self.new.room + 1 ≡ self.old.room }
    {
        self.items.push_reserved(Item::Ask(ask));
    }

    /// Adds a reply to the last step.
    pub fn reply(&mut self, reply: Answered)
        requires room { 0 < self.old.room }
        requires may { HasStep self.old.steps }
        ensures steps { self.new.steps ≡ change_last (with_reply reply) self.old.steps }
        ensures items { self.new.items ≡ self.old.items ++ item.Reply reply ∷ [] }
        ensures room { self.new.room + 1 ≡ self.old.room }
    {
        self.items.push_reserved(Item::Reply(reply));
    }

    /// The items in the order in which they came.
    pub fn items(&self) -> &[Item]
        ensures items { result.now ≡ self.now.items }
        ensures steps { steps_of result.now ≡ self.now.steps }
        ensures row { IsRow result.now }
    {
        self.items.as_slice()
    }
}
