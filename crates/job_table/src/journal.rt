ghost use Rattle.std.specs.Prelude.{◌≡◌, ℕ, ◌+◌, ◌<◌, ◌≤◌, [], ◌∷◌, ◌++◌, cond, true, ◌==◌, IsSome, OnOk, IfOk, Some, option_copied};
ghost use Rattle.std.specs.Option.{option_or};
ghost use Rattle.std.specs.Ordering.{nat_cmp};
ghost use Rattle.std.specs.BTreeMap.{get, keys};
ghost use Rattle.mount_model.specs.Step.{step_of, with_drop, with_ask, with_reply, change_last, HasStep};
ghost use Rattle.mount_model.specs.Replies.{reply_to};
ghost use Rattle.mount_model.specs.Run.{is_among};
ghost use Rattle.job_table.specs.Journal.{all_known, place_in, reply_in};

use mount_model::{Answered, Ask, Event, Item, Line, Record, Reply};
use std::alloc::{AllocError, Global};
use std::collections::BTreeMap;
use std::marker::Model;

// For the number of each line, the place of its first reply in the record.
type Places = BTreeMap<u32, Option<usize>>;

/// A record in which the reply to a line is found without a scan. The table of places has an entry for each line
/// from the start, so that noting a place takes no memory.
#[derive(Drop)]
pub struct Journal {
    record: Record,
    places: Places,
}

impl Model for Journal {
    ghost use Rattle.std.specs.BTreeMap.{keys};
    ghost use Rattle.job_table.specs.Journal.{Journaled, ArePlaces};

    ghost Value = { Journaled };

    ghost view = { λ a. record { steps = a.record.steps; room = a.record.room; known = keys a.places } };

    ghost invariant = { λ a. ArePlaces a.places a.record.items };
}

// Places for these lines, with no reply yet.
fn no_places(alloc: Global, lines: &[Line]) -> Result<Places, AllocError>
    ensures places { IfOk result (λ places. (line : ℕ) → place_in places line ≡ None) }
    ensures known { IfOk result (λ places. all_known (keys places) lines.now ≡ true) }
{
    let mut places = BTreeMap::new(alloc);
    for line in lines {
        places.insert(line.number, None)?;
    }
    Ok(places)
}

fn place_of(places: &Places, line: u32) -> Option<usize>
    ensures { result ≡ place_in places.now line }
{
    places.get(&line).copied().flatten()
}

// Notes the place of a reply to the line, where none is noted yet.
fn note_place(places: &mut Places, line: u32, place: usize)
    requires { IsSome (get nat_cmp places.old line) }
    ensures places { (q : ℕ) → place_in places.new q ≡ cond (line == q) (option_or (place_in places.old line) (Some place)) (place_in places.old q) }
    ensures keys { keys places.new ≡ keys places.old }
{
    if let Some(first) = places.get_mut(&line) {
        *first = first.or(Some(place));
    }
}

fn reply_of(item: &Item) -> Option<&Reply>
    ensures { option_copied result ≡ reply_in item.now }
{
    match item {
        Item::Reply(answered) => Some(&answered.reply),
        Item::Event(_) | Item::Drop(_) | Item::Ask(_) => None,
    }
}

impl Journal {
    /// A record of nothing, for these lines.
    pub fn new(alloc: Global, lines: &[Line]) -> Result<Self, AllocError>
        ensures steps { IfOk result (λ journal. journal.steps ≡ []) }
        ensures known { IfOk result (λ journal. all_known journal.known lines.now ≡ true) }
    {
        Ok(Journal {
            record: Record::new(alloc),
            places: no_places(alloc, lines)?,
        })
    }

    /// Makes room for this many items more. Only this can find no memory.
    pub fn make_room(&mut self, items: usize) -> Result<(), AllocError>
        ensures steps { self.new.steps ≡ self.old.steps }
        ensures room { OnOk result (items ≤ self.new.room) }
        ensures kept { self.old.room ≤ self.new.room }
        ensures known { self.new.known ≡ self.old.known }
    {
        self.record.make_room(items)
    }

    /// Begins a step.
    pub fn event(&mut self, event: Event)
        requires { 0 < self.old.room }
        ensures steps { self.new.steps ≡ self.old.steps ++ step_of event ∷ [] }
        ensures room { self.new.room + 1 ≡ self.old.room }
        ensures known { self.new.known ≡ self.old.known }
    {
        self.record.event(event);
    }

    /// Adds a job that is dropped to the last step.
    pub fn drop_job(&mut self, job: u64)
        requires room { 0 < self.old.room }
        requires may { HasStep self.old.steps }
        ensures steps { self.new.steps ≡ change_last (with_drop job) self.old.steps }
        ensures room { self.new.room + 1 ≡ self.old.room }
        ensures known { self.new.known ≡ self.old.known }
    {
        self.record.drop_job(job);
    }

    /// Adds a job to the last step.
    pub fn ask(&mut self, ask: Ask)
        requires room { 0 < self.old.room }
        requires may { HasStep self.old.steps }
        ensures steps { self.new.steps ≡ change_last (with_ask ask) self.old.steps }
        ensures room { self.new.room + 1 ≡ self.old.room }
        ensures known { self.new.known ≡ self.old.known }
    {
        self.record.ask(ask);
    }

    /// Adds a reply to the last step, to a line that was given at the start.
    pub fn reply(&mut self, reply: Answered)
        requires room { 0 < self.old.room }
        requires may { HasStep self.old.steps }
        requires known { is_among reply.line self.old.known ≡ true }
        ensures steps { self.new.steps ≡ change_last (with_reply reply) self.old.steps }
        ensures room { self.new.room + 1 ≡ self.old.room }
        ensures known { self.new.known ≡ self.old.known }
    {
        note_place(&mut self.places, reply.line, self.record.items().len());
        self.record.reply(reply);
    }

    /// The first reply to a line, where there is one.
    pub fn reply_to(&self, line: u32) -> Option<&Reply>
        ensures { option_copied result ≡ reply_to line self.now.steps }
    {
        let items = self.record.items();
        let place = place_of(&self.places, line)?;
        reply_of(items.get(place)?)
    }

    /// What has happened so far.
    pub fn record(&self) -> &Record
        ensures { result.now.steps ≡ self.now.steps }
    {
        &self.record
    }
}
