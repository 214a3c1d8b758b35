ghost use Rattle.std.specs.Prelude.{◌≡◌, ℕ, ◌<◌, ◌&&◌, ◌||◌, ◌==◌, not, false, [], ◌∷◌, ◌++◌, OnOk, OnErr, MatchOption, length, slice_get};
ghost use Rattle.std.specs.List.{AllByRecursion};
ghost use Rattle.job_table.specs.LiveJobs.{is_of_writer};
ghost use Rattle.job_table.specs.ReadyNumbers.{stands_behind, without_number, IsLeastBehind};

use mount_model::Owner;
use std::alloc::{AllocError, Global};
use std::collections::BTreeSet;
use std::marker::Model;

/// The numbers of the ready jobs. Those of writers stand a second time behind the line that opened the writer, so
/// that a writer's first job is found without a scan.
#[derive(Drop)]
pub struct ReadyJobs {
    numbers: BTreeSet<u64>,
    of_writers: BTreeSet<(u32, u64)>,
}

impl Model for ReadyJobs {
    ghost use Rattle.job_table.specs.ReadyNumbers.{ReadyNumbers};

    ghost Value = { ReadyNumbers };

    ghost view = { λ a. record { numbers = a.numbers.keys; of_writers = a.of_writers.keys } };
}

impl ReadyJobs {
    /// No jobs. Takes no memory.
    pub fn new(alloc: Global) -> Self
        ensures { result ≡ record { numbers = []; of_writers = [] } }
    {
        ReadyJobs {
            numbers: BTreeSet::new(alloc),
            of_writers: BTreeSet::new(alloc),
        }
    }

    /// One more job, whose number is above all that are here. An error changes nothing.
    pub fn insert(&mut self, owner: Owner, number: u64) -> Result<(), AllocError>
        requires { AllByRecursion (λ n. n < number) self.old.numbers }
        ensures numbers { OnOk result (self.new.numbers ≡ self.old.numbers ++ number ∷ []) }
        ensures of_writers { OnOk result ((line n : ℕ) → stands_behind line n self.new.of_writers ≡ (stands_behind line n self.old.of_writers || (is_of_writer line owner && (number == n)))) }
        ensures err { OnErr result (self.new ≡ self.old) }
    {
        match self.numbers.insert(number) {
            Ok(_) => {}
            Err(_) => return Err(AllocError),
        }
        match owner {
            Owner::Line(_) | Owner::Stream(_) => Ok(()),
            Owner::Writer(line) => match self.of_writers.insert((line, number)) {
                Ok(_) => Ok(()),
                Err(_) => {
                    self.numbers.remove(&number);
                    Err(AllocError)
                }
            },
        }
    }

    /// The job isn't ready any more. Takes no memory.
    pub fn remove(&mut self, owner: Owner, number: u64)
        ensures numbers { self.new.numbers ≡ without_number number self.old.numbers }
        ensures of_writers { (line n : ℕ) → stands_behind line n self.new.of_writers ≡ (stands_behind line n self.old.of_writers && not (is_of_writer line owner && (number == n))) }
    {
        self.numbers.remove(&number);
        match owner {
            Owner::Line(_) | Owner::Stream(_) => {}
            Owner::Writer(line) => {
                self.of_writers.remove(&(line, number));
            }
        }
    }

    /// The number at this place, from 0, in order.
    pub fn at(&self, place: usize) -> Option<u64>
        ensures { result ≡ slice_get self.now.numbers place }
    {
        self.numbers.iter().copied().nth(place)
    }

    /// How many jobs are ready.
    pub fn len(&self) -> usize
        ensures { result ≡ length self.now.numbers }
    {
        self.numbers.len()
    }

    /// The least number of a job of the writer that this line opened.
    pub fn first_of_writer(&self, line: u32) -> Option<u64>
        ensures { MatchOption result ((n : ℕ) → stands_behind line n self.now.of_writers ≡ false) (λ n. IsLeastBehind line self.now.of_writers n) }
    {
        match self.of_writers.range((line, 0)..).next() {
            Some(&(opened, number)) => { if opened == line { Some(number) } else { None } }
            None => None,
        }
    }
}
