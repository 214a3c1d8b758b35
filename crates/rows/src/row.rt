ghost use Rattle.std.specs.Prelude.{IfOk, IfSome};
ghost use Rattle.std.specs.List.{AllByRecursion};
ghost use Rattle.mp_types.specs.Options.{AreWithin};
ghost use Rattle.bucket_model.specs.History.{IsChange};

use crate::cut::cut;
use crate::words::{number_of, push_numbers};
use bucket_model::Call;
use bytes::Bytes;
use fault_store::When;
use mp_driver::Schedule;
use mp_io::ListClock;
use mp_types::{Items, Key, KeyFault, Opts};
use std::alloc::{AllocError, Global};
use std::str;

/// What a row's words ask for, beside options and changes by others.
#[derive(Drop)]
pub struct Row {
    pub faults: Vec<(u64, When)>,
    pub schedule: Schedule,
    pub clock: ListClock,
    /// The lines that begin, where nothing is driven.
    pub begins: Option<Vec<u64>>,
    /// The lines whose replies are asked for at the end.
    pub asked: Vec<u64>,
    pub is_whole: bool,
    pub has_mark: bool,
    /// How many writes the sink takes, if not all.
    pub writes: Option<u64>,
    pub tail: u64,
    pub ends: u64,
}

impl Row {
    /// The row without words.
    pub fn new(alloc: Global) -> Result<Self, AllocError> {
        let clock = ListClock::new(vec![in alloc; 0u64]?);
        Ok(Row {
            faults: Vec::new(alloc),
            schedule: Schedule::Oldest,
            clock,
            begins: None,
            asked: Vec::new(alloc),
            is_whole: false,
            has_mark: false,
            writes: None,
            tail: u64::MAX,
            ends: u64::MAX,
        })
    }
}

// The most bytes of a part, and the most items of a page.
const MOST_BYTES: u64 = 1_073_741_824;

const MOST_ITEMS: u64 = 1_000;

// Takes a word that is an option.
fn take_option(options: &mut Opts, word: &[u8]) -> bool
    requires { AreWithin options.old }
    ensures { AreWithin options.new }
{
    if word == b"delete".as_slice() {
        options.allow_delete = true;
        return true;
    }
    if word == b"overwrite".as_slice() {
        options.allow_overwrite = true;
        return true;
    }
    let named = cut(word, b':');
    let Some(number) = number_of(named.after) else {
        return false;
    };
    if named.before == b"part".as_slice() && 1 <= number && number <= MOST_BYTES {
        options.part = number;
        return true;
    }
    if named.before == b"page".as_slice() && 1 <= number && number <= MOST_ITEMS {
        options.page = number as u32;
        return true;
    }
    false
}

// Takes a word without a value that is for the row.
fn take_flag(row: &mut Row, word: &[u8]) -> bool {
    if word == b"record".as_slice() {
        row.is_whole = true;
        return true;
    }
    if word == b"mark".as_slice() {
        row.has_mark = true;
        return true;
    }
    false
}

// Takes a word with a number.
fn take_number(row: &mut Row, name: &[u8], number: u64) -> Result<bool, AllocError> {
    if name == b"before".as_slice() {
        row.faults.push((number, When::Before))?;
        return Ok(true);
    }
    if name == b"after".as_slice() {
        row.faults.push((number, When::After))?;
        return Ok(true);
    }
    if name == b"reply".as_slice() {
        row.asked.push(number)?;
        return Ok(true);
    }
    if name == b"sink".as_slice() {
        row.writes = Some(number);
        return Ok(true);
    }
    if name == b"tail".as_slice() {
        row.tail = number;
        return Ok(true);
    }
    if name == b"ends".as_slice() {
        row.ends = number;
        return Ok(true);
    }
    Ok(false)
}

// The choices of a schedule, where each number is one.
fn push_choices(choices: &mut Vec<u32>, numbers: &[u64]) -> Result<bool, AllocError> {
    for number in numbers {
        match u32::try_from(*number) {
            Ok(choice) => choices.push(choice)?,
            Err(_) => return Ok(false),
        }
    }
    Ok(true)
}

fn take_order(alloc: Global, row: &mut Row, numbers: &[u64]) -> Result<bool, AllocError> {
    let mut choices = Vec::new(alloc);
    if !push_choices(&mut choices, numbers)? {
        return Ok(false);
    }
    row.schedule = Schedule::List(Items::from_vec(choices));
    Ok(true)
}

// Takes a word with these numbers.
fn take_numbers(
    alloc: Global,
    row: &mut Row,
    name: &[u8],
    numbers: Vec<u64>,
) -> Result<bool, AllocError> {
    if name == b"order".as_slice() {
        return take_order(alloc, row, numbers.as_slice());
    }
    if name == b"begin".as_slice() {
        row.begins = Some(numbers);
        return Ok(true);
    }
    if name == b"clock".as_slice() && !numbers.is_empty() {
        row.clock = ListClock::new(numbers);
        return Ok(true);
    }
    Ok(false)
}

// Takes a word that is for the row, and neither an option nor a change by others.
fn take_own(alloc: Global, row: &mut Row, word: &[u8]) -> Result<bool, AllocError> {
    if take_flag(row, word) {
        return Ok(true);
    }
    let named = cut(word, b':');
    if let Some(number) = number_of(named.after) {
        if take_number(row, named.before, number)? {
            return Ok(true);
        }
    }
    let mut numbers = Vec::new(alloc);
    if !push_numbers(&mut numbers, named.after)? {
        return Ok(false);
    }
    take_numbers(alloc, row, named.before, numbers)
}

fn key_of(alloc: Global, text: &[u8]) -> Result<Option<Key>, AllocError> {
    let Ok(text) = str::from_utf8(text) else {
        return Ok(None);
    };
    match Key::parse(alloc, text) {
        Ok(key) => Ok(Some(key)),
        Err(KeyFault::Memory) => Err(AllocError),
        Err(_) => Ok(None),
    }
}

fn gone(alloc: Global, key: &[u8]) -> Result<Option<Call>, AllocError>
    ensures { IfOk result (λ found. IfSome found IsChange) }
{
    match key_of(alloc, key) {
        Ok(Some(key)) => Ok(Some(Call::Delete { key })),
        Ok(None) => Ok(None),
        Err(error) => Err(error),
    }
}

fn put(alloc: Global, key: &[u8], text: &[u8]) -> Result<Option<Call>, AllocError>
    ensures { IfOk result (λ found. IfSome found IsChange) }
{
    let Ok(bytes) = Bytes::from_vec(Vec::from_slice(alloc, text)?) else {
        return Err(AllocError);
    };
    match key_of(alloc, key) {
        Ok(Some(key)) => Ok(Some(Call::Put { key, bytes })),
        Ok(None) => {
            drop(bytes);
            Ok(None)
        }
        Err(error) => {
            drop(bytes);
            Err(error)
        }
    }
}

// The change by others that a word tells.
fn change_of(alloc: Global, name: &[u8], value: &[u8]) -> Result<Option<Call>, AllocError>
    ensures { IfOk result (λ found. IfSome found IsChange) }
{
    if name == b"gone".as_slice() {
        return gone(alloc, value);
    }
    if name == b"put".as_slice() {
        let parted = cut(value, b':');
        return put(alloc, parted.before, parted.after);
    }
    Ok(None)
}

// Adds a change in front of a call.
fn push_change(changes: &mut Vec<(u64, Call)>, number: u64, call: Call) -> Result<(), AllocError>
    requires old { AllByRecursion (λ change. IsChange change.1) changes.old.items }
    requires new { IsChange call }
    ensures { AllByRecursion (λ change. IsChange change.1) changes.new.items }
{
    match changes.push((number, call)) {
        Ok(()) => Ok(()),
        Err(refused) => {
            drop(refused);
            Err(AllocError)
        }
    }
}

// Takes a word that tells a change by others.
fn take_change(
    alloc: Global,
    changes: &mut Vec<(u64, Call)>,
    word: &[u8],
) -> Result<bool, AllocError>
    requires { AllByRecursion (λ change. IsChange change.1) changes.old.items }
    ensures { AllByRecursion (λ change. IsChange change.1) changes.new.items }
{
    let named = cut(word, b':');
    let numbered = cut(named.after, b':');
    let Some(number) = number_of(numbered.before) else {
        return Ok(false);
    };
    match change_of(alloc, named.before, numbered.after) {
        Ok(Some(call)) => match push_change(changes, number, call) {
            Ok(()) => Ok(true),
            Err(error) => Err(error),
        },
        Ok(None) => Ok(false),
        Err(error) => Err(error),
    }
}

/// Takes a word. Whether it is one.
pub fn take_word(
    alloc: Global,
    row: &mut Row,
    options: &mut Opts,
    changes: &mut Vec<(u64, Call)>,
    word: &[u8],
) -> Result<bool, AllocError>
    requires within { AreWithin options.old }
    requires changes { AllByRecursion (λ change. IsChange change.1) changes.old.items }
    ensures within { AreWithin options.new }
    ensures changes { AllByRecursion (λ change. IsChange change.1) changes.new.items }
{
    if take_option(options, word) || take_change(alloc, changes, word)? {
        return Ok(true);
    }
    take_own(alloc, row, word)
}
