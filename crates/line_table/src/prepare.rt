ghost use Rattle.std.specs.Prelude.{◌≡◌, ◌≤◌, IfOk, map, length, vec_capacity};
ghost use Rattle.mount_model.specs.Run.{startable};
ghost use Rattle.line_table.specs.Table.{waiting, followers_of};

use mount_model::{Line, Phase, Standing};
use std::alloc::{AllocError, Global};
use std::collections::{BTreeMap, BTreeSet};

/// For each line the number of the next line of its actor, by one pass from the last line up.
pub fn find_followers(alloc: Global, lines: &[Line]) -> Result<Vec<Option<u32>>, AllocError>
    ensures { IfOk result (λ followers. followers.items ≡ followers_of lines.now) }
{
    let mut followers = Vec::new(alloc);
    let mut first = BTreeMap::new(alloc);
    let mut place = lines.len();
    while place > 0 {
        place -= 1;
        let line = &lines[place];
        let follower = first.insert(line.actor, line.number)?;
        followers.push(follower)?;
    }
    followers.reverse();
    Ok(followers)
}

/// The numbers of the lines that may begin at once, in a vector with room for each line.
pub fn find_startable(alloc: Global, lines: &[Line]) -> Result<Vec<u32>, AllocError>
    ensures { IfOk result (λ numbers. (numbers.items ≡ startable (map waiting lines.now)) × (length lines.now ≤ vec_capacity numbers)) }
{
    let mut numbers = Vec::with_capacity(alloc, lines.len())?;
    let mut busy = BTreeSet::new(alloc);
    for line in lines {
        let is_first = busy.insert(line.actor)?;
        if is_first {
            numbers.push(line.number)?;
        }
    }
    Ok(numbers)
}

/// All lines, before any begins.
pub fn wait_all(alloc: Global, lines: Vec<Line>) -> Result<Vec<Standing>, AllocError>
    ensures { IfOk result (λ standings. standings.items ≡ map waiting lines.items) }
{
    lines
        .into_iter()
        .map(|line| Standing {
            line,
            phase: Phase::Waiting,
        })
        .collect(alloc)
}
