ghost use Rattle.std.specs.Prelude.{◌≡◌, List, ℕ, ◌∷◌, option_copied};
ghost use Rattle.bucket_model.specs.declared.answer.Brief.{Brief};
ghost use Rattle.mount_model.specs.Conversation.{Replies, delete_next};
ghost use Rattle.mount_plan.specs.Meant.{MeansOne, with_last};

use crate::LinePlan;
use crate::answered::first_answer;
use bucket_model::Brief;
use mount_model::{Heard, Reply, Told, errno_of};
use mp_types::Key;

fn delete_reply(answer: &Brief) -> Reply
    ensures { (key : List ℕ) (answers : List Brief) → delete_next key (answer.now ∷ answers) ≡ Replies result }
{
    match answer {
        Brief::Gone => Reply::Gone,
        _ => Reply::Failed(errno_of(answer)),
    }
}

/// What a delete by the others does next: its Delete, and then `gone` or the error of the call.
pub fn delete_plan<'a>(key: &'a Key, heard: &Heard, last: Option<&Told>) -> LinePlan<'a>
    ensures { MeansOne result (delete_next key.now (with_last (option_copied last.entry) heard.now).answers) }
{
    match first_answer(heard, last) {
        Some(answer) => LinePlan::Reply(delete_reply(answer)),
        None => LinePlan::Delete(key),
    }
}
