ghost use Rattle.std.specs.Prelude.{◌≡◌, List, ℕ, ◌∷◌, option_copied};
ghost use Rattle.bucket_model.specs.declared.answer.Brief.{Brief};
ghost use Rattle.mp_types.specs.Content.{bytes_of};
ghost use Rattle.mount_model.specs.Conversation.{Replies, put_next};
ghost use Rattle.mount_plan.specs.Meant.{MeansOne, with_last};

use crate::LinePlan;
use crate::answered::first_answer;
use bucket_model::Brief;
use mount_model::{Heard, Reply, Told, errno_of};
use mp_types::{Data, Key};

fn put_reply(answer: &Brief) -> Reply
    ensures { (key bytes : List ℕ) (answers : List Brief) → put_next key bytes (answer.now ∷ answers) ≡ Replies result }
{
    match answer {
        Brief::Made(etag) => Reply::Made(etag.copy()),
        _ => Reply::Failed(errno_of(answer)),
    }
}

/// What a put by the others does next: its Put, and then the ETag or the error of the call.
pub fn put_plan<'a>(
    key: &'a Key,
    content: &'a Data,
    heard: &Heard,
    last: Option<&Told>,
) -> LinePlan<'a>
    ensures { MeansOne result (put_next key.now (bytes_of content.now) (with_last (option_copied last.entry) heard.now).answers) }
{
    match first_answer(heard, last) {
        Some(answer) => LinePlan::Reply(put_reply(answer)),
        None => LinePlan::Put { key, content },
    }
}
