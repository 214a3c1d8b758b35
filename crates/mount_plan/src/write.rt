ghost use Rattle.std.specs.Prelude.{ℕ, option_copied};
ghost use Rattle.mp_types.specs.Content.{bytes_of};
ghost use Rattle.mount_model.specs.Conversation.{write_next};
ghost use Rattle.mount_plan.specs.Meant.{Means, IsFor};

use crate::Plan;
use crate::planned::failed;
use mount_model::{Handle, Request};
use mp_types::{Data, Errno};
use part_uploader::Uploader;

/// What a write does next. Only a writer takes bytes; whether it takes these, it says itself.
pub fn write_plan<'a>(
    handle: Option<&'a Handle<Uploader>>,
    offset: u64,
    content: &'a Data,
) -> Plan<'a>
    ensures means { Means result (write_next (option_copied handle.entry) offset (bytes_of content.now)) }
    ensures whose { (name : ℕ) → IsFor result (Request.Write name offset content.now) (option_copied handle.entry) }
{
    match handle {
        Some(Handle::Writing(writer)) => Plan::Write {
            writer,
            offset,
            content,
        },
        _ => Plan::Line(failed(Errno::Ebadf)),
    }
}
