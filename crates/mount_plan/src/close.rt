ghost use Rattle.std.specs.Prelude.{ℕ, option_copied};
ghost use Rattle.mount_model.specs.Conversation.{close_next};
ghost use Rattle.mount_plan.specs.Meant.{Means, IsFor};

use crate::planned::failed;
use crate::{LinePlan, Plan};
use mount_model::{Handle, Reply, Request};
use mp_types::Errno;
use part_uploader::Uploader;

/// What the close of this line does next: a reader goes at once, and a writer when its object is made.
pub fn close_plan<'a>(handle: Option<&'a Handle<Uploader>>, line: u32) -> Plan<'a>
    ensures means { Means result (close_next line (option_copied handle.entry)) }
    ensures whose { (name : ℕ) → IsFor result (Request.Close name) (option_copied handle.entry) }
{
    match handle {
        Some(Handle::Reading { .. }) => Plan::Line(LinePlan::Reply(Reply::Success)),
        Some(Handle::Writing(writer)) => Plan::Finish { writer, line },
        None => Plan::Line(failed(Errno::Ebadf)),
    }
}
