ghost use Rattle.std.specs.Prelude.{ℕ, option_copied};
ghost use Rattle.mount_model.specs.Conversation.{sync_next};
ghost use Rattle.mount_plan.specs.Meant.{Means, IsFor};

use crate::planned::failed;
use crate::{LinePlan, Plan};
use mount_model::{Handle, Reply, Request};
use mp_types::Errno;
use part_uploader::Uploader;

/// What the fsync of this line does next: there is nothing to do for a reader, and a writer is to make its object.
pub fn sync_plan<'a>(handle: Option<&'a Handle<Uploader>>, line: u32) -> Plan<'a>
    ensures means { Means result (sync_next line (option_copied handle.entry)) }
    ensures whose { (name : ℕ) → IsFor result (Request.Sync name) (option_copied handle.entry) }
{
    match handle {
        Some(Handle::Reading { .. }) => Plan::Line(LinePlan::Reply(Reply::Success)),
        Some(Handle::Writing(writer)) => Plan::Sync { writer, line },
        None => Plan::Line(failed(Errno::Ebadf)),
    }
}
