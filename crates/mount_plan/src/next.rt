ghost use Rattle.std.specs.Prelude.{option_copied};
ghost use Rattle.mount_model.specs.Conversation.{next_of};
ghost use Rattle.mount_plan.specs.Meant.{IsFor, Means, with_last};
ghost use Rattle.mount_plan.specs.Seen.{view_of};

use crate::close::close_plan;
use crate::delete::delete_plan;
use crate::list::list_plan;
use crate::lookup::path_errno;
use crate::make::make_plan;
use crate::open::{Mode, open_plan};
use crate::planned::failed;
use crate::put::put_plan;
use crate::read::read_plan;
use crate::remove::remove_plan;
use crate::stat::stat_plan;
use crate::sync::sync_plan;
use crate::unlink::unlink_plan;
use crate::write::write_plan;
use crate::{LinePlan, Plan, View};
use mount_model::{Heard, Request, Told};

/// What a line with this request does next. A faulty path comes before all else. The line has `heard` this of its own calls, and then `last`, which may
/// stand apart, so that a caller with no memory to put it behind the others can ask.
pub fn plan<'a>(
    view: View<'a>,
    request: &'a Request,
    heard: &'a Heard,
    last: Option<&'a Told>,
) -> Plan<'a>
    ensures means { Means result (next_of (view_of view.entry) request.now (with_last (option_copied last.entry) heard.now)) }
    ensures whose { IsFor result request.now (view_of view.entry).handle }
{
    match request {
        Request::Put { key, content } => Plan::Line(put_plan(key, content, heard, last)),
        Request::Await => Plan::Line(LinePlan::Wait),
        Request::Stat { path: Ok(path) } => Plan::Line(stat_plan(path, &view, heard, last)),
        Request::List { path: Ok(path) } => Plan::Line(list_plan(path, &view, heard, last)),
        Request::OpenRead { path: Ok(path), .. } => {
            Plan::Line(open_plan(path, Mode::Read, &view, heard, last))
        }
        Request::OpenWrite { path: Ok(path), .. } => {
            Plan::Line(open_plan(path, Mode::Write, &view, heard, last))
        }
        Request::OpenTruncate { path: Ok(path), .. } => {
            Plan::Line(open_plan(path, Mode::Truncate, &view, heard, last))
        }
        Request::Read { offset, count, .. } => Plan::Line(read_plan(
            view.handle,
            *offset,
            *count,
            heard,
            last,
        )),
        Request::Write {
            offset,
            content,
            ..
        } => write_plan(view.handle, *offset, content),
        Request::Sync { .. } => sync_plan(view.handle, view.line),
        Request::Close { .. } => close_plan(view.handle, view.line),
        Request::Delete { key } => Plan::Line(delete_plan(key, heard, last)),
        Request::MakeDir { path: Ok(path) } => Plan::Line(make_plan(path, &view, heard, last)),
        Request::RemoveDir { path: Ok(path) } => Plan::Line(remove_plan(path, &view, heard, last)),
        Request::Unlink { path: Ok(path) } => Plan::Line(unlink_plan(path, &view, heard, last)),
        Request::Stat { path: Err(why) }
        | Request::List { path: Err(why) }
        | Request::OpenRead { path: Err(why), .. }
        | Request::OpenWrite { path: Err(why), .. }
        | Request::OpenTruncate { path: Err(why), .. }
        | Request::MakeDir { path: Err(why) }
        | Request::RemoveDir { path: Err(why) }
        | Request::Unlink { path: Err(why) } => Plan::Line(failed(path_errno(why))),
    }
}
