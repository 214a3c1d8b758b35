ghost use Rattle.std.specs.Prelude.{◌≡◌, option_copied};
ghost use Rattle.mount_model.specs.Handles.{handle_of};
ghost use Rattle.mount_model.specs.State as state;
ghost use Rattle.mount_plan.specs.Seen as plan;

use crate::work::Work;
use mount_model::{Handle, Line, Request};
use mount_plan::View;
use part_uploader::Uploader;

/// The name that a request gives for a handle.
pub fn name_in(request: &Request) -> Option<u16>
    ensures { result ≡ Rattle.mount_model.specs.Handles.name_in request.now }
{
    match request {
        Request::OpenRead { handle, .. } => Some(*handle),
        Request::OpenWrite { handle, .. } => Some(*handle),
        Request::OpenTruncate { handle, .. } => Some(*handle),
        Request::Read { handle, .. } => Some(*handle),
        Request::Write { handle, .. } => Some(*handle),
        Request::Sync { handle } => Some(*handle),
        Request::Close { handle } => Some(*handle),
        _ => None,
    }
}

impl Work {
    ghost use Rattle.mount_core.specs.Shared.{shared_in};

    /// The handle that a line names, where it is live.
    fn named(&self, line: &Line) -> Option<&Handle<Uploader>>
        ensures { option_copied result ≡ handle_of line.now self.now.handles }
    {
        match name_in(&line.request) {
            Some(name) => self.handles.get(line.actor, name),
            None => None,
        }
    }

    /// What a line sees of the mount.
    pub fn view(&self, line: &Line) -> View<'_>
        ensures { plan.view_of result ≡ state.view_of (shared_in self.now) line.now }
    {
        View {
            line: line.number,
            options: self.options,
            handle: self.named(line),
            live: self.handles.len(),
            names: &self.names,
        }
    }
}
