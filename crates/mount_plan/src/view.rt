use local_names::Locals;
use mount_model::Handle;
use mp_types::Opts;
use part_uploader::Uploader;

/// What a line sees of the mount.
#[derive(Clone, Copy)]
pub struct View<'a> {
    /// The line's number.
    pub line: u32,
    pub options: Opts,
    /// The live handle of the line's process and of the name that its request gives, if there is one.
    pub handle: Option<&'a Handle<Uploader>>,
    /// How many handles are live.
    pub live: usize,
    /// The mount's own names.
    pub names: &'a Locals,
}
