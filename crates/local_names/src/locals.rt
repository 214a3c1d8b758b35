ghost use Rattle.std.specs.Prelude.{◌≡◌, ◌<◌, false, length, IsSome, IfOk, OnOk, OnErr};
ghost use Rattle.std.specs.FinMap as map;
ghost use Rattle.mp_rules.specs.Local.{no_names, with_dir, with_file, without_name, without_file, without_dirs_above, has_name_below, local_at};
ghost use Rattle.local_names.specs.Names.{is_name, with_name, without_dir};
ghost use Rattle.local_names.specs.Nodes.{is_none};
ghost use Rattle.local_names.specs.Children.{AreChildren};

use crate::above::parent;
use crate::children::{Child, children};
use crate::nodes::{Nodes, add_name, node_at, remove_name, set_size};
use mp_rules::Local;
use mp_types::Key;
use std::alloc::{AllocError, Global};
use std::collections::BTreeMap;
use std::marker::Model;

/// The directories that were made and the files that are being written, as long as only the mount has them. Each
/// look-up and each change costs what the key and a logarithm of their number cost.
#[derive(Drop)]
pub struct Locals {
    alloc: Global,
    nodes: Nodes,
}

impl Model for Locals {
    ghost use Rattle.mp_rules.specs.Local.{LocalNames, names_code};
    ghost use Rattle.local_names.specs.Kept.{names_in, IsKept};

    ghost Value = { LocalNames };

    ghost coded = { names_code };

    ghost view = { λ a. names_in a.nodes };

    ghost invariant = { λ a. IsKept a.nodes };
}

impl Locals {
    /// No names. Takes no memory.
    pub fn new(alloc: Global) -> Self
        ensures { result ≡ no_names }
    {
        Locals {
            alloc,
            nodes: BTreeMap::new(alloc),
        }
    }

    fn add(&mut self, key: &Key, kind: Local) -> Result<(), AllocError>
        requires new { is_name self.old key.now ≡ false }
        requires kind { is_none kind ≡ false }
        ensures ok { OnOk result (self.new ≡ with_name kind key.now self.old) }
        ensures err { OnErr result (self.new ≡ self.old) }
    {
        let key = key.as_str();
        // A map's length is below 2^63, so no count overflows.
        let _len = self.nodes.len();
        add_name(&mut self.nodes, self.alloc, key, kind)
    }

    /// One more directory that was made. Its key is no name yet. An error changes nothing.
    pub fn add_dir(&mut self, key: &Key) -> Result<(), AllocError>
        requires { is_name self.old key.now ≡ false }
        ensures ok { OnOk result (self.new ≡ with_dir key.now self.old) }
        ensures err { OnErr result (self.new ≡ self.old) }
    {
        self.add(key, Local::Dir)
    }

    /// One more file that is being written, of no bytes. Its key is no name yet. An error changes nothing.
    pub fn add_file(&mut self, key: &Key) -> Result<(), AllocError>
        requires { is_name self.old key.now ≡ false }
        ensures ok { OnOk result (self.new ≡ with_file key.now 0 self.old) }
        ensures err { OnErr result (self.new ≡ self.old) }
    {
        self.add(key, Local::File { size: 0 })
    }

    /// A file that is being written has this many bytes from now on. Takes no memory.
    pub fn resize(&mut self, key: &str, size: u64)
        requires { IsSome (map.get self.old.files key.now) }
        ensures { self.new ≡ with_file key.now size self.old }
    {
        set_size(&mut self.nodes, key, size);
    }

    /// The name is given up, if it is one, and whether it was. Takes no memory.
    pub fn remove(&mut self, key: &str) -> bool
        ensures was { result ≡ is_name self.old key.now }
        ensures names { self.new ≡ without_name key.now self.old }
    {
        let is_name = node_at(&self.nodes, key).is_name();
        if is_name {
            remove_name(&mut self.nodes, key);
        }
        is_name
    }

    /// The file is given up, if the name is one; a directory stays. Takes no memory.
    pub fn remove_file(&mut self, key: &str)
        ensures { self.new ≡ without_file key.now self.old }
    {
        if node_at(&self.nodes, key).is_file() {
            self.remove(key);
        }
    }

    /// What is local at a key. Takes no memory.
    pub fn at(&self, key: &str) -> Local
        requires { 0 < length key.now }
        ensures { result ≡ local_at self.now key.now }
    {
        node_at(&self.nodes, key).shown()
    }

    /// Whether some name stands below a key. Takes no memory.
    pub fn has_below(&self, key: &str) -> bool
        requires { 0 < length key.now }
        ensures { result ≡ has_name_below self.now key.now }
    {
        node_at(&self.nodes, key).below > 0
    }

    /// The names directly in the directory of a prefix, in order, and what is local at each. It takes the time and the
    /// memory of the names, however many stand below them.
    pub fn children(&self, alloc: Global, prefix: &str) -> Result<Vec<Child>, AllocError>
        ensures { IfOk result (λ children. AreChildren self.now prefix.now children.items) }
    {
        // The keys of a map rise.
        let _len = self.nodes.len();
        children(&self.nodes, alloc, prefix)
    }

    fn remove_dir(&mut self, key: &str)
        ensures { self.new ≡ without_dir key.now self.old }
    {
        if node_at(&self.nodes, key).is_dir() {
            self.remove(key);
        }
    }

    /// The directories above a key are given up, since the bucket has them. Takes no memory.
    pub fn dirs_above(&mut self, key: &str)
        ensures { self.new ≡ without_dirs_above key.now self.old }
    {
        if self.nodes.is_empty() {
            return;
        }
        let mut rest = key;
        while let Some(above) = parent(rest) {
            self.remove_dir(above);
            rest = above;
        }
    }
}
