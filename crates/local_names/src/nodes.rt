ghost use Rattle.std.specs.Prelude.{◌≡◌, ◌+◌, ◌≤◌, ◌<◌, ◌^◌, ◌||◌, ℕ, List, true, false, not, if◌then◌else◌, OnOk, OnErr};
ghost use Rattle.std.specs.BTreeMap.{get_by_text};
ghost use Rattle.std.specs.Str.{bytes_eq};
ghost use Rattle.mp_rules.specs.declared.entry.Local.TheVariants as local;
ghost use Rattle.mp_rules.specs.Keys.{is_under};
ghost use Rattle.local_names.specs.Nodes.{is_bare, kept, node_in, kind_in, count_in, has_node, is_none, is_dir, is_file, shown};
ghost use Rattle.local_names.specs.Under.{one};

use crate::above::parent;
use mp_rules::Local;
use std::alloc::{AllocError, Global};
use std::collections::BTreeMap;

/// What is kept under a key, and how many names stand below it.
#[derive(Clone, Copy)]
pub struct Node {
    pub kind: Local,
    pub below: usize,
}

/// The kept keys in order of their bytes.
pub type Nodes = BTreeMap<String, Node>;

impl Node {
    // That of each key with neither.
    fn bare() -> Node
        ensures { result ≡ Rattle.local_names.specs.Nodes.bare }
    {
        Node {
            kind: Local::None,
            below: 0,
        }
    }

    /// Whether a name is kept here, a directory or a file.
    pub fn is_name(self) -> bool
        ensures { result ≡ not (is_none self.kind) }
    {
        !matches!(self.kind, Local::None)
    }

    /// Whether the name kept here is a directory.
    pub fn is_dir(self) -> bool
        ensures { result ≡ is_dir self.kind }
    {
        matches!(self.kind, Local::Dir)
    }

    /// Whether the name kept here is a file.
    pub fn is_file(self) -> bool
        ensures { result ≡ is_file self.kind }
    {
        matches!(self.kind, Local::File { .. })
    }

    /// Whether no name is kept here or below.
    pub fn is_bare(self) -> bool
        ensures { result ≡ is_bare self }
    {
        !self.is_name() && self.below == 0
    }

    /// What is local here: with names below it, a directory.
    pub fn shown(self) -> Local
        ensures { result ≡ shown self }
    {
        if self.below == 0 {
            return self.kind;
        }
        Local::Dir
    }
}

/// The node of a key, which may be kept or not where it is bare.
pub fn node_at(nodes: &Nodes, key: &str) -> Node
    ensures { result ≡ node_in nodes.now key.now }
{
    match nodes.get(key) {
        Some(node) => *node,
        None => Node::bare(),
    }
}

// Changes a node that is kept. A bare one goes.
fn set_node(nodes: &mut Nodes, key: &str, node: Node)
    requires { has_node nodes.old key.now ≡ true }
    ensures { (q : List ℕ) → get_by_text nodes.new q ≡ (if bytes_eq key.now q then kept node else get_by_text nodes.old q) }
{
    if node.is_bare() {
        nodes.remove(key);
        return;
    }
    match nodes.get_mut(key) {
        Some(place) => *place = node,
        None => unreachable!(),
    }
}

// Keeps the node of a key, so that it can be changed without memory.
fn keep_node(nodes: &mut Nodes, alloc: Global, key: &str) -> Result<(), AllocError>
    ensures same { (q : List ℕ) → node_in nodes.new q ≡ node_in nodes.old q }
    ensures ok { OnOk result ((q : List ℕ) → has_node nodes.new q ≡ (bytes_eq key.now q || has_node nodes.old q)) }
{
    if nodes.contains_key(key) {
        return Ok(());
    }
    let text = String::from_str(alloc, key)?;
    nodes.insert(text, Node::bare())?;
    Ok(())
}

// Keeps the nodes of a key and of all above it.
fn keep_nodes(nodes: &mut Nodes, alloc: Global, key: &str) -> Result<(), AllocError>
    ensures same { (q : List ℕ) → node_in nodes.new q ≡ node_in nodes.old q }
    ensures ok { OnOk result ((q : List ℕ) → (bytes_eq key.now q || is_under key.now q) ≡ true → has_node nodes.new q ≡ true) }
{
    keep_node(nodes, alloc, key)?;
    let mut rest = key;
    while let Some(above) = parent(rest) {
        keep_node(nodes, alloc, above)?;
        rest = above;
    }
    Ok(())
}

// One more name stands below each key above this one.
fn raise(nodes: &mut Nodes, key: &str)
    requires kept { (q : List ℕ) → is_under key.now q ≡ true → has_node nodes.old q ≡ true }
    requires room { (q : List ℕ) → count_in nodes.old q < 2 ^ 63 }
    ensures kinds { (q : List ℕ) → kind_in nodes.new q ≡ kind_in nodes.old q }
    ensures counts { (q : List ℕ) → count_in nodes.new q ≡ count_in nodes.old q + one (is_under key.now q) }
{
    let mut rest = key;
    while let Some(above) = parent(rest) {
        let node = node_at(nodes, above);
        let raised = Node {
            kind: node.kind,
            below: node.below + 1,
        };
        set_node(nodes, above, raised);
        rest = above;
    }
}

// One name less stands below each key above this one.
fn lower(nodes: &mut Nodes, key: &str)
    requires { (q : List ℕ) → one (is_under key.now q) ≤ count_in nodes.old q }
    ensures kinds { (q : List ℕ) → kind_in nodes.new q ≡ kind_in nodes.old q }
    ensures counts { (q : List ℕ) → count_in nodes.new q + one (is_under key.now q) ≡ count_in nodes.old q }
{
    let mut rest = key;
    while let Some(above) = parent(rest) {
        let node = node_at(nodes, above);
        let lowered = Node {
            kind: node.kind,
            below: node.below - 1,
        };
        set_node(nodes, above, lowered);
        rest = above;
    }
}

/// Makes a key a name of a kind. An error changes nothing that is seen.
pub fn add_name(nodes: &mut Nodes, alloc: Global, key: &str, kind: Local) -> Result<(), AllocError>
    requires kind { is_none kind ≡ false }
    requires room { (q : List ℕ) → count_in nodes.old q < 2 ^ 63 }
    ensures kinds { OnOk result ((q : List ℕ) → kind_in nodes.new q ≡ (if bytes_eq key.now q then kind else kind_in nodes.old q)) }
    ensures counts { OnOk result ((q : List ℕ) → count_in nodes.new q ≡ count_in nodes.old q + one (is_under key.now q)) }
    ensures err { OnErr result ((q : List ℕ) → node_in nodes.new q ≡ node_in nodes.old q) }
{
    keep_nodes(nodes, alloc, key)?;
    let below = node_at(nodes, key).below;
    set_node(nodes, key, Node { kind, below });
    raise(nodes, key);
    Ok(())
}

/// Gives a file another size, at the cost of one look-up.
pub fn set_size(nodes: &mut Nodes, key: &str, size: u64)
    requires { is_file (kind_in nodes.old key.now) ≡ true }
    ensures kinds { (q : List ℕ) → kind_in nodes.new q ≡ (if bytes_eq key.now q then local.File size else kind_in nodes.old q) }
    ensures counts { (q : List ℕ) → count_in nodes.new q ≡ count_in nodes.old q }
{
    match nodes.get_mut(key) {
        Some(node) => node.kind = Local::File { size },
        None => unreachable!(),
    }
}

/// Makes a name none.
pub fn remove_name(nodes: &mut Nodes, key: &str)
    requires named { is_none (kind_in nodes.old key.now) ≡ false }
    requires counted { (q : List ℕ) → one (is_under key.now q) ≤ count_in nodes.old q }
    ensures kinds { (q : List ℕ) → kind_in nodes.new q ≡ (if bytes_eq key.now q then local.None else kind_in nodes.old q) }
    ensures counts { (q : List ℕ) → count_in nodes.new q + one (is_under key.now q) ≡ count_in nodes.old q }
{
    let node = Node {
        kind: Local::None,
        below: node_at(nodes, key).below,
    };
    set_node(nodes, key, node);
    lower(nodes, key);
}
