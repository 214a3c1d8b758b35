ghost use Rattle.std.specs.Prelude.{◌≡◌, [], ◌∷◌, ◌++◌, IfOk, true, nat_eq, string_bytes};
ghost use Rattle.std.specs.List.{starts_with};
ghost use Rattle.local_names.specs.Children.{AddsChildren, children_in};

use crate::nodes::Nodes;
use mp_rules::Local;
use mp_types::{Text, behind};
use std::alloc::{AllocError, Global};
use std::ops::Bound;

/// A name in a directory, and what is local there.
pub type Child = (Text, Local);

// A text behind all keys below this name, and before all other keys that come behind them: a `0` comes next to a `/`.
fn past_keys_below(alloc: Global, prefix: &str, name: &str) -> Result<String, AllocError>
    ensures { IfOk result (λ text. string_bytes text ≡ prefix.now ++ (name.now ++ 48 ∷ [])) }
{
    let mut text = String::from_str(alloc, prefix)?;
    text.push_str(name)?;
    text.push_str("0")?;
    Ok(text)
}

// Adds the children whose keys come from a text on, up to the first key that stands below one. It gives the text
// from which there are more.
fn add_children(
    children: &mut Vec<Child>,
    alloc: Global,
    nodes: &Nodes,
    prefix: &str,
    from: &String,
) -> Result<Option<String>, AllocError>
    requires { starts_with nat_eq (string_bytes from.now) prefix.now ≡ true }
    ensures { IfOk result (AddsChildren prefix.now (string_bytes from.now) nodes.now.entries children.old.items children.new.items) }
{
    for (key, node) in nodes.range((Bound::Included(from), Bound::Unbounded)) {
        let Some(name) = behind(key.as_str(), prefix) else {
            return Ok(None);
        };
        if let Some((above, _)) = name.split_once('/') {
            return Ok(Some(past_keys_below(alloc, prefix, above)?));
        }
        if !name.is_empty() && !node.is_bare() {
            children.push((Text::copy(alloc, name)?, node.shown()))?;
        }
    }
    Ok(None)
}

/// The names directly in the directory of a prefix. Keys below them are passed over and not read.
pub fn children(nodes: &Nodes, alloc: Global, prefix: &str) -> Result<Vec<Child>, AllocError>
    ensures { IfOk result (λ children. children.items ≡ children_in prefix.now nodes.now.entries) }
{
    let mut children = Vec::new(alloc);
    let mut from = String::from_str(alloc, prefix)?;
    loop {
        match add_children(&mut children, alloc, nodes, prefix, &from)? {
            Some(next) => from = next,
            None => return Ok(children),
        }
    }
}
