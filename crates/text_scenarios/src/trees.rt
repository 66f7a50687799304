//! Rows on JSON read as trees and written back, on what is no tree, and on trees that are built and compared.
ghost use Rattle.std.specs.Prelude.{◌≤◌, IfOk};
ghost use Rattle.json_tree.specs.Bytes.{max_depth};
ghost use Rattle.json_tree.specs.Json.{depth};
ghost use Rattle.json_tree.specs.Tree.{json_of};

use json_tree::{Items, Members, Text, Tree, read, reread, write};
use row_tables::{Fault, Found, parts};
use std::alloc::{AllocError, Global};

/// The tree of a JSON text.
pub(crate) fn tree(alloc: Global, text: &str) -> Result<Tree, Fault> {
    match read(alloc, text.as_bytes()) {
        Ok(tree) => Ok(tree),
        Err(_) => Err(Fault::NoRow),
    }
}

/// Adds the text of a tree.
pub(crate) fn add_tree(alloc: Global, tree: &Tree, found: &mut Found) {
    match write(alloc, tree) {
        Ok(text) => found.text(text.as_str()),
        Err(_) => found.lack_memory(),
    }
}

/// Adds the text that a text is read and written as, or of the kind `readable` only `none`; or the name of its fault.
pub(crate) fn add_read(alloc: Global, kind: &str, input: &[u8], found: &mut Found) {
    match read(alloc, input) {
        Ok(tree) if kind == "json" => add_tree(alloc, &tree, found),
        Ok(_) => found.text("none"),
        Err(fault) => found.debugged(&fault),
    }
}

/// Whether two texts have the same tree. Row: the texts with ` | ` between them.
pub(crate) fn find_same(alloc: Global, input: &str, found: &mut Found) -> Result<(), Fault> {
    let (first, second) = parts(input)?;
    let (first, second) = (tree(alloc, first), tree(alloc, second));
    match (&first, &second) {
        (Ok(first), Ok(second)) => Ok(found.displayed(&(first == second))),
        _ => Err(Fault::NoRow),
    }
}

/// Adds the text of a member of an object with a list and a truth value that is built, copied and read again, or `none`; at `all`
/// its own text.
pub(crate) fn add_member_of_copy(alloc: Global, key: &str, found: &mut Found) {
    match built(alloc) {
        Ok(tree) if !is_kept(alloc, &tree) => found.text("a copy differs"),
        Ok(tree) if key == "all" => add_tree(alloc, &tree, found),
        Ok(tree) => add_member(alloc, &tree, key, found),
        Err(_) => found.lack_memory(),
    }
}

fn add_member(alloc: Global, tree: &Tree, key: &str, found: &mut Found) {
    match tree.get(key) {
        Some(member) => add_tree(alloc, member, found),
        None => found.text("none"),
    }
}

// Whether a tree is copied and read again as the same.
fn is_kept(alloc: Global, tree: &Tree) -> bool
    requires { depth (json_of tree.now) ≤ max_depth }
{
    let copy: Result<Tree, AllocError> = tree.clone();
    let again = reread(alloc, tree);
    match (&copy, &again) {
        (Ok(copy), Ok(again)) => copy == tree && again == tree,
        _ => false,
    }
}

fn built(alloc: Global) -> Result<Tree, AllocError>
    ensures { IfOk result (λ t. depth (json_of t) ≤ max_depth) }
{
    let mut items = Items::new(alloc);
    items.push(Tree::Whole(-7))?;
    items.push(Tree::Odd)?;
    let mut members = Members::new(alloc);
    members.push(Text::new(alloc, "a")?, Tree::List(items))?;
    members.push(Text::new(alloc, "b")?, Tree::Truth(true))?;
    Ok(Tree::Object(members))
}
