// Sets of texts.
ghost use Rattle.std.specs.Prelude.{◌≡◌, ℕ, List, IfOk};
ghost use Rattle.enrol_states.specs.Order.{is_in};
ghost use Rattle.enrol_states.specs.TextSets.{has_text};

use sequences::Text;
use std::alloc::{AllocError, Global};
use std::collections::BTreeSet;

/// The names as a set.
pub(crate) fn set_of<'a>(alloc: Global, names: &'a [Text]) -> Result<BTreeSet<&'a str>, AllocError>
    ensures { IfOk result (λ set. (f : List ℕ) → has_text set f ≡ is_in names.now f) }
{
    let mut set = BTreeSet::new(alloc);
    for name in names {
        set.insert(name.as_str())?;
    }
    Ok(set)
}

/// Whether the text is in the set.
pub(crate) fn has_text<'a>(texts: &BTreeSet<&'a str>, text: &'a str) -> bool
    ensures { result ≡ has_text texts.now text.now }
{
    texts.contains(&text)
}
