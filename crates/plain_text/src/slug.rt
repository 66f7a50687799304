// Slugs: the short names of experiments, branches and features.
ghost use Rattle.std.specs.Prelude.{◌≡◌, ◌↔◌, ℕ, None, Some, Err, IfOk, not, position, take, bytes_eq, refl};
ghost use Rattle.std.specs.Ordering.{nat_cmp};
ghost use Rattle.std.specs.Cmp.{partial_equiv_from_equiv};
ghost use Rattle.std.specs.Cmp.Lexicographic.{slice_cmp, nat_list_eq_equiv, nat_list_cmp_total, texts_po, texts_ties};
ghost use Rattle.plain_text.specs.Names.{is_slug_byte, bad_place};

use sequences::{ExactClone, Text};
use std::alloc::{AllocError, Global};
use std::cmp::Ordering;
use std::marker::Model;
use std::rc::Rc;
use std::str;

const MAX_LEN: usize = 80;

/// 1 to 80 bytes of `a` to `z`, `0` to `9`, `-` and `_`. Contracts see it as its bytes. A clone
/// shares the text.
#[derive(Drop)]
pub struct Slug {
    text: Rc<Text>,
}

impl Model for Slug {
    ghost use Rattle.std.specs.Prelude.{◌≡◌, ℕ, List, None};
    ghost use Rattle.plain_text.specs.Names.{bad_place};

    ghost Value = { List ℕ };

    ghost view = { λ s. s.text.value };

    ghost invariant = { λ s. bad_place s.text.value ≡ None };
}

/// Why `slug_of` gives no slug.
#[derive(Clone, Copy, Debug, PartialEq, Eq)]
pub enum SlugFault {
    /// The bytes are no slug, and fail at this place: the first of the first 80 bytes that no
    /// slug has, or 80 where there are more, or 0 where there are none.
    BadSlug(usize),
    OutOfMemory,
}

impl Slug {
    /// The text. It takes no memory.
    pub fn text(&self) -> &str
        ensures text { result.now ≡ self.now }
        ensures slug { bad_place self.now ≡ None }
    {
        self.text.as_str()
    }
}

/// The slug that the bytes are.
pub fn slug_of(alloc: Global, bytes: &[u8]) -> Result<Slug, SlugFault>
    ensures ok { IfOk result (λ s. s ≡ bytes.now) }
    ensures slug { IfOk result (λ _. bad_place bytes.now ≡ None) }
    ensures bad { (n : ℕ) → (result ≡ Err (SlugFault.BadSlug n)) ↔ (bad_place bytes.now ≡ Some n) }
{
    if let Some(place) = bad_place(bytes) {
        return Err(SlugFault::BadSlug(place));
    }
    let Ok(text) = str::from_utf8(bytes) else {
        unreachable!();
    };
    match shared(alloc, text) {
        Ok(text) => Ok(Slug { text }),
        Err(_) => Err(SlugFault::OutOfMemory),
    }
}

/// A text that slugs can share.
fn shared(alloc: Global, text: &str) -> Result<Rc<Text>, AllocError>
    ensures { IfOk result (λ t. t.value ≡ text.now) }
{
    Ok(Rc::new(alloc, Text::new(alloc, text)?)?)
}

/// Where the bytes fail to be a slug.
fn bad_place(bytes: &[u8]) -> Option<usize>
    ensures { result ≡ bad_place bytes.now }
{
    if bytes.is_empty() {
        return Some(0);
    }
    if let Some(place) = first_bad(bytes) {
        return Some(place);
    }
    if bytes.len() > MAX_LEN {
        return Some(MAX_LEN);
    }
    None
}

/// The first of the first 80 bytes that no slug has.
fn first_bad(bytes: &[u8]) -> Option<usize>
    ensures { result ≡ position (λ x. not (is_slug_byte x)) (take 80 bytes.now) }
{
    bytes
        .iter()
        .take(MAX_LEN)
        .position(|byte| !is_slug_byte(*byte))
}

fn is_slug_byte(byte: u8) -> bool
    ensures { result ≡ is_slug_byte byte }
{
    byte.is_ascii_lowercase() || byte.is_ascii_digit() || byte == b'-' || byte == b'_'
}

/// The same text with one more owner. It takes no memory.
impl Clone for Slug {
    ghost is_clone = { λ s t. t ≡ s };

    fn clone(&self) -> Result<Slug, AllocError> {
        Ok(Slug {
            text: self.text.clone()?,
        })
    }
}

impl PartialEq for Slug {
    ghost eq = { λ a b. bytes_eq a b };

    ghost laws = { partial_equiv_from_equiv nat_list_eq_equiv };

    fn eq(&self, other: &Slug) -> bool {
        self.text == other.text
    }
}

impl Eq for Slug {
    ghost laws = { nat_list_eq_equiv };
}

impl PartialOrd for Slug {
    ghost partial_cmp = { λ a b. Some (slice_cmp nat_cmp a b) };

    ghost laws = { texts_po };

    fn partial_cmp(&self, other: &Slug) -> Option<Ordering> {
        Some(self.cmp(other))
    }
}

/// Slugs are in order by their bytes.
impl Ord for Slug {
    ghost cmp = { λ a b. slice_cmp nat_cmp a b };

    ghost total = { nat_list_cmp_total };

    ghost matches_partial_cmp = { λ a b. refl };

    ghost matches_eq = { texts_ties };

    fn cmp(&self, other: &Slug) -> Ordering {
        self.text.cmp(&other.text)
    }
}

impl ExactClone for Slug {
    ghost exact = { λ s t same. same };
}
