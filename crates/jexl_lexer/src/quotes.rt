// Texts in quotes.
ghost use Rattle.std.specs.Prelude.{◌≡◌, ◌<◌, ◌≤◌, [], None, Some, false, length, IfOk, IfSome, MatchOption, encode_utf8, option_map};
ghost use Rattle.sequences.specs.Runs.{run};
ghost use Rattle.jexl_lexer.specs.Scanning.{inside, is_plain, with_bytes};

use crate::front::first_char;
use memchr::memchr2;
use sequences::Text;
use std::alloc::{AllocError, Global};

/// The character that stands first in quotes, and the text after it; no character at the closing quote.
/// A backslash gives the character after it.
#[tactic(auto, using(crate::proofs::Quoting::inside_end, crate::proofs::Quoting::inside_close, crate::proofs::Quoting::inside_plain, crate::proofs::Quoting::inside_escaped, crate::proofs::Quoting::inside_cut))]
fn quoted_char(quote: u8, text: &str) -> Option<(Option<char>, &str)>
    requires { quote < 92 }
    ensures found { MatchOption result (inside quote false text.now ≡ None) (λ x. MatchOption x.0 (inside quote false text.now ≡ Some ([], x.1.now)) (λ c. inside quote false text.now ≡ option_map (with_bytes (encode_utf8 c)) (inside quote false x.1.now))) }
    ensures short { IfSome result (λ x. length x.1.now < length text.now) }
{
    match first_char(text) {
        None => None,
        Some((c, rest)) => {
            if c as u32 == u32::from(quote) {
                return Some((None, rest));
            }
            if c == '\\' {
                match first_char(rest) {
                    None => None,
                    Some((d, after)) => Some((Some(d), after)),
                }
            } else {
                Some((Some(c), rest))
            }
        }
    }
}

/// What stands before the first quote or backslash, and the text from there on.
fn split_plain(quote: u8, text: &str) -> (&str, &str)
    requires { quote < 92 }
    ensures cut { (result.0.now, result.1.now) ≡ run (is_plain quote) text.now }
    ensures short { length result.1.now ≤ length text.now }
{
    let end = memchr2(quote, b'\\', text.as_bytes()).unwrap_or(text.len());
    text.split_at(end)
}

/// The text up to the closing quote without its backslashes, and the text after it.
#[tactic(auto, using(crate::proofs::Quoting::gather_end, crate::proofs::Quoting::gather_close))]
pub fn quoted_text(alloc: Global, quote: u8, text: &str) -> Result<Option<(Text, &str)>, AllocError>
    requires { quote < 92 }
    ensures { IfOk result (λ o. option_map (λ x. (x.0, x.1.now)) o ≡ inside quote false text.now) }
{
    let mut inner = String::new(alloc);
    let (plain, mut rest) = split_plain(quote, text);
    inner.push_str(plain)?;
    while let Some((found, after)) = quoted_char(quote, rest) {
        match found {
            None => return Ok(Some((Text::from_string(inner), after))),
            Some(c) => {
                let (plain, next) = split_plain(quote, after);
                inner.push(c)?;
                inner.push_str(plain)?;
                rest = next;
            }
        }
    }
    Ok(None)
}
