//! What stands at the front of some bytes.

ghost use Rattle.std.specs.Prelude.{◌≡◌, ◌<◌, ◌≤◌, ◌-◌, [], ◌∷◌, length, take, IfSome, MatchOption, option_copied};
ghost use Rattle.sequences.specs.Runs.{run};
ghost use Rattle.version_compare.specs.Bytes.{is_no_dot, is_string_byte};
ghost use Rattle.version_compare.specs.Versions.{is_plus_in_front, is_star, string_of};

/// The first byte, and the bytes after it.
pub fn first_of(bytes: &[u8]) -> Option<(u8, &[u8])>
    ensures found { MatchOption result (bytes.now ≡ []) (λ x. bytes.now ≡ x.0 ∷ x.1.now) }
    ensures shorter { IfSome result (λ x. length x.1.now < length bytes.now) }
{
    match bytes {
        [] => None,
        [first, rest @ ..] => Some((*first, rest)),
    }
}

/// The bytes in front of `rest`, where `rest` is the end of `bytes`.
pub fn before<'a>(bytes: &'a [u8], rest: &[u8]) -> &'a [u8]
    requires { length rest.now ≤ length bytes.now }
    ensures { result.now ≡ take (length bytes.now - length rest.now) bytes.now }
{
    &bytes[..bytes.len() - rest.len()]
}

fn is_string_byte(b: u8) -> bool
    ensures { result ≡ is_string_byte b }
{
    !b.is_ascii_digit() && b != b'+' && b != b'-'
}

/// The bytes after the string in front, which ends at a digit, a `+` or a `-`.
pub fn after_string(bytes: &[u8]) -> &[u8]
    ensures { result.now ≡ (run is_string_byte bytes.now).1 }
{
    let mut rest = bytes;
    while let Some((b, after)) = first_of(rest) {
        if is_string_byte(b) {
            rest = after;
        } else {
            return rest;
        }
    }
    rest
}

/// The bytes from the first dot on.
pub fn from_dot(bytes: &[u8]) -> &[u8]
    ensures { result.now ≡ (run is_no_dot bytes.now).1 }
{
    let mut rest = bytes;
    while let Some((b, after)) = first_of(rest) {
        if b == b'.' {
            return rest;
        }
        rest = after;
    }
    rest
}

/// Whether a `+` stands in front.
pub fn has_plus_in_front(bytes: &[u8]) -> bool
    ensures { result ≡ is_plus_in_front bytes.now }
{
    match bytes {
        [] => false,
        [b, ..] => *b == b'+',
    }
}

/// Whether these bytes are one `*`.
pub fn is_star(bytes: &[u8]) -> bool
    ensures { result ≡ is_star bytes.now }
{
    match bytes {
        [b] => *b == b'*',
        _ => false,
    }
}

/// The string of these bytes, none where there are no bytes.
pub fn string_of(bytes: &[u8]) -> Option<&[u8]>
    ensures { option_copied result ≡ string_of bytes.now }
{
    match bytes {
        [] => None,
        [..] => Some(bytes),
    }
}
