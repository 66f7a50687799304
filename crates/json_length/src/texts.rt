// The lengths of texts.
ghost use Rattle.std.specs.Prelude.{◌≡◌, ◌≤◌, ◌+◌, ◌*◌, nat_lt, length, false};
ghost use Rattle.std.specs.Bool.{OnTrue};
ghost use Rattle.json.specs.Print.{escape, escape_byte, escape_letter};
ghost use Rattle.json.specs.Run.{is_plain};
ghost use Rattle.json_tree.specs.Json as value;
ghost use Rattle.json_tree.specs.Bytes.{text_of};

/// How many bytes the text has as a JSON string (RFC 8259): its quotes, two bytes for each quote,
/// backslash, backspace, tab, line feed, form feed and carriage return, six for each other control
/// character, and one for each other byte.
pub fn text_length(text: &str) -> u128
    ensures length { result ≡ length (text_of (value.text text.now)) }
    ensures bound { result ≤ 2 + 6 * length text.now }
{
    let bytes = text.as_bytes();
    let length = 2 + bytes.len() as u128;
    if are_plain(bytes) {
        length
    } else {
        length + added_length(bytes)
    }
}

/// Whether each byte stands for itself in a JSON string. No step depends on what the bytes are, so
/// many of them are compared at once.
fn are_plain(bytes: &[u8]) -> bool
    ensures { OnTrue result (length (escape bytes.now) ≡ length bytes.now) }
{
    let mut plain = true;
    for byte in bytes {
        plain &= is_plain(*byte);
    }
    plain
}

/// How many bytes more than the bytes themselves stand for them in a JSON string.
fn added_length(bytes: &[u8]) -> u128
    ensures length { result + length bytes.now ≡ length (escape bytes.now) }
    ensures bound { result ≤ 5 * length bytes.now }
{
    let mut added: u128 = 0;
    for byte in bytes {
        if !is_plain(*byte) {
            added += added_for(*byte);
        }
    }
    added
}

/// How many bytes more than the byte itself stand for one that isn't plain.
#[tactic(auto, unfolding(json::specs::Print::escape_byte))]
fn added_for(byte: u8) -> u128
    requires { is_plain byte ≡ false }
    ensures length { result + 1 ≡ length (escape_byte byte) }
    ensures bound { result ≤ 5 }
{
    if has_letter(byte) { 1 } else { 5 }
}

/// Whether the byte stands for itself in a JSON string.
fn is_plain(byte: u8) -> bool
    ensures { result ≡ is_plain byte }
{
    byte >= 32 && byte != b'"' && byte != b'\\'
}

/// Whether a letter stands for the byte behind a backslash.
fn has_letter(byte: u8) -> bool
    ensures { result ≡ nat_lt 0 (escape_letter byte) }
{
    byte == b'"'
        || byte == b'\\'
        || byte == 8
        || byte == 12
        || byte == b'\n'
        || byte == b'\r'
        || byte == b'\t'
}
