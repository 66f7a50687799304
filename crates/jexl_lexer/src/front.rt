// What stands at the front of a text, and what kinds of bytes there are.
ghost use Rattle.std.specs.Prelude.{◌≡◌, ◌<◌, ◌++◌, [], ◌∷◌, length, IfSome, MatchOption, encode_utf8, not, position};
ghost use Rattle.sequences.specs.Runs.{run};
ghost use Rattle.jexl_lexer.specs.Classes.{in_class};
ghost use Rattle.jexl_lexer.specs.Lexing.{is_start, is_quote};
ghost use Rattle.jexl_lexer.specs.Scanning.{NoAsciiFront};

/// A class of ASCII bytes that runs are made of.
#[derive(Clone, Copy)]
pub enum ByteClass {
    /// A space, a tab and the bytes of a line end.
    Blank,
    Digit,
    /// What may stand in a name after its first byte.
    Word,
}

impl ByteClass {
    /// Whether the byte is of the class.
    fn contains(self, byte: u8) -> bool
        ensures { result ≡ in_class self byte }
    {
        match self {
            ByteClass::Blank => byte == b' ' || byte == b'\t' || byte == b'\n' || byte == b'\r',
            ByteClass::Digit => byte.is_ascii_digit(),
            ByteClass::Word => is_start(byte) || byte.is_ascii_digit(),
        }
    }
}

/// The longest run of bytes of the class at the front, and the text after it.
#[tactic(auto, using(crate::proofs::Runs::run_boundary, crate::proofs::Runs::run_cut))]
pub fn split_run(text: &str, class: ByteClass) -> (&str, &str)
    ensures { (result.0.now, result.1.now) ≡ run (in_class class) text.now }
{
    let end = first_other(text.as_bytes(), class).unwrap_or(text.len());
    text.split_at(end)
}

/// The place of the first byte that isn't of the class.
fn first_other(bytes: &[u8], class: ByteClass) -> Option<usize>
    ensures { result ≡ position (λ b. not (in_class class b)) bytes.now }
{
    bytes.iter().position(|byte| !class.contains(*byte))
}

/// The first character, and the text after it.
#[tactic(auto, using(std::proofs::lemmas::List::nil_from_length, crate::proofs::Bytes::shorter))]
pub fn first_char(text: &str) -> Option<(char, &str)>
    ensures found { MatchOption result (text.now ≡ []) (λ x. text.now ≡ encode_utf8 x.0 ++ x.1.now) }
    ensures short { IfSome result (λ x. length x.1.now < length text.now) }
{
    let mut chars = text.chars();
    match chars.next() {
        None => None,
        Some(c) => Some((c, chars.as_str())),
    }
}

/// The first byte if it is ASCII, and the text after it.
#[tactic(auto, using(crate::proofs::Bytes::big_front, crate::proofs::Bytes::small_front))]
pub fn first_ascii(text: &str) -> Option<(u8, &str)>
    ensures found { MatchOption result (NoAsciiFront text.now) (λ x. text.now ≡ x.0 ∷ x.1.now) }
    ensures ascii { IfSome result (λ x. x.0 < 128) }
{
    match first_char(text) {
        None => None,
        Some((c, rest)) => {
            if c.is_ascii() {
                Some((c as u8, rest))
            } else {
                None
            }
        }
    }
}

/// Whether the byte is a letter, `_` or `$`.
pub fn is_start(b: u8) -> bool
    ensures { result ≡ is_start b }
{
    b.is_ascii_alphabetic() || b == b'_' || b == b'$'
}

/// Whether the byte is one of the two quotes.
pub fn is_quote(b: u8) -> bool
    ensures { result ≡ is_quote b }
{
    b == b'\'' || b == b'"'
}
