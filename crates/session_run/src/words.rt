// The command line.
ghost use Rattle.std.specs.Prelude.{◌≡◌, List, ℕ, Some, map, string_bytes, decimal, IsNone, IfSome};
ghost use Rattle.session_run.specs.Words.{IsRun, IsInitOf, AreDrillNumbers, IsDrillOf, HasForm};

use plain_text::read_number;
use recipe_drill::MAX_RECIPES;
use uuid::Uuid;

/// What the words ask for.
#[derive(Clone, Copy)]
pub(crate) enum Request {
    /// A store is made, with the id of these sixteen bytes.
    Init([u8; 16]),
    /// The script is run.
    Run,
    /// The drill is done that begins at the first number and has the second number of records.
    Drill(u64, u32),
}

/// What the words ask for, or `None` where they have no form. An id is read in its four text forms (RFC 9562), and a
/// number in decimal, with no sign and no leading zero but in `0`.
pub(crate) fn read_words(words: &[String]) -> Option<Request>
    ensures none { IsNone result → ¬ HasForm (map string_bytes words.now) }
    ensures run { result ≡ Some Request.Run → IsRun (map string_bytes words.now) }
    ensures init { (id : List ℕ) → result ≡ Some (Request.Init id) → IsInitOf id (map string_bytes words.now) }
    ensures drill { (start count : ℕ) → result ≡ Some (Request.Drill start count) → IsDrillOf start count (map string_bytes words.now) }
{
    match words {
        [word] if word.as_str() == "run" => Some(Request::Run),
        [word, id] if word.as_str() == "init" => match Uuid::parse_str(id.as_str()) {
            Ok(id) => Some(Request::Init(id.into_bytes())),
            Err(_) => None,
        },
        [word, start, count] if word.as_str() == "drill" => {
            match read_drill(start.as_str(), count.as_str()) {
                Some((start, count)) => Some(Request::Drill(start, count)),
                None => None,
            }
        }
        _ => None,
    }
}

/// The two numbers of a drill, where each is within its bounds.
fn read_drill(start: &str, count: &str) -> Option<(u64, u32)>
    ensures some { IfSome result (λ numbers. (start.now ≡ decimal numbers.0) × (count.now ≡ decimal numbers.1) × AreDrillNumbers numbers.0 numbers.1) }
    ensures none { IsNone result → (m n : ℕ) → start.now ≡ decimal m → count.now ≡ decimal n → ¬ AreDrillNumbers m n }
{
    let start = read_number(start.as_bytes())?;
    let count = read_number(count.as_bytes())?;
    if count < 1 {
        return None;
    }
    if count > u64::from(MAX_RECIPES) {
        return None;
    }
    Some((start, count as u32))
}
