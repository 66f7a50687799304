// The language and the region of a locale.
ghost use Rattle.std.specs.Prelude.{◌≡◌, option_map};
ghost use Rattle.app_context.specs.Locales.{language_of, region_of};

/// What stands before the first `-` of a locale, all of it where there is none, and what stands
/// after it. It takes no memory.
pub(crate) fn parts_of(locale: &str) -> (&str, Option<&str>)
    ensures language { result.0.now ≡ language_of locale.now }
    ensures region { option_map (λ r. r.now) result.1 ≡ region_of locale.now }
{
    match locale.split_once('-') {
        Some((language, region)) => (language, Some(region)),
        None => (locale, None),
    }
}
