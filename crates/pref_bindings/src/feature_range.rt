// The bindings of a feature, looked up among those in order.
ghost use Rattle.std.specs.Prelude.{◌≡◌, not};
ghost use Rattle.std.specs.List.{filter};
ghost use Rattle.std.specs.Ordering.{is_lt};
ghost use Rattle.recipe_reader.specs.Payloads.{slug_cmp};
ghost use Rattle.pref_bindings.specs.Bindings.{AreByVariable, of_feature};

use crate::bindings::Binding;

/// The bindings of a feature, which stand beside one another, by two binary searches. It takes no memory.
pub(crate) fn of_feature<'a>(feature: &str, bindings: &'a [Binding]) -> &'a [Binding]
    requires { AreByVariable bindings.now }
    ensures { result.now ≡ of_feature feature.now bindings.now }
{
    let rest = not_below(feature, bindings);
    let count = rest.partition_point(|binding| binding.feature.as_str() == feature);
    &rest[..count]
}

// The bindings whose feature isn't below this one.
fn not_below<'a>(feature: &str, bindings: &'a [Binding]) -> &'a [Binding]
    requires { AreByVariable bindings.now }
    ensures rest { result.now ≡ filter (λ b. not (is_lt (slug_cmp b.feature feature.now))) bindings.now }
    ensures order { AreByVariable result.now }
{
    let start = bindings.partition_point(|binding| binding.feature.as_str().cmp(feature).is_lt());
    &bindings[start..]
}
