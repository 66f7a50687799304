// The value that is served of a feature.
ghost use Rattle.std.specs.Prelude.{◌≡◌, map, IfOk};
ghost use Rattle.enrol_states.specs.Order.{Rise};
ghost use Rattle.enrol_states.specs.State.{slugs_of};
ghost use Rattle.fml_types.specs.Sound.{IsSoundTable, IsGrounded, AreSoundFields, HasSoundTypes};
ghost use Rattle.fml_value.specs.TypedOf.{typed_of};
ghost use Rattle.fml_merge.specs.Features.{IsOfFeature};
ghost use Rattle.json_tree.specs.Tree.{json_of};
ghost use Rattle.feature_serving.specs.Lent.{view};
ghost use Rattle.feature_serving.specs.Serving.{GivesServed, HasFeatureType, layers_laid, served};
ghost use Rattle.feature_serving.specs.declared.serving.ServeFault.TheVariants.{OutOfMemory};

use crate::layers::{Layer, layers};
use enrol_states::State;
use fml_merge::{default_of, overlay_each};
use fml_types::{FeatureDefinition, Manifest};
use fml_value::Value;
use json_tree::Tree;
use std::alloc::{AllocError, Global};

/// Why `served` gives no value.
#[derive(Clone, Copy, Debug, PartialEq, Eq)]
pub enum ServeFault {
    /// The manifest has no such feature.
    UnknownFeature,
    OutOfMemory,
}

impl From<AllocError> for ServeFault {
    ghost from_gives = { λ _ e. e ≡ OutOfMemory };

    fn from(_e: AllocError) -> ServeFault {
        ServeFault::OutOfMemory
    }
}

/// What the client is served of the feature: its default for the manifest's channel, over which is
/// laid what the branches set of it that the client is enrolled in, of rollouts first and then of
/// experiments. Those of one kind are laid by the moment at which their recipes were published, an
/// absent one first, and then by slug, so that the last one has the last word. A field whose type
/// doesn't take what is laid keeps its value.
///
/// `UnknownFeature` comes exactly where the manifest has no such feature.
pub fn served(
    alloc: Global,
    manifest: &Manifest,
    state: &State,
    feature: &str,
) -> Result<Value, ServeFault>
    requires sound { HasSoundTypes manifest.now }
    requires rows { Rise (slugs_of state.now.rows) }
    ensures answer { GivesServed result (served manifest.now state.now feature.now) }
    ensures has_type { IfOk result (λ v. HasFeatureType manifest.now feature.now (typed_of v)) }
{
    let Some(definition) = manifest.features.get(feature) else {
        return Err(ServeFault::UnknownFeature);
    };
    let layers = layers(alloc, state, feature)?;
    let value = default_of(alloc, manifest, definition)?;
    let value = lay(alloc, manifest, definition, value, layers.as_slice())?;
    Ok(value)
}

/// The layers laid over a value of the feature, one after the other.
fn lay(
    alloc: Global,
    manifest: &Manifest,
    feature: &FeatureDefinition,
    value: Value,
    layers: &[Layer],
) -> Result<Value, AllocError>
    ensures value { IfOk result (λ v. typed_of v ≡ layers_laid manifest.now feature.now (typed_of value) (map view layers.now)) }
    ensures typed { IfOk result (λ v. IsSoundTable manifest.now.types → IsGrounded manifest.now.types → AreSoundFields manifest.now.types feature.now.variables → IsOfFeature manifest.now feature.now (typed_of value) → IsOfFeature manifest.now feature.now (typed_of v)) }
{
    let patches = patches(alloc, layers)?;
    overlay_each(alloc, manifest, feature, value, patches.as_slice())
}

/// What the layers lay, in order.
fn patches<'a>(alloc: Global, layers: &[Layer<'a>]) -> Result<Vec<&'a Tree>, AllocError>
    ensures { IfOk result (λ ts. map (λ t. json_of t.now) ts.items ≡ map (λ l. json_of l.value.now) layers.now) }
{
    let mut patches = Vec::new(alloc);
    for layer in layers {
        patches.push(layer.value)?;
    }
    Ok(patches)
}
