// The manifest of a run.
ghost use Rattle.std.specs.Prelude.{◌≡◌, IfOk, All, IsTrue};
ghost use Rattle.plain_text.specs.Names.{is_name};
ghost use Rattle.enrol_states.specs.Order.{Rise};
ghost use Rattle.fml_types.specs.Coenrolling.{coenrolling};
ghost use Rattle.fml_types.specs.Sound.{IsSoundManifest};
ghost use Rattle.client_steps.specs.Manifests.{IsLinked};

use fml_types::{Manifest, coenrolling_features};
use sequences::{Sequence, Text};
use std::alloc::{AllocError, Global};
use std::marker::Model;

/// A manifest that is linked and whose defaults fit, which is checked once, when it is set. It stands in a box. Contracts see it as
/// the manifest.
#[derive(Drop)]
pub struct LinkedManifest {
    manifest: Box<Manifest>,
}

impl Model for LinkedManifest {
    ghost use Rattle.std.specs.Coded.{codes};
    ghost use Rattle.json_tree.specs.Json.{json_code};
    ghost use Rattle.fml_types.specs.Shape.{shape_code};
    ghost use Rattle.fml_types.specs.declared.manifest.Manifest.{Manifest};
    ghost use Rattle.client_steps.specs.Manifests.{IsLinked};

    ghost Value = { Manifest };

    ghost coded = { Prim.hlevel (codes, json_code, shape_code) };

    ghost view = { λ linked. linked.manifest.value };

    ghost invariant = { λ linked. IsLinked linked.manifest.value };
}

impl LinkedManifest {
    /// A manifest that was linked and checked.
    pub(crate) fn new(alloc: Global, manifest: Manifest) -> Result<LinkedManifest, AllocError>
        requires { IsLinked manifest }
        ensures { IfOk result (λ linked. linked ≡ manifest) }
    {
        Ok(LinkedManifest {
            manifest: Box::new(alloc, manifest)?,
        })
    }

    /// The manifest. It takes no memory.
    pub fn manifest(&self) -> &Manifest
        ensures manifest { result.now ≡ self.now }
        ensures sound { IsSoundManifest result.now }
        ensures linked { IsLinked result.now }
    {
        &self.manifest
    }

    /// The names of the features that several recipes of one kind, experiments or rollouts, may set at once, in order.
    pub(crate) fn coenrolling(&self, alloc: Global) -> Result<Sequence<Text>, AllocError>
        ensures features { IfOk result (λ names. names ≡ coenrolling self.now.features) }
        ensures names { IfOk result (λ names. All (λ name. IsTrue (is_name name)) names) }
        ensures order { IfOk result Rise }
    {
        coenrolling_features(alloc, self.manifest())
    }
}
