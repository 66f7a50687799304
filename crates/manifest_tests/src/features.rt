//! Features that are put in by hand.
use fml_types::{ByName, FeatureDefinition, Manifest, Text, TypeTable, coenrolling_features};
use sequences::Sequence;
use std::alloc::Global;
use std::test::Fail;

fn feature(alloc: Global, allows_coenrollment: bool) -> FeatureDefinition {
    FeatureDefinition {
        variables: ByName::new(alloc),
        defaults: Sequence::new(alloc),
        allows_coenrollment,
    }
}

// `0`, `a` and `b`, of which `0` and `b` may be had by several experiments.
fn three_features(alloc: Global) -> Result<ByName<FeatureDefinition>, Fail> {
    let mut features = ByName::from_vec(Vec::new(alloc));
    features.push(Text::new(alloc, "a")?, feature(alloc, false))?;
    features.push(Text::new(alloc, "b")?, feature(alloc, true))?;
    features.insert(Text::new(alloc, "0")?, feature(alloc, true))?;
    Ok(features)
}

#[test]
fn a_name_stands_once(rt: HostRuntime) -> Result<(), Fail> {
    let alloc = rt.alloc();
    let mut features = three_features(alloc)?;
    assert_eq!(rt;
        features.insert(Text::new(alloc, "b")?, feature(alloc, false))?,
        false
    );
    assert_eq!(rt;
        features.insert(Text::new(alloc, "c")?, feature(alloc, false))?,
        true
    );
    assert_eq!(rt; features.place("b"), Some(2));
    assert_eq!(rt; features.get("d").is_none(), true);
    Ok(())
}

#[test]
fn coenrolment(rt: HostRuntime) -> Result<(), Fail> {
    let alloc = rt.alloc();
    let manifest = Manifest {
        types: TypeTable {
            enums: ByName::new(alloc),
            objects: ByName::new(alloc),
        },
        features: three_features(alloc)?,
        channel: Text::new(alloc, "nightly")?,
    };
    let names = coenrolling_features(alloc, &manifest)?;
    let [first, second] = names.as_slice() else {
        return Err(Fail::new("there are other names"));
    };
    assert_eq!(rt; first.as_str(), "0");
    assert_eq!(rt; second.as_str(), "b");
    Ok(())
}
