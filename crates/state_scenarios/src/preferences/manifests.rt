//! Manifests of features. Each has the enum `Kind`, whose one variant is `k`.
use fml_types::{
    ByName, EnumDefinition, FeatureDefinition, Field, FieldType, Manifest, TypeTable, read_type,
};
use row_tables::{Fault, cut};
use sequences::{Sequence, Text};
use std::alloc::{AllocError, Global};

/// A manifest with no features and no enum.
pub(crate) fn no_features(alloc: Global) -> Manifest {
    Manifest {
        types: TypeTable {
            enums: ByName::new(alloc),
            objects: ByName::new(alloc),
        },
        features: ByName::new(alloc),
        channel: Text::from_string(String::new(alloc)),
    }
}

/// Adds the enum, and features, each of which is a name, a colon and its variables; a semicolon stands between two.
pub(crate) fn add_features(
    alloc: Global,
    text: &str,
    manifest: &mut Manifest,
) -> Result<(), Fault> {
    add_kind(alloc, &mut manifest.types.enums)?;
    for feature in text.split("; ") {
        let (name, variables) = feature.split_once(": ").ok_or(Fault::NoRow)?;
        add_feature(alloc, name, variables, &mut manifest.features)?;
    }
    Ok(())
}

fn add_kind(alloc: Global, enums: &mut ByName<EnumDefinition>) -> Result<(), AllocError> {
    let variants = kind_variants(alloc)?;
    let name = Text::new(alloc, "Kind")?;
    enums.insert(name, EnumDefinition { variants })?;
    Ok(())
}

fn kind_variants(alloc: Global) -> Result<ByName<()>, AllocError> {
    let mut variants = ByName::new(alloc);
    variants.insert(Text::new(alloc, "k")?, ())?;
    Ok(variants)
}

fn add_feature(
    alloc: Global,
    name: &str,
    variables: &str,
    features: &mut ByName<FeatureDefinition>,
) -> Result<(), Fault> {
    let variables = variables_of(alloc, variables)?;
    let name = Text::new(alloc, name)?;
    insert_feature(alloc, name, variables, features)
}

fn insert_feature(
    alloc: Global,
    name: Text,
    variables: ByName<Field>,
    features: &mut ByName<FeatureDefinition>,
) -> Result<(), Fault> {
    let definition = FeatureDefinition {
        variables,
        defaults: Sequence::new(alloc),
        allows_coenrollment: false,
    };
    let is_new = features.insert(name, definition)?;
    is_new.then_some(()).ok_or(Fault::NoRow)
}

// Variables, each of which is a name and its type; a comma stands between two.
fn variables_of(alloc: Global, text: &str) -> Result<ByName<Field>, Fault> {
    let mut variables = ByName::new(alloc);
    add_variables(alloc, text, &mut variables)?;
    Ok(variables)
}

fn add_variables(alloc: Global, text: &str, variables: &mut ByName<Field>) -> Result<(), Fault> {
    for variable in text.split(", ") {
        let (name, spelled) = cut(variable);
        add_variable(alloc, name, spelled, variables)?;
    }
    Ok(())
}

fn add_variable(
    alloc: Global,
    name: &str,
    spelled: &str,
    variables: &mut ByName<Field>,
) -> Result<(), Fault> {
    let field_type = type_of(alloc, spelled)?;
    let name = Text::new(alloc, name)?;
    insert_variable(name, field_type, variables)
}

fn insert_variable(
    name: Text,
    field_type: FieldType,
    variables: &mut ByName<Field>,
) -> Result<(), Fault> {
    let field = Field {
        field_type,
        default: None,
    };
    let is_new = variables.insert(name, field)?;
    is_new.then_some(()).ok_or(Fault::NoRow)
}

fn type_of(alloc: Global, text: &str) -> Result<FieldType, Fault> {
    match read_type(alloc, text) {
        Ok(field_type) => Ok(field_type),
        Err(_) => Err(Fault::NoRow),
    }
}
