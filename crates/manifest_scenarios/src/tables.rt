//! Tables of objects, and how high and how heavy objects are.
use crate::trees::{tree_of, type_of};
use crate::values::find_of_type;
use fml_types::{
    ByName, EnumDefinition, Field, GroundFault, ObjectDefinition, Text, TypeTable, Ungrounded,
    grounded,
};
use json_tree::Tree;
use row_tables::{Fault, Found, cut, number};
use std::alloc::{AllocError, Global};

// A table without types.
fn empty_table(alloc: Global) -> TypeTable {
    TypeTable {
        enums: ByName::new(alloc),
        objects: ByName::new(alloc),
    }
}

// Adds the objects that the lines are, and the enum `Side` of `left` and `right`.
fn read_table(alloc: Global, rows: &str, types: &mut TypeTable) -> Result<(), Fault> {
    add_side(alloc, &mut types.enums)?;
    read_objects(alloc, rows, &mut types.objects)
}

fn add_side(alloc: Global, enums: &mut ByName<EnumDefinition>) -> Result<(), AllocError> {
    let mut variants = ByName::new(alloc);
    add_variant(alloc, "right", &mut variants)?;
    add_variant(alloc, "left", &mut variants)?;
    enums.insert(Text::new(alloc, "Side")?, EnumDefinition { variants })?;
    Ok(())
}

fn add_variant(alloc: Global, name: &str, variants: &mut ByName<()>) -> Result<(), AllocError> {
    variants.insert(Text::new(alloc, name)?, ())?;
    Ok(())
}

// The fields of one object stand one after the other.
fn read_objects(
    alloc: Global,
    rows: &str,
    objects: &mut ByName<ObjectDefinition>,
) -> Result<(), Fault> {
    let mut name = String::new(alloc);
    let mut fields = ByName::new(alloc);
    let outcome = read_rows(alloc, rows, objects, &mut name, &mut fields);
    drop(fields);
    outcome
}

// The object whose fields come now has this name, and these fields are read. Before the first it has no name.
fn read_rows(
    alloc: Global,
    rows: &str,
    objects: &mut ByName<ObjectDefinition>,
    name: &mut String,
    fields: &mut ByName<Field>,
) -> Result<(), Fault> {
    for row in rows.lines() {
        read_row(alloc, row, objects, name, fields)?;
    }
    Ok(close(alloc, objects, name, fields)?)
}

fn read_row(
    alloc: Global,
    row: &str,
    objects: &mut ByName<ObjectDefinition>,
    name: &mut String,
    fields: &mut ByName<Field>,
) -> Result<(), Fault> {
    let (owner, rest) = row.split_once('/').ok_or(Fault::NoRow)?;
    if name.as_str() != owner {
        close(alloc, objects, name, fields)?;
        name.clear();
        name.push_str(owner)?;
    }
    add_field(alloc, rest, fields)
}

// The object has the fields that are read, and there are none then.
fn close(
    alloc: Global,
    objects: &mut ByName<ObjectDefinition>,
    name: &str,
    fields: &mut ByName<Field>,
) -> Result<(), AllocError> {
    if name.is_empty() {
        return Ok(());
    }
    let name = Text::new(alloc, name)?;
    let fields = std::mem::replace(fields, ByName::new(alloc));
    objects.insert(name, ObjectDefinition { fields })?;
    Ok(())
}

// Adds the field that `FIELD/TYPE/DEFAULT` is.
fn add_field(alloc: Global, row: &str, fields: &mut ByName<Field>) -> Result<(), Fault> {
    let (name, rest) = row.split_once('/').ok_or(Fault::NoRow)?;
    let (of, default) = rest.split_once('/').ok_or(Fault::NoRow)?;
    let field = field_of(alloc, of, default)?;
    fields.insert(Text::new(alloc, name)?, field)?;
    Ok(())
}

fn field_of(alloc: Global, of: &str, default: &str) -> Result<Field, Fault> {
    let field_type = type_of(alloc, of)?;
    Ok(Field {
        field_type,
        default: default_of(alloc, default)?,
    })
}

// The default of a text, which is none where nothing stands there.
fn default_of(alloc: Global, text: &str) -> Result<Option<Tree>, Fault> {
    if text.is_empty() {
        return Ok(None);
    }
    Ok(Some(tree_of(alloc, text.as_bytes())?))
}

/// What is found of a row on the table of these lines.
pub(crate) fn find_by_table(
    alloc: Global,
    rows: &str,
    kind: &str,
    rest: &str,
    found: &mut Found,
) -> Result<(), Fault> {
    let mut types = empty_table(alloc);
    match read_table(alloc, rows, &mut types) {
        Ok(()) => find_in_table(alloc, &types, kind, rest, found),
        Err(fault) => Err(fault),
    }
}

fn find_in_table(
    alloc: Global,
    types: &TypeTable,
    kind: &str,
    rest: &str,
    found: &mut Found,
) -> Result<(), Fault> {
    if kind == "grounded" {
        return Ok(add_grounding(alloc, types, found));
    }
    let (of, text) = rest.split_once(": ").ok_or(Fault::NoRow)?;
    let of = type_of(alloc, of)?;
    find_of_type(alloc, types, &of, kind, text, found)
}

// Adds `ok`, or what a table is refused for.
fn add_grounding(alloc: Global, types: &TypeTable, found: &mut Found) {
    match grounded(alloc, types) {
        Ok(()) => found.text("ok"),
        Err(fault) => add_fault(&fault, found),
    }
}

fn add_fault(fault: &GroundFault, found: &mut Found) {
    match fault {
        GroundFault::Refused(Ungrounded::EndlessObject(name)) => {
            found.texts(&["endless ", name.as_str()])
        }
        GroundFault::Refused(Ungrounded::ObjectTooLarge(name)) => {
            found.texts(&["large ", name.as_str()])
        }
        GroundFault::OutOfMemory => found.lack_memory(),
    }
}

// ---- heights and weights

/// Whether an object has this height, of which 33 stands for each that is too high. Row: the name, and the height.
///
/// A tower stands on such an object, 10, so 11 is one higher, and so on up to 42. The first that is too high, above 32, tells
/// the height.
pub(crate) fn find_height(
    alloc: Global,
    rows: &str,
    words: &str,
    found: &mut Found,
) -> Result<(), Fault> {
    let (name, height) = cut(words);
    let height = number(height).ok_or(Fault::NoRow)?;
    let mut tower = Found::new(alloc);
    add_tower(rows, name, &mut tower);
    let mut wanted = Found::new(alloc);
    wanted.text("endless ");
    wanted.displayed(&43u64.saturating_sub(height));
    find_whether(alloc, tower.as_str(), wanted.as_str(), found)
}

// Whether a table is refused for what is wanted.
fn find_whether(alloc: Global, rows: &str, wanted: &str, found: &mut Found) -> Result<(), Fault> {
    find_by_table(alloc, rows, "grounded", "", found)?;
    if found.as_str() == wanted {
        found.clear();
        found.text("yes");
    }
    Ok(())
}

// Adds the rows of a table, and before them those of a tower on a copy of an object.
fn add_tower(rows: &str, name: &str, tower: &mut Found) {
    add_copy(tower, rows, name);
    for place in 10..42u64 {
        add_floor(tower, place);
    }
    tower.text(rows)
}

// Adds an object that needs the one of this number.
fn add_floor(tower: &mut Found, place: u64) {
    tower.displayed(&place.saturating_add(1));
    tower.text("/f/");
    tower.displayed(&place);
    tower.text("/\n")
}

// Adds the rows of an object as those of the object 10.
fn add_copy(tower: &mut Found, rows: &str, name: &str) {
    for row in rows.lines() {
        let (owner, field) = row.split_once('/').unwrap_or(("", ""));
        if owner == name {
            tower.texts(&["10/", field, "\n"]);
        }
    }
}

/// Whether an object has this weight. Row: the name, and the weight.
///
/// Beside it stand 1, which needs it and weighs 16,384 then, and 2, which weighs one more, and that is too much.
pub(crate) fn find_weight(
    alloc: Global,
    rows: &str,
    words: &str,
    found: &mut Found,
) -> Result<(), Fault> {
    let (name, weight) = cut(words);
    let length = 16_292u64.saturating_sub(number(weight).ok_or(Fault::NoRow)?);
    let mut heavy = Found::new(alloc);
    add_named(&mut heavy, "1", length, name);
    add_named(&mut heavy, "2", length.saturating_add(1), name);
    heavy.text(rows);
    find_whether(alloc, heavy.as_str(), "large 2", found)
}

// Adds an object that needs this one, by a field whose name has so many bytes. It weighs 92 more than these and the one that
// it needs.
fn add_named(rows: &mut Found, name: &str, length: u64, needed: &str) {
    rows.texts(&[name, "/"]);
    for _ in 0..length {
        rows.text("x");
    }
    rows.texts(&["/", needed, "/\n"])
}
