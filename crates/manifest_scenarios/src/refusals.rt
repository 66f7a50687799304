//! What linking refuses files for.
use fml_imports::JoinRefusal;
use fml_link::LinkRefusal;
use row_tables::Found;
use sequences::Text;

/// Adds the refusal's name and what it names.
pub(crate) fn add_refusal(refusal: &LinkRefusal, found: &mut Found) {
    match refusal {
        LinkRefusal::AbsentFile(name) => add_named("AbsentFile", name, found),
        LinkRefusal::FileTooLarge(name, length) => {
            add_named("FileTooLarge", name, found);
            found.text(" ");
            found.displayed(length)
        }
        LinkRefusal::NotJson(name) => add_named("NotJson", name, found),
        LinkRefusal::BadShape(name, path) => {
            found.texts(&["BadShape ", name.as_str(), " ", path.as_str()])
        }
        LinkRefusal::TooManyFiles => found.text("TooManyFiles"),
        LinkRefusal::ImportClash(name) => add_named("ImportClash", name, found),
        LinkRefusal::NotJoined(refusal) => add_join_refusal(refusal, found),
    }
}

// Adds what files that are read are refused for.
fn add_join_refusal(refusal: &JoinRefusal, found: &mut Found) {
    match refusal {
        JoinRefusal::DuplicateName(name) => add_named("DuplicateName", name, found),
        JoinRefusal::UnknownType(name) => add_named("UnknownType", name, found),
        JoinRefusal::EndlessObject(name) => add_named("EndlessObject", name, found),
        JoinRefusal::ObjectTooLarge(name) => add_named("ObjectTooLarge", name, found),
        JoinRefusal::UnknownChannel => found.text("UnknownChannel"),
        JoinRefusal::UnknownImport(path) => add_named("UnknownImport", path, found),
        JoinRefusal::UnknownOverride(name) => add_named("UnknownOverride", name, found),
    }
}

fn add_named(fault: &str, name: &Text, found: &mut Found) {
    found.texts(&[fault, " ", name.as_str()])
}
