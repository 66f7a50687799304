//! Lists and entries of values that are made by hand.
use fml_types::Text;
use fml_value::{Entries, InnerValue, Value, Values, to_tree};
use json_tree::write;
use std::test::Fail;

#[test]
fn values_by_hand(rt: HostRuntime) -> Result<(), Fail> {
    let alloc = rt.alloc();
    let mut items = Values::new(alloc);
    items.push(Value::Present(InnerValue::new(alloc, Value::Whole(7))?))?;
    items.push(Value::Absent)?;
    let mut entries = Entries::new(alloc);
    entries.insert(Text::new(alloc, "b")?, Value::Truth(true))?;
    entries.insert(Text::new(alloc, "a")?, Value::Truth(false))?;
    entries.insert(Text::new(alloc, "b")?, Value::List(items))?;
    assert_eq!(rt; entries.get("c").is_none(), true);
    let entries = Entries::from_vec(entries.into_vec());
    let tree = to_tree(alloc, &Value::Map(entries))?;
    assert_eq!(rt;
        write(alloc, &tree)?.as_str(),
        r#"{"a":false,"b":[7,null]}"#
    );
    Ok(())
}
