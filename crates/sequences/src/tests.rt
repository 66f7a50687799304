use super::*;
use std::alloc::{AllocError, Global};
use std::test::Fail;

#[test]
fn items_and_bytes_are_kept(rt: HostRuntime) -> Result<(), Fail> {
    let alloc = rt.alloc();
    let text = Text::new(alloc, "a text")?;
    let copy = text.clone()?;
    assert_eq!(rt; copy.as_str(), "a text");
    let mut numbers: Sequence<u32> = Sequence::new(alloc);
    numbers.push(7)?;
    numbers.insert(0, 5)?;
    assert_eq!(rt; numbers.as_slice(), [5, 7].as_slice());
    assert_eq!(rt; numbers.get(1).copied(), Some(7));
    assert_eq!(rt; numbers.pop(), Some(7));
    let same = numbers.clone()?;
    assert!(rt; same == numbers);
    assert!(rt; copy == text);
    let back = Sequence::from_vec(numbers.into_vec());
    assert_eq!(rt; back.len(), 1);
    let string = Text::from_string(text.into_string());
    assert_eq!(rt; string.as_str(), "a text");
    Ok(())
}

#[test]
fn a_shared_list_changes_alone(rt: HostRuntime) -> Result<(), Fail> {
    let alloc = rt.alloc();
    let mut names: SharedList<Text> = SharedList::new(alloc);
    names.push(Text::new(alloc, "b")?)?;
    let before = names.clone()?;
    names.insert(0, Text::new(alloc, "a")?)?;
    assert_eq!(rt; names.len(), 2);
    assert_eq!(rt; before.len(), 1);
    assert!(rt; !before.is_empty());
    assert_eq!(rt; names.get(0).map(Text::as_str), Some("a"));
    names.replace(0, Text::new(alloc, "c")?)?;
    assert_eq!(rt; names.get(0).map(Text::as_str), Some("c"));
    let mut numbers: Sequence<Text> = Sequence::new(alloc);
    numbers.push(Text::new(alloc, "b")?)?;
    let same = SharedList::from_sequence(alloc, numbers)?;
    assert!(rt; same == before);
    Ok(())
}

#[test]
fn a_list_is_made_of_another(rt: HostRuntime) -> Result<(), Fail> {
    let alloc = rt.alloc();
    let mut list: SharedList<Text> = SharedList::new(alloc);
    let mut held = list.clone()?;
    for (change, place, item, is_held, after) in [
        ("insert", 0, "b", false, "b"),
        ("insert", 0, "a", false, "ab"),
        ("insert", 2, "d", false, "abd"),
        ("replace", 1, "c", false, "acd"),
        ("remove", 0, "", false, "cd"),
        ("insert", 1, "x", false, "cxd"),
        ("remove", 2, "", true, "cx"),
        ("replace", 0, "y", false, "yx"),
        ("replace", 1, "z", true, "yz"),
        ("remove", 0, "", true, "z"),
        ("remove", 0, "", false, ""),
        ("insert", 0, "e", false, "e"),
    ] {
        let next = made_of(alloc, &mut list, change, place, item)?;
        assert_eq!(rt; joined(alloc, &next)?.as_str(), after);
        if is_held {
            held = list;
        }
        list = next;
    }
    assert_eq!(rt; joined(alloc, &held)?.as_str(), "yz");
    Ok(())
}

fn made_of(
    alloc: Global,
    list: &mut SharedList<Text>,
    change: &str,
    place: usize,
    item: &str,
) -> Result<SharedList<Text>, Fail> {
    let item = Text::new(alloc, item)?;
    match change {
        "insert" if place <= list.len() => Ok(list.inserted(place, item)?.list),
        "replace" if place < list.len() => Ok(list.replaced(place, item)?.list),
        "remove" if place < list.len() => Ok(list.removed(place)?.list),
        _ => Err(Fail::new("no such change")),
    }
}

fn joined(alloc: Global, list: &SharedList<Text>) -> Result<String, AllocError> {
    let mut joined = String::new(alloc);
    for item in list.as_slice() {
        joined.push_str(item.as_str())?;
    }
    Ok(joined)
}
