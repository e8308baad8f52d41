//! Lists of values.
use al_values::{PackedValue, Words};
use sqlite_items::Items;
use std::test::Fail;

#[test]
fn words_are_put_where_they_are(rt: HostRuntime) -> Result<(), Fail> {
    let mut words = Words::zeros(rt.alloc(), 3)?;
    assert!(rt; words.put(2, PackedValue::from_int(5)));
    assert!(rt; !words.put(3, PackedValue::from_int(6)));
    assert_eq!(rt; words.len(), 3);
    assert_eq!(rt; words.get(0).and_then(|v| v.int()), Some(0));
    assert_eq!(rt; words.get(2).and_then(|v| v.int()), Some(5));
    assert!(rt; words.get(3).is_none());
    assert_eq!(rt; words.as_slice().len(), 3);
    assert_eq!(rt; Words::from_items(Items::new(rt.alloc())).len(), 0);
    Ok(())
}
