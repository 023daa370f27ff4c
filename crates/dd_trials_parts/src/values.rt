//! Lists and boxed values give back what was put in.
use dd_values::{Boxed, Items};
use std::test::Fail;

#[test]
fn holds_what_was_put_in(rt: HostRuntime) -> Result<(), Fail> {
    let alloc = rt.alloc();
    let mut list = Items::new(alloc);
    assert!(rt; list.is_empty());
    list.push(3u32)?;
    list.push(5)?;
    assert_eq!(rt; list.len(), 2);
    assert_eq!(rt; list[1], 5);
    assert!(rt; list == Items::from_slice(alloc, &[3, 5])?);
    assert!(rt; list != Items::from_slice(alloc, &[3, 6])?);
    assert_eq!(rt; list.pop(), Some(5));
    assert_eq!(rt; Items::from_vec(list.into_vec()).get(0).copied(), Some(3));
    assert_eq!(rt;
        Boxed::from_box(Boxed::new(alloc, 7u32)?.into_box()).into_inner(),
        7
    );
    Ok(())
}
