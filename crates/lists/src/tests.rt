use crate::Sequence;
use std::test::Fail;

#[test]
fn a_list_gives_back_what_was_pushed(rt: HostRuntime) -> Result<(), Fail> {
    let alloc = rt.alloc();
    let mut list: Sequence<u32> = Sequence::new(alloc);
    assert!(rt; list.is_empty());
    for item in [7, 9] {
        assert!(rt; list.push(item).is_ok());
    }
    let list = list.copy(alloc)?;
    assert_eq!(rt; list.len(), 2);
    assert!(rt; list.len() > 1);
    assert_eq!(rt; *list.get(1), 9);
    assert_eq!(rt; list.items(), [7, 9].as_slice());
    let vec = list.into_vec();
    assert_eq!(rt; Sequence::from_vec(vec).len(), 2);
    Ok(())
}
