use link_trail::Links;
use std::test::Fail;

#[test]
fn moves_are_taken_back(rt: HostRuntime) -> Result<(), Fail> {
    let mut links = Links::new(rt.alloc(), 2, 1)?;
    links.widen(3)?;
    links.reserve(5)?;
    links.link(0, 2);
    links.link(0, 1);
    links.link(0, 0);
    let mark = links.mark();
    links.unlink(1);
    links.link(1, 1);
    // The lists are 2, 0 and 1.
    assert_eq!(rt; links.first(0), Some(2));
    assert_eq!(rt; links.next(2), Some(0));
    assert_eq!(rt; links.next(0), None);
    assert_eq!(rt; links.first(1), Some(1));
    assert_eq!(rt; links.next(1), None);
    links.undo_to(mark);
    // The lists are 2, 1, 0 and none.
    assert_eq!(rt; links.first(0), Some(2));
    assert_eq!(rt; links.next(2), Some(1));
    assert_eq!(rt; links.next(1), Some(0));
    assert_eq!(rt; links.next(0), None);
    assert_eq!(rt; links.first(1), None);
    links.undo_to(1);
    assert_eq!(rt; links.first(0), Some(2));
    assert_eq!(rt; links.next(2), None);
    assert_eq!(rt; links.next(1), None);
    Ok(())
}
