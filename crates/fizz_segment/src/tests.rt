use crate::{Flags, SegId, SegKind, Segments};
use std::test::Fail;

#[test]
fn kids_stand_in_order(rt: HostRuntime) -> Result<(), Fail> {
    let alloc = rt.alloc();
    let flags = Flags {
        lead: true,
        embedded: true,
    };
    let mut segments = Segments::new(alloc);
    segments.reserve(4)?;
    let root = segments.add_root(None);
    let child = segments.add_child(root, 3, flags);
    let site = segments.add_site(root, 5, 0);
    let last = segments.add_root(Some(0));
    assert_eq!(rt; segments.look(root).first, Some(child));
    assert_eq!(rt; segments.look(child).next, Some(site));
    assert_eq!(rt; segments.look(site).next, None);
    assert_eq!(rt;
        segments.look(last).kind,
        SegKind::Root { boundary: Some(0) }
    );
    assert_eq!(rt; segments.spare(), 0);
    segments.complete(child, flags, b"ab".to_vec(alloc)?);
    assert_eq!(rt; segments.look(child).bytes, Some(b"ab".as_slice()));
    segments.draw(site, 7);
    segments.mark_printed(child);
    assert_eq!(rt; segments.look(child).printed, true);
    assert_eq!(rt; segments.look(site).drawn, Some(7));
    segments.forget(child);
    assert_eq!(rt; segments.look(root).first, Some(site));
    assert_eq!(rt; segments.is_live(child), false);
    assert_eq!(rt; site, SegId(2));
    Ok(())
}
