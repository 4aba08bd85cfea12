use crate::{Boundaries, Part, Status};
use fizz_segment::SegId;
use fizz_text::{Path, Text};
use std::test::Fail;

#[test]
fn a_boundary_is_complete_with_its_last_task(rt: HostRuntime) -> Result<(), Fail> {
    let alloc = rt.alloc();
    let mut boundaries = Boundaries::new(alloc);
    boundaries.reserve(2)?;
    let mut path = Path::new(alloc);
    path.push(1)?;
    let outer = boundaries.add(path, None, SegId(4), Some(SegId(5)));
    boundaries.part_added(outer);
    assert_eq!(rt; boundaries.part_done(outer, 10), Part::Waiting);
    assert_eq!(rt; boundaries.part_done(outer, 5), Part::Complete);
    match boundaries.status(outer) {
        Status::Complete { bytes } => assert_eq!(rt; bytes, 15),
        _ => assert!(rt; false, "not complete"),
    }
    boundaries.draw(outer, 9);
    boundaries.reveal(outer);
    let view = boundaries.look(outer);
    assert_eq!(rt;
        (view.root, view.site, view.drawn, view.revealed),
        (SegId(4), Some(SegId(5)), Some(9), true)
    );
    assert_eq!(rt; boundaries.path(outer).steps(), [1].as_slice());
    Ok(())
}

#[test]
fn a_failed_boundary_keeps_its_digest(rt: HostRuntime) -> Result<(), Fail> {
    let alloc = rt.alloc();
    let mut boundaries = Boundaries::new(alloc);
    boundaries.reserve(1)?;
    assert_eq!(rt; boundaries.next(), 0);
    let id = boundaries.add(Path::new(alloc), None, SegId(0), None);
    boundaries.fail(id, Text::fixed("e1"));
    match boundaries.status(id) {
        Status::Failed { digest } => assert_eq!(rt; digest.as_str(), "e1"),
        _ => assert!(rt; false, "not failed"),
    }
    Ok(())
}
