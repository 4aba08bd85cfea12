use crate::{Claimed, Name, TaskState, Tasks};
use fizz_text::Text;
use std::alloc::Global;
use std::test::Fail;

fn stands(tasks: &Tasks<u32>, task: u32) -> &[u8] {
    match tasks.state(task) {
        TaskState::Gone => b"gone",
        TaskState::Runnable => b"runnable",
        TaskState::Claimed { claim: _ } => b"claimed",
        TaskState::Waiting { resource } => resource.as_bytes(),
    }
}

fn name(alloc: Global, text: &'static str) -> Result<Name, Fail> {
    Ok(Name::of(alloc, &Text::fixed(text))?)
}

fn claimed(claim: Option<Claimed<u32>>) -> Option<(u32, u64, u32)> {
    match claim {
        Some(claim) => Some((claim.task, claim.claim, claim.payload)),
        None => None,
    }
}

#[test]
fn tasks_are_claimed_in_turn(rt: HostRuntime) -> Result<(), Fail> {
    let mut tasks: Tasks<u32> = Tasks::new(rt.alloc());
    tasks.reserve(3)?;
    let first = tasks.spawn(None, 10, None);
    let second = tasks.spawn(Some(0), 11, None);
    let third = tasks.spawn(Some(1), 12, Some(name(rt.alloc(), "u")?));
    assert_eq!(rt; (first, second, third), (0, 1, 2));
    assert_eq!(rt; tasks.made(), 3);
    assert_eq!(rt; stands(&tasks, 2), b"u".as_slice());
    assert_eq!(rt; claimed(tasks.claim()), Some((0, 0, 10)));
    assert_eq!(rt; tasks.give_back(0, 0, 10).is_ok(), true);
    // the second one comes before the one that was given back
    assert_eq!(rt; claimed(tasks.claim()), Some((1, 1, 11)));
    assert_eq!(rt; claimed(tasks.claim()), Some((0, 2, 10)));
    assert_eq!(rt; claimed(tasks.claim()), None);
    Ok(())
}

#[test]
fn settled_tasks_run_in_order_of_number(rt: HostRuntime) -> Result<(), Fail> {
    let mut tasks: Tasks<u32> = Tasks::new(rt.alloc());
    tasks.reserve(3)?;
    let _ = tasks.spawn(None, 10, None);
    let _ = tasks.spawn(None, 11, Some(name(rt.alloc(), "u")?));
    let _ = tasks.spawn(None, 12, Some(name(rt.alloc(), "v")?));
    let _ = tasks.claim();
    assert_eq!(rt;
        tasks.wait_on(0, 0, 10, name(rt.alloc(), "u")?).is_ok(),
        true
    );
    assert_eq!(rt; tasks.waiting_count(), 3);
    assert_eq!(rt; tasks.settle(&Text::fixed("u")), 2);
    assert_eq!(rt; tasks.settle(&Text::fixed("w")), 0);
    assert_eq!(rt; claimed(tasks.claim()), Some((0, 1, 10)));
    assert_eq!(rt; claimed(tasks.claim()), Some((1, 2, 11)));
    assert_eq!(rt; stands(&tasks, 2), b"v".as_slice());
    Ok(())
}

#[test]
fn stale_claims_are_refused(rt: HostRuntime) -> Result<(), Fail> {
    let mut tasks: Tasks<u32> = Tasks::new(rt.alloc());
    tasks.reserve(2)?;
    let _ = tasks.spawn(Some(4), 10, None);
    let _ = tasks.spawn(Some(5), 11, None);
    let _ = tasks.claim();
    match tasks.give_back(0, 7, 99) {
        Ok(()) => assert!(rt; false, "taken"),
        Err(stale) => assert_eq!(rt; (stale.payload, stale.now), (99, Some(0))),
    }
    assert_eq!(rt; tasks.done(1, 0), Err(None));
    assert_eq!(rt; tasks.done(0, 0), Ok(()));
    assert_eq!(rt; stands(&tasks, 0), b"gone".as_slice());
    tasks.drop_owned(Some(5));
    assert_eq!(rt; stands(&tasks, 1), b"gone".as_slice());
    assert_eq!(rt; claimed(tasks.claim()), None);
    Ok(())
}
