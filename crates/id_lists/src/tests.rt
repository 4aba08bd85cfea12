use crate::IdLists;
use fizz_text::OutOfMemory;
use std::alloc::Global;
use std::test::Fail;

#[test]
fn ids_stand_in_the_order_of_their_pushes(rt: HostRuntime) -> Result<(), Fail> {
    let mut lists = IdLists::new(rt.alloc());
    lists.reserve(2, 3)?;
    assert_eq!(rt; (lists.spare_lists(), lists.spare_ids()), (2, 3));
    let ready = lists.add_list();
    let done = lists.add_list();
    let a = lists.add_id();
    let b = lists.add_id();
    let c = lists.add_id();
    assert_eq!(rt; (ready, done), (0, 1));
    assert_eq!(rt; (a, b, c), (0, 1, 2));
    assert_eq!(rt; (lists.list_count(), lists.id_count()), (2, 3));
    assert_eq!(rt; (lists.spare_lists(), lists.spare_ids()), (0, 0));
    Ok(())
}

fn long_list(alloc: Global, n: u32) -> Result<IdLists, OutOfMemory> {
    let mut lists = IdLists::new(alloc);
    lists.reserve(2, n)?;
    let list = lists.add_list();
    let _ = lists.add_list();
    for _ in 0..n {
        let id = lists.add_id();
        lists.push(list, id);
    }
    Ok(lists)
}

fn told(lists: &IdLists, list: u32, n: u32) -> (u32, Option<u32>) {
    let mut count = 0;
    let mut last = None;
    let mut at = lists.first(list);
    for i in 0..n {
        match at {
            None => break,
            Some(id) => {
                count = i + 1;
                last = at;
                at = lists.next(id);
            },
        }
    }
    (count, last)
}

#[test]
fn rows_of_three(rt: HostRuntime) -> Result<(), Fail> {
    for (gone, first, after, last) in [
        (0, Some(1), Some(2), 2),
        (1, Some(0), Some(2), 2),
        (2, Some(0), Some(1), 1),
    ] {
        let mut lists = long_list(rt.alloc(), 3)?;
        assert_eq!(rt; lists.first(0), Some(0));
        assert_eq!(rt; lists.next(0), Some(1));
        assert_eq!(rt; lists.next(1), Some(2));
        assert_eq!(rt; lists.next(2), None);
        assert_eq!(rt; lists.first(1), None);
        lists.remove(gone);
        assert_eq!(rt; lists.list_of(gone), None);
        assert_eq!(rt; lists.next(gone), None);
        assert_eq!(rt; lists.first(0), first);
        assert_eq!(rt; told(&lists, 0, 9), (2, Some(last)));
        assert_eq!(rt; lists.next(first.unwrap_or(9)), after);
        lists.remove(gone);
        assert_eq!(rt; lists.list_of(last), Some(0));
        assert_eq!(rt; told(&lists, 0, 9), (2, Some(last)));
    }
    Ok(())
}

#[test]
fn many_ids(rt: HostRuntime) -> Result<(), Fail> {
    let mut lists = long_list(rt.alloc(), 100_000)?;
    assert_eq!(rt; told(&lists, 0, 200_000), (100_000, Some(99_999)));
    for i in 0..50_000 {
        lists.remove(2 * i + 1);
    }
    assert_eq!(rt; told(&lists, 0, 200_000), (50_000, Some(99_998)));
    for i in 0..50_000 {
        lists.remove(99_998 - 2 * i);
    }
    assert_eq!(rt; lists.first(0), None);
    Ok(())
}
