use crate::{AddFault, Arena, ListId, MOST_NODES, NodeId};
use prunum::Memory;
use std::process::Abort;
use std::test::Fail;

fn push(
    rt: &impl Abort,
    arena: &mut Arena<u32>,
    list: ListId,
    value: u32,
) -> Result<NodeId, AddFault<u32>> {
    assert!(rt; list.index < arena.lists());
    arena.push_back(list, value)
}

fn insert_after(
    rt: &impl Abort,
    arena: &mut Arena<u32>,
    node: NodeId,
    value: u32,
) -> Result<NodeId, AddFault<u32>> {
    assert!(rt; arena.is_live(node));
    arena.insert_after(node, value)
}

fn unlink(rt: &impl Abort, arena: &mut Arena<u32>, node: NodeId) -> u32 {
    assert!(rt; arena.is_live(node));
    arena.unlink(node)
}

fn move_to(rt: &impl Abort, arena: &mut Arena<u32>, node: NodeId, list: ListId) {
    assert!(rt; arena.is_live(node));
    assert!(rt; list.index < arena.lists());
    arena.move_to(node, list);
}

// Whether the list has these values, forwards and backwards.
fn has(rt: &impl Abort, arena: &Arena<u32>, list: ListId, values: &[u32]) -> bool {
    assert!(rt; list.index < arena.lists());
    let mut at = arena.first(list);
    let mut before = None;
    for value in values {
        let Some(node) = at else { return false };
        assert!(rt; arena.is_live(node));
        if *arena.get(node) != *value || arena.prev(node) != before {
            return false;
        }
        before = at;
        at = arena.next(node);
    }
    at == None
}

#[test]
fn nodes_move(rt: HostRuntime) -> Result<(), Fail> {
    let mut arena = Arena::new(rt.alloc());
    let one = arena.add_list()?;
    let two = arena.add_list()?;
    assert_eq!(rt; arena.lists(), 2);
    assert!(rt; has(&rt, &arena, one, &[]));
    let first = push(&rt, &mut arena, one, 1)?;
    let second = push(&rt, &mut arena, one, 2)?;
    let third = push(&rt, &mut arena, one, 3)?;
    assert!(rt; has(&rt, &arena, one, &[1, 2, 3]));
    insert_after(&rt, &mut arena, first, 9)?;
    assert!(rt; has(&rt, &arena, one, &[1, 9, 2, 3]));
    assert_eq!(rt; unlink(&rt, &mut arena, second), 2);
    assert!(rt; has(&rt, &arena, one, &[1, 9, 3]));
    assert!(rt; !arena.is_live(second));
    assert_eq!(rt; arena.count(), 3);
    move_to(&rt, &mut arena, first, two);
    assert!(rt; has(&rt, &arena, one, &[9, 3]));
    assert!(rt; has(&rt, &arena, two, &[1]));
    move_to(&rt, &mut arena, third, one);
    assert!(rt; has(&rt, &arena, one, &[9, 3]));
    assert!(rt; arena.is_live(third));
    assert_eq!(rt; arena.set(third, 4), 3);
    assert!(rt; has(&rt, &arena, one, &[9, 4]));
    Ok(())
}

#[test]
fn reserved(rt: HostRuntime) -> Result<(), Fail> {
    let mut arena = Arena::new(rt.alloc());
    let list = arena.add_list()?;
    assert_eq!(rt; arena.reserve(2), Ok::<(), Memory>(()));
    push(&rt, &mut arena, list, 1)?;
    push(&rt, &mut arena, list, 2)?;
    assert!(rt; has(&rt, &arena, list, &[1, 2]));
    Ok(())
}

#[test]
fn pushes_and_unlinks(rt: HostRuntime) -> Result<(), Fail> {
    let mut arena = Arena::new(rt.alloc());
    let list = arena.add_list()?;
    let kept = push(&rt, &mut arena, list, 7)?;
    for value in 0..1_000_000 {
        let node = push(&rt, &mut arena, list, value)?;
        assert_eq!(rt; unlink(&rt, &mut arena, node), value);
    }
    assert!(rt; has(&rt, &arena, list, &[7]));
    assert!(rt; arena.is_live(kept));
    Ok(())
}

#[test]
fn full(rt: HostRuntime) -> Result<(), Fail> {
    let mut arena = Arena::new(rt.alloc());
    let list = arena.add_list()?;
    let last = push(&rt, &mut arena, list, 0)?;
    for _ in 1..MOST_NODES {
        push(&rt, &mut arena, list, 1)?;
    }
    assert_eq!(rt; arena.count(), 1_048_576);
    assert!(rt; matches!(push(&rt, &mut arena, list, 5), Err(AddFault::Full(5))));
    assert_eq!(rt; unlink(&rt, &mut arena, last), 0);
    push(&rt, &mut arena, list, 6)?;
    assert!(rt;
        matches!(
            insert_after(&rt, &mut arena, last, 5),
            Err(AddFault::Full(5))
        )
    );
    Ok(())
}
