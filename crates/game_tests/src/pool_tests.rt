//! Lists that come back.

use list_pool::ListPool;
use std::alloc::AllocError;

/// The list at a place, where there is one.
fn list_at(pool: &ListPool, place: usize) -> Option<&[u64]> {
    if place < pool.len() {
        Some(pool.get(place))
    } else {
        None
    }
}

/// Appends a list after room was made for `room` numbers, where that suffices.
fn push_into_room(
    pool: &mut ListPool,
    room: usize,
    items: &[u64],
) -> Result<Option<usize>, AllocError> {
    pool.reserve(room)?;
    if items.len() > room {
        return Ok(None);
    }
    Ok(Some(pool.push_reserved(items)))
}

/// Places and the lists at them.
static LISTS: [(usize, &[u64]); 2] = [(0, &[]), (1, &[5, 6])];

/// The first of the lists that doesn't come to its place.
fn wrong_place(pool: &mut ListPool) -> Option<usize> {
    for row in &LISTS {
        if pool.push(row.1) != Ok(row.0) {
            return Some(row.0);
        }
    }
    None
}

/// The first of the lists that isn't at its place.
fn wrong_list(pool: &ListPool) -> Option<usize> {
    for row in &LISTS {
        if list_at(pool, row.0) != Some(row.1) {
            return Some(row.0);
        }
    }
    None
}

/// Whether the lists come to their places and stand there.
fn has_lists(pool: &mut ListPool) -> bool {
    wrong_place(pool).is_none() && wrong_list(pool).is_none() && list_at(pool, 2).is_none()
}

#[test]
fn lists(rt: HostRuntime) {
    assert!(rt; has_lists(&mut ListPool::new(rt.alloc())));
}

/// A place, the room that is made, and the list.
type Roomed = (usize, usize, &'static [u64]);

static ROOMED: [Roomed; 2] = [(1, 2, &[5, 6]), (2, 0, &[])];

/// Whether a list comes to its place, and those before it stand at theirs.
fn comes_to_its_place(pool: &mut ListPool, row: &Roomed) -> bool {
    push_into_room(pool, row.1, row.2) == Ok(Some(row.0))
        && list_at(pool, 0) == Some([7].as_slice())
        && list_at(pool, 1) == Some([5, 6].as_slice())
        && list_at(pool, row.0) == Some(row.2)
}

/// The first of the lists that isn't so.
fn wrong_roomed(pool: &mut ListPool) -> Option<usize> {
    for row in &ROOMED {
        if !comes_to_its_place(pool, row) {
            return Some(row.0);
        }
    }
    None
}

/// Whether lists in room that was made stand behind a first one.
fn has_roomed(pool: &mut ListPool) -> bool {
    pool.push(&[7]) == Ok(0) && wrong_roomed(pool).is_none()
}

#[test]
fn lists_in_room(rt: HostRuntime) {
    assert!(rt; has_roomed(&mut ListPool::new(rt.alloc())));
}

/// Appends so many lists: list `i` has `i % 9` numbers, all of them `i`.
fn append(pool: &mut ListPool, count: usize) -> Result<(), AllocError> {
    for i in 0..count {
        let items = [i as u64; 8];
        pool.push(&items[..i % 9])?;
    }
    Ok(())
}

/// Whether the list at each place is so.
fn are_right(pool: &ListPool) -> bool {
    let mut right = true;
    for place in 0..pool.len() {
        let list = pool.get(place);
        right &= list.len() == place % 9 && list.iter().all(|item| *item == place as u64);
    }
    right
}

/// Whether so many lists are appended and stand at their places.
fn has_many(pool: &mut ListPool, count: usize) -> bool {
    append(pool, count) == Ok(()) && pool.len() == count && are_right(pool)
}

#[test]
fn many_lists(rt: HostRuntime) {
    assert!(rt; has_many(&mut ListPool::new(rt.alloc()), 100_000));
}
