//! What is put into a store twice has one id.

use crate::sum_tests::star;
use dyadic_num::Dyadic;
use game_store::Store;
use std::alloc::AllocError;

/// Numbers, by numerator and exponent.
static NUMBERS: [(i128, u8); 4] = [(1, 1), (0, 0), (-3, 2), (7, 0)];

/// Whether a number gets one id.
fn has_one_id(store: &mut Store, number: Dyadic) -> Result<bool, AllocError> {
    let first = store.number(number)?;
    Ok(store.number(number)? == first)
}

/// The first of the numbers that doesn't get one id.
fn wrong_number(store: &mut Store) -> Option<usize> {
    for (at, row) in NUMBERS.iter().enumerate() {
        match Dyadic::part(row.0, row.1) {
            Some(number) if has_one_id(store, number) == Ok(true) => {}
            _ => return Some(at),
        }
    }
    None
}

/// Whether each number gets one id.
fn have_ids(store: &mut Store) -> bool {
    wrong_number(store).is_none() && store.len() == 4
}

#[test]
fn a_number_has_one_id(rt: HostRuntime) {
    assert!(rt; have_ids(&mut Store::new(rt.alloc())));
}

/// Whether a form gets one id, beside that of its option.
fn form_has_one_id(store: &mut Store) -> Result<bool, AllocError> {
    let first = star(store)?;
    Ok(star(store)? == first && store.len() == 2)
}

#[test]
fn a_form_has_one_id(rt: HostRuntime) {
    assert!(rt; form_has_one_id(&mut Store::new(rt.alloc())) == Ok(true));
}
