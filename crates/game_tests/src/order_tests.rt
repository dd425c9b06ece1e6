//! Canonical forms of small games, their parts, their sums with numbers, and their incentives.

ghost use Rattle.std.specs.Prelude.{ℕ, ◌<◌, length, slice_index, IsTrue};
ghost use Rattle.game_canon.specs.SumComparisons.{AreComparisonsRight};

use dyadic_num::{Dyadic, EXPONENT};
use game_canon::{
    FormError, SumComparisons, add_number, canonical, compare_incentives, incentive_at_least, parts,
};
use game_store::{GameId, Store};
use std::alloc::{AllocError, Global};
use std::rt::HostRuntime;

/// What a game comes to.
#[derive(Clone, Copy)]
enum Made {
    /// A form that no earlier row made, with so many parts.
    New(u64),
    /// That of the row.
    Row(usize),
    Refused(FormError),
}

/// The first rows: numbers, by numerator and exponent.
static NUMBERS: [(i128, u8); 8] = [
    (0, 0),
    (1, 0),
    (2, 0),
    (4, 0),
    (5, 0),
    (1, 1),
    (1, EXPONENT),
    ((1 << EXPONENT) - 1, 0),
];

/// The Left and the Right options of a form by their rows, the most parts that it may have, and what it comes to.
type FormRow = (&'static [usize], &'static [usize], u32, Made);

/// The rows behind those of the numbers: forms.
static FORMS: [FormRow; 32] = [
    // 8: equal numbers
    (&[], &[], 1, Made::Row(0)),
    (&[0], &[1], 500, Made::Row(5)),
    (&[1], &[3], 500, Made::Row(2)),
    (&[], &[6], 500, Made::Row(0)),
    (&[], &[0], 500, Made::New(0)),
    (&[0], &[6], 500, Made::Refused(FormError::Bounds)),
    // 14: star
    (&[0], &[0], 1, Made::New(1)),
    // 15: up
    (&[0], &[14], 2, Made::New(2)),
    // 16: {1|*}
    (&[1], &[14], 2, Made::New(2)),
    (&[14], &[14], 1, Made::Row(0)),
    (&[0, 14], &[14], 500, Made::Row(15)),
    (&[0, 1, 0], &[14], 500, Made::Row(16)),
    (&[1], &[14], 1, Made::Refused(FormError::Parts)),
    // 21 and 22: nimbers of 2 and 3
    (&[0, 14], &[0, 14], 500, Made::New(2)),
    (&[0, 14, 21], &[0, 14, 21], 500, Made::New(3)),
    (&[0, 14, 22], &[0, 14, 22], 500, Made::Row(21)),
    (&[0, 21, 22], &[0, 21, 22], 500, Made::Row(14)),
    (&[14, 22], &[14, 22], 500, Made::Row(0)),
    // 26 and 27: up and star, double up
    (&[0, 14], &[0], 500, Made::New(2)),
    (&[0], &[26], 500, Made::New(3)),
    (&[14, 15], &[0, 15], 500, Made::Row(26)),
    (&[15], &[26], 500, Made::Row(27)),
    // 30: {0|up}, double up and star
    (&[0], &[15], 500, Made::New(3)),
    (&[26, 27], &[15, 27], 500, Made::Row(30)),
    // 32: {2|{1|*}}
    (&[2], &[16], 500, Made::New(3)),
    (&[1, 2], &[2, 16], 500, Made::Row(32)),
    // 34 to 36: {2|0}, {4|2}, {{4|2}|0}
    (&[2], &[0], 500, Made::New(1)),
    (&[3], &[2], 500, Made::New(1)),
    (&[35], &[0], 500, Made::New(2)),
    // 37 and 38: {1/2|1/2}, {2^60 - 1|*}
    (&[5], &[5], 500, Made::New(1)),
    (&[7], &[14], 500, Made::New(2)),
    (&[7], &[], 500, Made::Refused(FormError::Bounds)),
];

/// A game by its row, a number, and what their sum comes to.
type SumRow = (usize, i128, u8, Made);

static SUMS: [SumRow; 5] = [
    (14, 1, 1, Made::Row(37)),
    (37, -1, 1, Made::Row(14)),
    (38, 0, 0, Made::Row(38)),
    (7, 1, 0, Made::Refused(FormError::Bounds)),
    (38, 1, 0, Made::Refused(FormError::Bounds)),
];

/// A game and an option of it, another game and an option of that, by their rows, and whether the first incentive is at
/// least the second.
type IncentiveRow = (usize, usize, usize, usize, bool);

static INCENTIVES: [IncentiveRow; 16] = [
    (34, 2, 14, 0, true),
    (14, 0, 34, 2, false),
    (34, 2, 34, 2, true),
    (34, 2, 35, 3, true),
    (35, 3, 34, 2, true),
    (36, 35, 34, 2, true),
    (34, 2, 36, 35, false),
    (15, 0, 14, 0, false),
    (14, 0, 15, 0, false),
    (4, 4, 14, 0, false),
    (14, 0, 4, 4, false),
    (4, 4, 4, 4, true),
    (4, 3, 14, 0, false),
    (14, 0, 4, 3, true),
    (5, 0, 4, 3, true),
    (4, 3, 5, 0, false),
];

/// The id of a row, or none that is the store's.
fn id_of(made: &[GameId], row: usize) -> GameId {
    made.get(row).copied().unwrap_or(GameId::MAX)
}

/// The ids of rows.
fn ids_of(alloc: Global, made: &[GameId], rows: &[usize]) -> Result<Vec<GameId>, AllocError> {
    let mut ids = Vec::new(alloc);
    for row in rows {
        ids.push(id_of(made, *row))?;
    }
    Ok(ids)
}

/// Whether all the ids are the store's.
fn are_ids(store: &Store, ids: &[GameId]) -> bool
    ensures { IsTrue result → (j : ℕ) → j < length ids.now
        → slice_index ids.now j < length store.now }
{
    for id in ids {
        if *id >= store.len() {
            return false;
        }
    }
    true
}

/// The canonical form with these options, or a refusal where an option is none of the store's.
fn form_of(
    alloc: Global,
    store: &mut Store,
    left: &[GameId],
    right: &[GameId],
    limit: u32,
) -> Result<GameId, FormError> {
    if !are_ids(store, left) || !are_ids(store, right) {
        return Err(FormError::Bounds);
    }
    canonical(alloc, store, left, right, limit)
}

/// The canonical form of a row.
fn form(
    alloc: Global,
    store: &mut Store,
    made: &[GameId],
    row: &FormRow,
) -> Result<GameId, FormError> {
    let left = ids_of(alloc, made, row.0)?;
    let right = ids_of(alloc, made, row.1)?;
    form_of(alloc, store, &left, &right, row.2)
}

/// The id of a number, or of 0 where there is no such number.
fn number(store: &mut Store, numerator: i128, exponent: u8) -> Result<GameId, AllocError> {
    store.number(Dyadic::part(numerator, exponent).unwrap_or(Dyadic::whole(0)))
}

/// Adds the ids of the numbers.
fn add_numbers(store: &mut Store, made: &mut Vec<GameId>) -> Result<(), AllocError> {
    for row in NUMBERS.iter() {
        made.push(number(store, row.0, row.1)?)?;
    }
    Ok(())
}

/// Adds the ids of the forms.
fn add_forms(alloc: Global, store: &mut Store, made: &mut Vec<GameId>) -> Result<(), AllocError> {
    for row in FORMS.iter() {
        let id = form(alloc, store, made, row).unwrap_or(GameId::MAX);
        made.push(id)?;
    }
    Ok(())
}

/// Adds the ids of all rows.
fn add_rows(alloc: Global, store: &mut Store, made: &mut Vec<GameId>) -> Result<(), AllocError> {
    add_numbers(store, made)?;
    add_forms(alloc, store, made)
}

/// Whether the id is that of the row, of no earlier row, and of a form with so many parts.
fn is_new(alloc: Global, store: &Store, made: &[GameId], row: usize, count: u64) -> bool {
    let id = id_of(made, row);
    if id >= store.len() {
        return false;
    }
    parts(alloc, store, id) == Ok(count) && !made.iter().take(row).any(|other| *other == id)
}

/// Whether a form or a sum comes to what its row wants.
fn comes_to(
    alloc: Global,
    store: &Store,
    made: &[GameId],
    got: Result<GameId, FormError>,
    wants: Made,
    row: usize,
) -> bool {
    match wants {
        Made::New(count) => {
            got == Ok(id_of(made, row)) && is_new(alloc, store, made, row, count)
        }
        Made::Row(other) => got == Ok(id_of(made, other)),
        Made::Refused(error) => got == Err(error),
    }
}

/// Whether the form of a row comes to what the row wants.
fn is_form(alloc: Global, store: &mut Store, made: &[GameId], row: &FormRow, place: usize) -> bool {
    let got = form(alloc, store, made, row);
    comes_to(alloc, store, made, got, row.3, place)
}

/// The first row of a form that comes to something else.
fn wrong_form(alloc: Global, store: &mut Store, made: &[GameId]) -> Option<usize> {
    for (at, row) in FORMS.iter().enumerate() {
        let place = at.saturating_add(NUMBERS.len());
        if !is_form(alloc, store, made, row, place) {
            return Some(place);
        }
    }
    None
}

/// The sum of a row's game and a number, or too many parts where there is no such game or number.
fn sum(
    alloc: Global,
    store: &mut Store,
    id: GameId,
    numerator: i128,
    exponent: u8,
) -> Result<GameId, FormError> {
    let number = Dyadic::part(numerator, exponent).ok_or(FormError::Parts)?;
    if id >= store.len() {
        return Err(FormError::Parts);
    }
    add_number(alloc, store, id, number)
}

/// Whether a sum comes to what its row wants.
fn is_sum(alloc: Global, store: &mut Store, made: &[GameId], row: &SumRow) -> bool {
    let got = sum(alloc, store, id_of(made, row.0), row.1, row.2);
    comes_to(alloc, store, made, got, row.3, 0)
}

/// The game of the first sum that comes to something else.
fn wrong_sum(alloc: Global, store: &mut Store, made: &[GameId]) -> Option<usize> {
    for row in SUMS.iter() {
        if !is_sum(alloc, store, made, row) {
            return Some(row.0);
        }
    }
    None
}

/// Whether the first of two incentives is at least the second. None where an id isn't the store's, and where what is
/// remembered tells otherwise.
fn at_least(
    alloc: Global,
    comparisons: &mut SumComparisons,
    store: &Store,
    first: (GameId, GameId),
    second: (GameId, GameId),
) -> Option<bool>
    requires { AreComparisonsRight store.now comparisons.old }
    ensures { AreComparisonsRight store.now comparisons.new }
{
    let count = store.len();
    if first.0 >= count || first.1 >= count {
        return None;
    }
    if second.0 >= count || second.1 >= count {
        return None;
    }
    let remembered = compare_incentives(
        alloc,
        comparisons,
        store,
        first.0,
        first.1,
        second.0,
        second.1,
    );
    let anew = incentive_at_least(alloc, store, first.0, first.1, second.0, second.1);
    match (remembered, anew) {
        (Ok(remembered), Ok(anew)) if remembered == anew => Some(anew),
        _ => None,
    }
}

/// Whether two incentives compare so.
fn compare_so(
    alloc: Global,
    comparisons: &mut SumComparisons,
    store: &Store,
    made: &[GameId],
    row: &IncentiveRow,
) -> bool
    requires { AreComparisonsRight store.now comparisons.old }
    ensures { AreComparisonsRight store.now comparisons.new }
{
    let first = (id_of(made, row.0), id_of(made, row.1));
    let second = (id_of(made, row.2), id_of(made, row.3));
    at_least(alloc, comparisons, store, first, second) == Some(row.4)
}

/// The first of the rows whose incentives compare otherwise.
fn wrong_incentives(alloc: Global, store: &Store, made: &[GameId]) -> Option<usize> {
    let mut comparisons = SumComparisons::new(alloc);
    'rows: for (at, row) in INCENTIVES.iter().enumerate() {
        if !compare_so(alloc, &mut comparisons, store, made, row) {
            return Some(at);
        }
    }
    None
}

/// Whether all forms, sums and incentives are so.
fn are_right(alloc: Global, store: &mut Store, made: &mut Vec<GameId>) -> bool {
    add_rows(alloc, store, made) == Ok(())
        && wrong_form(alloc, store, made).is_none()
        && wrong_sum(alloc, store, made).is_none()
        && wrong_incentives(alloc, store, made).is_none()
}

#[test]
fn forms_sums_and_incentives(rt: HostRuntime) {
    let alloc = rt.alloc();
    assert!(&rt; are_right(alloc, &mut Store::new(alloc), &mut Vec::new(alloc)));
}
