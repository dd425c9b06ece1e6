//! The followers of a form.

ghost use Rattle.std.specs.Prelude.{◌<◌, ◌≤◌, length, IfOk};
ghost use Rattle.game_store.specs.Meaning.{AreBelow};
ghost use Rattle.thermograph.specs.inner.Flags.{AreAdded, IsAmong, IsInnerId, AreFollowers};

use game_store::{Form, GameId, Store};
use std::alloc::{AllocError, Global};

/// Flags the ids.
fn flag_ids(flags: &mut [bool], ids: &[GameId])
    requires { AreBelow (length flags.old) ids.now }
    ensures { AreAdded (IsAmong ids.now) flags.old flags.new }
{
    for id in ids {
        flags[*id as usize] = true;
    }
}

/// Flags the options of a form that is no number.
fn flag_options(store: &Store, flags: &mut [bool], id: GameId)
    requires id { id < length flags.old }
    requires flags { length flags.old ≤ length store.now }
    ensures { AreAdded (IsInnerId store.now id) flags.old flags.new }
{
    if let Form::Options { left, right } = store.node(id) {
        flag_ids(flags, left);
        flag_ids(flags, right);
    }
}

/// Which ids up to this one are of followers that are drawn with it: itself, and the options of each that is no number.
pub(crate) fn followers(alloc: Global, store: &Store, id: GameId) -> Result<Vec<bool>, AllocError>
    requires { id < length store.now }
    ensures { IfOk result (λ flags. AreFollowers store.now id 0 flags.items) }
{
    let _count = store.len();
    let count = id as usize + 1;
    let mut flags = vec![in alloc; false; count]?;
    flags[id as usize] = true;
    let mut place = count;
    'flagging: while place > 0 {
        place -= 1;
        if flags[place] {
            flag_options(store, &mut flags, place as u64);
        }
    }
    Ok(flags)
}
