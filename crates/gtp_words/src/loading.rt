//! Positions of files.

ghost use Rattle.std.specs.Prelude.{◌≡◌, ◌≤◌, length, sum_by, IfOk};
ghost use Rattle.sgf_tree.specs.Reading.{line_text};
ghost use Rattle.desk_io.specs.Files.{told_file};
ghost use Rattle.gtp_words.specs.inner.Finding.{IsFoundIn, IsFoundOn};
ghost use Rattle.gtp_words.specs.Files.{IsLoaded, load_settings};

use desk_io::{LoadError, Loaded, Shelf};
use sgf_go::{GoError, Settings, Setup, position};
use sgf_tree::{MOST_BYTES, SgfError, Tree};
use std::alloc::{AllocError, Global};

/// What a load comes to.
#[derive(Drop)]
pub enum Loading {
    /// The position of the file.
    Position(Setup),
    /// There is no such file, or it is too long, or it gives no position.
    Nothing,
    /// The file could not be read.
    Failed,
}

/// The settings of a load: whether the points that the file marks are declared, and how many moves are replayed.
fn load_settings(territory: bool, after: Option<u32>) -> Settings
    ensures { result ≡ load_settings territory after }
{
    Settings {
        after,
        komi: None,
        turn: None,
        black_prisoners: 0,
        white_prisoners: 0,
        territory,
    }
}

/// The position of a main line, where it gives one.
fn find_on(
    alloc: Global,
    tree: &Tree,
    territory: bool,
    after: Option<u32>,
) -> Result<Loading, AllocError>
    requires nodes { length tree.now.line.items ≤ MOST_BYTES }
    requires properties { sum_by (λ n. length n.properties.items) tree.now.line.items ≤ MOST_BYTES }
    ensures { IfOk result (IsFoundOn (line_text tree.now)
        (load_settings territory after)) }
{
    match position(alloc, tree, &load_settings(territory, after)) {
        Ok(setup) => Ok(Loading::Position(setup)),
        Err(GoError::Fault(_fault)) => Ok(Loading::Nothing),
        Err(GoError::Memory(cause)) => Err(cause),
    }
}

/// The position of a file, where it gives one.
fn find_in(
    alloc: Global,
    file: &[u8],
    territory: bool,
    after: Option<u32>,
) -> Result<Loading, AllocError>
    requires { length file.now ≤ MOST_BYTES }
    ensures { IfOk result (IsFoundIn file.now (load_settings territory after)) }
{
    match sgf_tree::read(alloc, file) {
        Ok(tree) => {
            let found = find_on(alloc, &tree, territory, after)?;
            Ok(found)
        }
        Err(SgfError::Fault(_fault)) => Ok(Loading::Nothing),
        Err(SgfError::Memory(cause)) => Err(cause),
    }
}

/// Loads the position of a file.
pub fn load<H: Shelf>(
    alloc: Global,
    shelf: &mut H,
    name: &str,
    territory: bool,
    after: Option<u32>,
) -> Result<Loading, AllocError>
    ensures loaded { IfOk result (IsLoaded (told_file (H.files shelf.old) name.now)
        (load_settings territory after) (H.faults shelf.old) (H.faults shelf.new)) }
    ensures same_files { H.files shelf.new ≡ H.files shelf.old }
    ensures asked { H.asks shelf.old name.now shelf.new }
    ensures later { H.faults shelf.old ≤ H.faults shelf.new }
{
    let mut file = Vec::new(alloc);
    match shelf.load(name, MOST_BYTES, &mut file) {
        Ok(Loaded::Whole) => {
            let found = find_in(alloc, &file, territory, after)?;
            Ok(found)
        }
        Ok(Loaded::Longer) => Ok(Loading::Nothing),
        Err(LoadError::Absent) => Ok(Loading::Nothing),
        Err(LoadError::Failed) => Ok(Loading::Failed),
        Err(LoadError::Memory(cause)) => Err(cause),
    }
}
