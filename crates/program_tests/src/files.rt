//! Files of small boards, and a shelf that holds them.

use desk_io::MemoryShelf;
use std::alloc::{AllocError, Global};

/// `.X.XO.O.` / `XXXXOOOO`, black to move in a tie.
pub(crate) const TIE: &[u8] = b"(;SZ[8:2]AB[ba][da][ab:db]AW[ea][ga][eb:hb])";

/// `.OX.XO.O.` / `XXXXXOOOO`: a captive counts twice.
pub(crate) const CAPTIVE: &[u8] = b"(;SZ[9:2]AB[ca][ea][ab:eb]AW[ba][fa][ha][fb:ib])";

/// The tie after a move of Black, with a komi of half a point, in a long spelling of its properties.
const SAVED: &[u8] =
    b"Saved game (copy)\n(;FF[4]GaMe[1]SiZe[8:2]KM[0.5]C[a \\] b]AB[ba][ab:db]AW[ea][ga][eb:hb](;Black[da]C[an eye])(;B[aa]))";

/// `.X.X.O.O.` / `XXXXXOOOO`, with one contested point.
pub(crate) const ONE_POINT: &[u8] = b"(;SZ[9:2]AB[ba][da][ab:eb]AW[fa][ha][fb:ib])";

/// `.X.X.O.O.` / `XXXX.OOOO`, with two contested points, which are worth nothing to who moves first.
pub(crate) const TWO_POINTS: &[u8] = b"(;SZ[9:2]AB[ba][da][ab:db]AW[fa][ha][fb:ib])";

/// `.X.XXXO.O.` / `XXXX..OOOO` / `XXXXXXOOOO`: a corridor of two points, open to White.
const CORRIDOR: &[u8] = b"(;SZ[10:3]AB[ba][da:fa][ab:db][ac:fc]AW[ga][ia][gb:jb][gc:jc])";

/// The corridor with a white stone inside.
pub(crate) const VISITED: &[u8] =
    b"(;SZ[10:3]AB[ba][da:fa][ab:db][ac:fc]AW[ga][ia][gb:jb][gc:jc][eb])";

/// `.X.XXOO.O.` / `XXXX..OOOO` / `XXXXXOOOOO`: two points, one of Black and one of White, with stones taken back and forth.
const ENDLESS: &[u8] = b"(;SZ[10:3]AB[ba][da:ea][ab:db][ac:ec]AW[fa:ga][ia][gb:jb][fc:jc])";

/// `.X.XXXXO.O.` / `XXXX...OOOO` / `XXXXXXXOOOO`: a corridor of three points, open to White.
const LONG_CORRIDOR: &[u8] = b"(;SZ[11:3]AB[ba][da:ga][ab:db][ac:gc]AW[ha][ja][hb:kb][hc:kc])";

/// A board of ten columns and three rows with a ko, in which the first winning move takes back for ever.
const KO: &[u8] = b"(;SZ[10:3]KM[-3]AB[aa][ca:da][ab:eb][bc:ec]AW[ea][ga:ha][ja][fb:jb][fc:ic])";

/// The same with a second ko below the first.
const TWO_KOS: &[u8] =
    b"(;SZ[10:3]AB[aa][ca:da][ab:eb][ac][cc:dc]AW[ea][ga:ha][ja][fb:jb][ec][gc:hc][jc])";

/// A saved game of two lines, after a move, a capture and a pass.
pub(crate) const COPY: &[u8] =
    b"Saved game (copy)\n(;FF[4]GaMe[1]SiZe[9:2]KM[6.5]C[a \\] b]AB[ba][da][ab:bb][db:eb]AW[ca][fa][ha][fb:ib](;B[cb]C[takes];W[tt];Black[tt])(;B[ea]))";

/// A point is marked for both colours.
pub(crate) const TWICE: &[u8] = b"(;SZ[3]TB[aa:ba]TW[ba])";

/// Two walls of settled points around a corridor of three.
pub(crate) const WALLS: &[u8] = b"(;SZ[7:3]AB[ca:cc]AW[ea:ec]TB[aa:bc]TW[fa:gc])";

/// A file by its name on a shelf.
pub(crate) type File = (&'static str, &'static [u8]);

/// The files of the tests by their names on the shelf.
static FILES: [File; 13] = [
    ("a", TIE),
    ("b", TWO_POINTS),
    ("c", ONE_POINT),
    ("d", CORRIDOR),
    ("e", ENDLESS),
    ("f", LONG_CORRIDOR),
    ("visited", VISITED),
    ("g", CAPTIVE),
    ("k", KO),
    ("kos", TWO_KOS),
    ("saved", SAVED),
    ("walls", WALLS),
    ("twice", TWICE),
];

/// Puts files on a shelf.
fn fill(alloc: Global, shelf: &mut MemoryShelf, files: &[File]) -> Result<(), AllocError> {
    for file in files {
        shelf.add(file.0, file.1.to_vec(alloc)?)?;
    }
    Ok(())
}

/// Puts files on a shelf, of which the load of this number fails.
fn set_up(
    alloc: Global,
    shelf: &mut MemoryShelf,
    files: &[File],
    failing: u64,
) -> Result<(), AllocError> {
    fill(alloc, shelf, files)?;
    shelf.fail_at(failing)
}

/// A shelf with files, of which the load of this number fails.
pub(crate) fn shelf_with(
    alloc: Global,
    files: &[File],
    failing: u64,
) -> Result<MemoryShelf, AllocError> {
    let mut shelf = MemoryShelf::new(alloc);
    set_up(alloc, &mut shelf, files, failing)?;
    Ok(shelf)
}

/// A shelf with the files of the tests.
pub(crate) fn shelf(alloc: Global, failing: u64) -> Result<MemoryShelf, AllocError> {
    shelf_with(alloc, &FILES, failing)
}
