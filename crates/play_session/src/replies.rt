//! The lines that a session writes.

ghost use Rattle.std.specs.Prelude.{◌≡◌, ◌+◌, ◌≤◌, length};
ghost use Rattle.board_words.specs.Words.{word_line};
ghost use Rattle.whole_rules.specs.Moves.{move_word, IsMoveOnBoard};
ghost use Rattle.play_session.specs.Session.{refused_line, refusal_word};

use crate::reply::Reply;
use go_grid::{Size, name};
use whole_rules::{Move, MoveError};

/// A line of two words.
#[tactic(auto, using(std::proofs::Common::append_assoc), unfolding(board_words::specs::Words::word_line))]
pub(crate) fn word_line(label: &str, word: &[u8]) -> Reply
    requires { length label.now + length word.now ≤ 30 }
    ensures { result ≡ word_line label.now word.now }
{
    let mut line = Reply::new();
    line.push_all(label.as_bytes());
    line.push(b' ');
    line.push_all(word);
    line.push(b'\n');
    line
}

/// The word of a move.
fn move_word(size: Size, chosen: &Move) -> Reply
    requires { IsMoveOnBoard size.columns size.rows chosen.now }
    ensures value { result ≡ move_word size.columns chosen.now }
    ensures short { length result ≤ 5 }
{
    let mut word = Reply::new();
    match *chosen {
        Move::Stone(point) => word.push_all(&name(size, point)),
        Move::Spend => word.push_all(b"spend"),
        Move::Half => word.push_all(b"half"),
    }
    word
}

/// A line that ends in a move.
pub(crate) fn move_line(label: &str, size: Size, chosen: &Move) -> Reply
    requires on_board { IsMoveOnBoard size.columns size.rows chosen.now }
    requires short { length label.now ≤ 10 }
    ensures { result ≡ word_line label.now (move_word size.columns chosen.now) }
{
    word_line(label, move_word(size, chosen).as_slice())
}

/// The line of a move that is refused.
pub(crate) fn refusal(error: MoveError) -> Reply
    ensures { result ≡ refused_line (refusal_word error) }
{
    let why: &[u8] = match error {
        MoveError::NotContested => b"not contested",
        MoveError::Occupied => b"occupied",
        MoveError::Suicide => b"suicide",
        MoveError::EmptyPurse => b"empty purse",
        MoveError::NoHalf => b"no half",
    };
    word_line("refused", why)
}
