//! What clients ask of a board session: the names and arguments of its commands, the requests that lines stand for, the state of the
//! session, and what each order that asks for neither a file nor the solver does to it.
#![tactic(auto)]

mod answers;
mod board_text;
mod command;
mod handicap;
mod position;
mod question;
mod refusal;
mod request;
mod session;
mod texts;
mod topic;
mod wanted;

pub use position::{BoardMove, MadeMove, Position, Tally};
pub use question::Question;
pub use refusal::{Refusal, accept, refuse, refuse_unscored, refuse_unsolved};
pub use request::{Asked, Request, read_asked};
pub use session::BoardSession;
pub use texts::{move_text, vertices_text};
pub use topic::{Analysis, Status, Topic};
pub use wanted::Wanted;
