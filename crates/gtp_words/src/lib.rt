//! The Go Text Protocol: the words of lines, ids, colours, points and replies; the loads of files; and sessions over lines.
#![tactic(auto)]

mod end;
mod laws;
mod loading;
mod loads;
mod replies;
mod sessions;
mod vertices;
mod words;

pub use end::GtpEnd;
pub use laws::{RepliesAlike, session_laws};
pub use loading::{Loading, load};
pub use loads::{Loads, MOST_LOADS};
pub use replies::compose;
pub use sessions::{Answer, AnswersLines, run_session};
pub use vertices::{Vertex, is_word, letter_of, point_at, point_text, read_colour, read_vertex};
pub use words::{Headed, clean, split, take_id};
