//! Laws of sessions.

ghost use Rattle.std.specs.Prelude.{Bool, List, ℕ};
ghost use Rattle.gtp_words.specs.Laws.{HaveOneBeginning, HaveOneText};
ghost use Rattle.gtp_words.specs.Loads.{Fate};

/// Replies to lines, and which states are alike. Nothing but laws is said of it.
pub trait RepliesAlike {
    /// What is kept from line to line, beside the loads.
    ghost State: { Type 0 };

    /// What is replied to a line.
    ghost replies: { List ℕ → Fate → State → List ℕ → State → Bool → Type 0 };

    /// The states are alike.
    ghost alike: { State → State → Type 0 };
}

/// Whatever the replies, where alike states reply alike sessions that begin alike have one text, and what breaks off is a front
/// part of it. It has no code.
pub fn session_laws<A: RepliesAlike>()
    ensures one_text { HaveOneText A.State A.replies A.alike }
    ensures one_beginning { HaveOneBeginning A.State A.replies A.alike }
{}
