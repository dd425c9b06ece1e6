//! Laws of texts, each the contract of a function that does nothing.

ghost use Rattle.game_text.specs.Laws.{OneReading, RoundTrip, StoresKeepBounds, IdsComeBack, NamedTextsTellTrees, NamedTextsTellGames, NamedRoundTrip, NamedIdsComeBack};

/// A text names at most one form, or is refused for one reason; the text of a canonical form that can be read back names
/// it; and what is written of an id is read back as the id. Trees of equal texts are equal: that is `text_laws` of
/// `short_games`.
pub fn text_laws()
    ensures one_reading { OneReading }
    ensures round_trip { RoundTrip }
    ensures bounds { StoresKeepBounds }
    ensures ids { IdsComeBack }
{}

/// A canonical form is known by its named text, and so is its game; what is written of an id is read back as the id, as
/// `text_laws` has it for texts without names.
pub fn named_text_laws()
    ensures trees { NamedTextsTellTrees }
    ensures games { NamedTextsTellGames }
    ensures round_trip { NamedRoundTrip }
    ensures ids { NamedIdsComeBack }
{}
