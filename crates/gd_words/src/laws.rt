//! The law of the grammar.

ghost use Rattle.gd_words.specs.Laws.{HasOneJob};

/// Words say at most one job. It has no code.
pub fn words_laws()
    ensures { HasOneJob }
{}
