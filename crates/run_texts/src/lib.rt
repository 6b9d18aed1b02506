//! The text of a run: its lines, and which lines begin one.
#![tactic(auto)]

ghost use Rattle.run_texts.specs.Laws.{TextInPieces, RoundsInTurn, ReadsBack, WritesBack, FrontsBegin, LawfulRunsAreFronts};

/// The text of a run is its first line, its rounds from round 0 on and its end line, and more
/// rounds are appended to those before.
pub fn text_in_pieces()
    ensures whole { TextInPieces }
    ensures rounds { RoundsInTurn }
{}

/// What is written of a run is read as its lines, and what is read is the text of a run.
pub fn texts_are_read_as_written()
    ensures again { ReadsBack }
    ensures back { WritesBack }
{}

/// Lines with which a lawful run of a script begins, and those in front of them.
pub fn fronts_begin()
    ensures front { FrontsBegin }
    ensures whole { LawfulRunsAreFronts }
{}
