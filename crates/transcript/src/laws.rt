//! Laws of transcripts.

ghost use Rattle.transcript.specs.Laws.{LinesReadBack, LinesWriteBack, ShortTextsAreWhole, LimitOnlyRefuses, LongTextsAreCut};

/// What is written of lines is read as these lines, and what is read is written as the same bytes.
pub fn lines_are_read_as_written()
    ensures again { LinesReadBack }
    ensures back { LinesWriteBack }
{}

/// The limit on the bytes of a text refuses longer texts, by the bytes up to the one behind the
/// limit, and changes no other answer.
pub fn limit_only_refuses()
    ensures within { ShortTextsAreWhole }
    ensures read { LimitOnlyRefuses }
    ensures cut { LongTextsAreCut }
{}
