//! What holds of all texts of lines.
//!
//! Each law is the contract of a function that does nothing: it is proved with the crate, and can be cited.

ghost use Rattle.trace_text.specs.Table.{TextTellsLines};
ghost use Rattle.trace_text.specs.Laws.{BadBeginsNoLines, BeginsWithItsFirstLines, EndsAtLineFeed, FrontIsNoLine, HasOneAnswerEach, IsCutInOneWay, IsOneLine, LineIsReadBack, LinesAreReadBack, LinesBehindLines, OnlyLinesAreReadBack, ToldAreFirst, ToldAreWhole, WrittenAreLines};

/// A text is the text of one list of lines, if their numbers are within the bounds of the trace language.
pub fn text_tells_lines()
    ensures { TextTellsLines }
{}

/// A text is one line at most. It ends at its first line feed, so that nothing before that is a line.
pub fn text_tells_a_line()
    ensures one { IsOneLine }
    ensures end { EndsAtLineFeed }
    ensures front { FrontIsNoLine }
{}

/// A text is one list of lines at most, those of instances among them, and is cut into their texts in one way.
pub fn text_is_cut_in_one_way()
    ensures one_way { IsCutInOneWay }
    ensures first { BeginsWithItsFirstLines }
    ensures behind { LinesBehindLines }
{}

/// Written lines are read back, one or many: more is asked for at each byte of a line's text but the last,
/// and there the line is told.
pub fn lines_are_read_back()
    ensures line { LineIsReadBack }
    ensures lines { LinesAreReadBack }
    ensures one_answer { HasOneAnswerEach }
    ensures written { WrittenAreLines }
{}

/// Only lines are read back: a text whose last byte is a line feed and of which no byte is bad is the lines that
/// are told, one after another. If a byte is bad, no lines have a text that begins with the bytes up to it.
pub fn only_lines_are_read_back()
    ensures only { OnlyLinesAreReadBack }
    ensures bad { BadBeginsNoLines }
    ensures told { ToldAreFirst }
    ensures ended { ToldAreWhole }
{}
