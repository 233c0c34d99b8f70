//! Laws of lines with classes, which no function needs: what a reader of the page sees. Each is the
//! contract of a function that does nothing.
ghost use Rattle.syntect_writers.specs.Laws.{IsSeen, MarksFollow, PagesAreSeen};

/// Whoever reads the written marks byte by byte sees the text that stands between tags, each byte
/// under the tags of the scopes that are open there, meets no closing tag without an open one, and
/// has the tags of the scopes left open in the end. A span that is left out shows nothing.
pub fn written_marks_are_seen()
    ensures { IsSeen }
{}

/// The marks of a line are its bytes, each under the scopes that the operations give it, and leave
/// the scopes open that stand on the stack after the line.
pub fn marks_follow_the_operations()
    ensures { MarksFollow }
{}

/// Whoever reads a page byte by byte, lines one after another with all spans closed after them that
/// are open, sees the lines joined, each byte under the tags of the scopes that the operations give
/// it; meets no closing tag without an open one, and has no tag left open in the end.
pub fn pages_are_seen()
    ensures { PagesAreSeen }
{}
