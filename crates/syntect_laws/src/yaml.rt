//! Laws of the YAML reader: what a printer writes of a value is read as that value. Each is the
//! contract of a function that does nothing; one call of the reader says the same of its answer.
ghost use Rattle.syntect_laws.specs.YamlLaws.{FlowIsRead, BlockIsRead, ReadFits, IsReadAgain, WritesUtf8};

/// The text of a value on one line has that value: words and numbers, lists in brackets and maps
/// in braces, each text as it is, in single quotes or in double ones, whichever is chosen for it.
pub fn flow_is_read()
    ensures { FlowIsRead }
{}

/// The text of a value over lines has that value: each entry of a map and each item of a list on
/// lines of its own, what is inside of it two columns further right, and a text that is no key
/// also on lines of its own.
pub fn block_is_read()
    ensures { BlockIsRead }
{}

/// Each value that is read is one of those: its numbers fit, its maps have no key twice, and it
/// nests no deeper than is read. So whatever a text says is read again from what a printer writes
/// of it.
pub fn what_is_read_fits()
    ensures fits { ReadFits }
    ensures again { IsReadAgain }
{}

/// What a printer writes of a value whose texts are UTF-8 is UTF-8: it is a text that the reader
/// can be given.
pub fn texts_are_utf8()
    ensures { WritesUtf8 }
{}
