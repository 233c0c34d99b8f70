//! The lines of a file, highlighted within limits.
ghost use Rattle.std.specs.Prelude.{List, IfErr, IfOk, string_bytes};
ghost use Rattle.std.specs.Path.{path_bytes};
ghost use Rattle.syntect_cat.specs.syntect_grammar_loader.declared.definition.SyntaxDefinition.{SyntaxDefinition as ADefinition};
ghost use Rattle.syntect_cat.specs.syntect_easy.Built.{IsBuilt};
ghost use Rattle.syntect_cat.specs.Texts.{IsFaultOfFile, ShowsFile};

use crate::below::base::limits::Limits;
use crate::below::base::tree::Tree;
use crate::below::easy::Error;
use crate::below::easy::easy::HighlightFile;
use crate::below::easy::reading::FileLines;
use crate::below::parsing::syntax_set::SyntaxSet;
use crate::below::theme::theme::Theme;
use crate::job::Format;
use crate::note::{Note, note_of};
use std::alloc::Global;
use std::path::Path;
use syntect_assets::lines::text_of_lines;

/// A file's text in a format, with what is reported of limits that were reached. The syntax is that
/// of the file, or else plain text.
pub(crate) fn text_of_file<T: Tree>(
    tree: &T,
    alloc: Global,
    path: Path<'_>,
    format: Format,
    set: &SyntaxSet,
    theme: &Theme,
) -> Result<(String, Option<Note>), Error>
    ensures shown { (definitions : List ADefinition) → IsBuilt set.now definitions
        → IfOk result (λ r. ShowsFile (T.told tree.now) format set.now theme.now
        (path_bytes path.entry) (string_bytes r.0) r.1) }
    ensures refused { IfErr result (IsFaultOfFile (T.told tree.now) (path_bytes path.entry)) }
{
    let limits = Limits::default();
    let opened = HighlightFile::new_or_plain(tree, alloc, path, set, theme, &limits);
    let (file, limit) = match opened {
        Ok(opened) => opened,
        Err(e) => return Err(e),
    };
    let lines = FileLines {
        tree,
        path: path.as_str(),
        reader: file.reader,
    };
    let (highlighter, form) = (file.highlight_lines, format.form());
    let written = text_of_lines(alloc, lines, highlighter, form, set, theme, &limits);
    let (text, first) = match written {
        Ok(written) => written,
        Err(e) => return Err(e.into_error()),
    };
    Ok((text, note_of(limit, first)))
}
