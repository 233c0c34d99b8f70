//! From a folder of grammars to a page.
ghost use Rattle.std.specs.Path.{path_bytes};
ghost use Rattle.std.specs.Prelude.{IfOk, string_bytes};
ghost use Rattle.syntect_example_folder_page.specs.Folders.{ShowsText};

use std::alloc::Global;
use std::path::Path;
use syntect::Error;
use syntect::highlighting::Theme;
use syntect::html::highlighted_html_for_string;
use syntect::laws::{folders_are_loaded, loaded_sets_are_built};
use syntect::parsing::{ScopeRepository, SyntaxSetBuilder};
use syntect::tree::Tree;

/// The page of a text, in the last syntax of an extension, by plain text and the grammars of a
/// folder. Its contract is what the page shows, by the folder's files as they were read.
pub fn page_by_folder<T: Tree>(
    tree: &T,
    alloc: Global,
    folder: Path<'_>,
    extension: &str,
    theme: &Theme,
    text: &str,
    repository: &mut ScopeRepository,
) -> Result<String, Error>
    ensures { IfOk result (λ page. ShowsText (T.told tree.now) (path_bytes folder.entry)
        extension.now repository.old theme.now text.now (string_bytes page)) }
{
    loaded_sets_are_built();
    folders_are_loaded(tree);
    let mut builder = SyntaxSetBuilder::new(alloc);
    builder.add_plain_text_syntax(alloc, repository)?;
    builder.add_from_folder(tree, alloc, folder, true, repository)?;
    let set = builder.build(alloc, repository)?;
    let Some(syntax) = set.find_syntax_by_extension(extension) else {
        return Err(Error::NoSyntax);
    };
    let page = highlighted_html_for_string(alloc, text, &set, syntax, theme)?;
    Ok(page)
}
