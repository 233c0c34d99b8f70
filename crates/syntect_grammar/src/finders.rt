//! Finding a syntax of a set: the last one that fits.
ghost use Rattle.std.specs.Prelude.{◌≡◌, ◌==◌, ◌∷◌, IfOk, IsOk, IfErr};
ghost use Rattle.std.specs.List.{ends_with};
ghost use Rattle.std.specs.Option.{option_copied};
ghost use Rattle.std.specs.Path.{path_bytes};
ghost use Rattle.std.specs.Str.{str_eq_ignore_ascii_case};
ghost use Rattle.syntect_grammar.specs.Finding.{found_by_scope, found_by_name, found_by_extension, found_by_token, found_plain_text, has_extension, last_fitting, without_mark, fits_line, found_by_first_line, ends_in_path, found_by_path, found_by_file_name, IsFoundFor, NotFoundFor};
ghost use Rattle.syntect_grammar.specs.Link.{syntaxes_in, set_paths};

use crate::below::base::tree::{Tree, first_line};
use crate::below::regexes::region::Region;
use crate::below::scope::scope::Scope;
use crate::below::values::text::Text;
use crate::error::Error;
use crate::syntax_set::{SyntaxReference, SyntaxSet};
use std::alloc::{AllocError, Global};
use std::path::Path;

/// Whether a syntax has an extension, the case of ASCII letters aside.
fn has_extension(syntax: &SyntaxReference, extension: &str) -> bool
    ensures { result ≡ has_extension extension.now syntax.now }
{
    syntax
        .file_extensions
        .iter()
        .any(|e| e.as_str().eq_ignore_ascii_case(extension))
}

/// A line without the byte order mark that it may begin with.
pub fn without_mark(line: &str) -> &str
    ensures { result.now ≡ without_mark line.now }
{
    if line.as_bytes().starts_with(&[0xEF, 0xBB, 0xBF]) {
        line.split_at(3).1
    } else {
        line
    }
}

/// Whether the first-line pattern of a syntax is found in a line.
fn fits_line(syntax: &SyntaxReference, line: &str, region: &mut Region) -> Result<bool, AllocError>
    ensures { IfOk result (λ fits. fits ≡ fits_line line.now syntax.now) }
{
    match &syntax.first_line {
        Some(pattern) => pattern.search_into(line, 0, line.len(), region),
        None => Ok(false),
    }
}

/// Whether a whole path ends with this one after a slash.
fn ends_behind_slash(whole: &[u8], path: &[u8]) -> bool
    ensures { result ≡ ends_with ◌==◌ whole.now (47 ∷ path.now) }
{
    if whole.len() <= path.len() {
        return false;
    }
    let from = whole.len() - path.len();
    whole[from - 1] == b'/' && path == &whole[from..]
}

/// Whether a whole path is this one, or ends with it after a slash.
fn ends_in_path(whole: &str, path: &str) -> bool
    ensures { result ≡ ends_in_path whole.now path.now }
{
    whole == path || ends_behind_slash(whole.as_bytes(), path.as_bytes())
}

impl SyntaxSet {
    /// The last syntax of this scope. Takes no memory.
    pub fn find_syntax_by_scope(&self, scope: Scope) -> Option<&SyntaxReference>
        ensures { option_copied result ≡ found_by_scope self.now scope }
    {
        self.syntaxes().iter().rev().find(|s| s.scope == scope)
    }

    /// The last syntax of this name. Takes no memory.
    pub fn find_syntax_by_name(&self, name: &str) -> Option<&SyntaxReference>
        ensures { option_copied result ≡ found_by_name self.now name.now }
    {
        self.syntaxes()
            .iter()
            .rev()
            .find(|s| s.name.as_str() == name)
    }

    /// The last syntax of this extension or whole file name, ASCII case aside. Takes no memory.
    pub fn find_syntax_by_extension(&self, extension: &str) -> Option<&SyntaxReference>
        ensures { option_copied result ≡ found_by_extension self.now extension.now }
    {
        self.syntaxes()
            .iter()
            .rev()
            .find(|s| has_extension(s, extension))
    }

    /// The last syntax of this extension, or else of this name, ASCII case aside. Takes no memory.
    pub fn find_syntax_by_token(&self, token: &str) -> Option<&SyntaxReference>
        ensures { option_copied result ≡ found_by_token self.now token.now }
    {
        match self.find_syntax_by_extension(token) {
            Some(syntax) => Some(syntax),
            None => self.find_by_name_in_any_case(token),
        }
    }

    /// The last syntax of this name, the case of ASCII letters aside.
    fn find_by_name_in_any_case(&self, name: &str) -> Option<&SyntaxReference>
        ensures { option_copied result
            ≡ last_fitting (λ s. str_eq_ignore_ascii_case s.name name.now)
            (syntaxes_in self.now) }
    {
        self.syntaxes()
            .iter()
            .rev()
            .find(|s| s.name.as_str().eq_ignore_ascii_case(name))
    }

    /// The last syntax of the name `Plain Text`. Takes no memory.
    pub fn find_syntax_plain_text(&self) -> Option<&SyntaxReference>
        ensures { option_copied result ≡ found_plain_text self.now }
    {
        self.find_syntax_by_name("Plain Text")
    }

    /// The last syntax whose first-line pattern is found in the line, a byte order mark at its
    /// start aside. A text that is no pattern is found nowhere.
    #[tactic(auto, using(crate::proofs::FindLaws::one_before))]
    pub fn find_syntax_by_first_line(
        &self,
        line: &str,
    ) -> Result<Option<&SyntaxReference>, AllocError>
        ensures { IfOk result (λ found. option_copied found
            ≡ found_by_first_line self.now line.now) }
    {
        let line = without_mark(line);
        let mut region = Region::new(self.allocator());
        let syntaxes = self.syntaxes();
        let mut left = syntaxes.len();
        while left > 0 {
            left -= 1;
            let syntax = &syntaxes[left];
            match fits_line(syntax, line, &mut region) {
                Ok(true) => return Ok(Some(syntax)),
                Ok(false) => {}
                Err(e) => return Err(e),
            }
        }
        Ok(None)
    }

    /// The place of the syntax that was loaded last from a file of this path.
    fn place_of_path(&self, path: &str) -> Option<&(Text, usize)>
        ensures { option_copied result
            ≡ last_fitting (λ entry. ends_in_path entry.0 path.now) (set_paths self.now) }
    {
        self.paths()
            .iter()
            .rev()
            .find(|entry| ends_in_path(entry.0.as_str(), path))
    }

    /// The syntax loaded last from a file of this path: the whole one, or its end after a slash.
    pub fn find_syntax_by_path(&self, path: &str) -> Result<Option<&SyntaxReference>, AllocError>
        ensures answers { IsOk result }
        ensures found { IfOk result
            (λ found. option_copied found ≡ found_by_path self.now path.now) }
    {
        match self.place_of_path(path) {
            Some(entry) => Ok(self.syntaxes().get(entry.1)),
            None => Ok(None),
        }
    }

    /// What the path of a file tells: the last syntax that has its whole name as extension, or else
    /// its extension. No file is opened, and no memory taken.
    pub fn find_syntax_by_file_name(&self, path: Path<'_>) -> Option<&SyntaxReference>
        ensures { option_copied result ≡ found_by_file_name self.now (path_bytes path.entry) }
    {
        match self.find_syntax_by_extension(path.file_name().unwrap_or("")) {
            Some(syntax) => Some(syntax),
            None => self.find_syntax_by_extension(path.extension().unwrap_or("")),
        }
    }

    /// The syntax of a file: as `find_syntax_by_file_name` finds it, or else the last whose
    /// first-line pattern is found in the file's first line. The file is opened only where its path
    /// tells nothing; `Io` where that fails, or the line can't be read or isn't UTF-8.
    pub fn find_syntax_for_file<T: Tree>(
        &self,
        tree: &T,
        alloc: Global,
        path: Path<'_>,
    ) -> Result<Option<&SyntaxReference>, Error>
        ensures found { IfOk result (λ found.
            IsFoundFor (T.told tree.now) self.now (path_bytes path.entry) (option_copied found)) }
        ensures refused { IfErr result
            (NotFoundFor (T.told tree.now) self.now (path_bytes path.entry)) }
    {
        if let Some(syntax) = self.find_syntax_by_file_name(path) {
            return Ok(Some(syntax));
        }
        let line = match first_line(tree, alloc, path.as_str()) {
            Ok(line) => line,
            Err(e) => return Err(Error::from(e)),
        };
        match self.find_syntax_by_first_line(line.as_str()) {
            Ok(found) => Ok(found),
            Err(_) => Err(Error::Memory),
        }
    }
}
