//! Lines in memory, after which reading fails.
ghost use Rattle.std.specs.Prelude.{◌≡◌, ◌⊎◌, List, IfErr};
ghost use Rattle.std.specs.IoError.{error_kind};
ghost use Rattle.syntect_test_trees.specs.syntect_easy.Built.{IsSyntaxOfBuilt};
ghost use Rattle.syntect_test_trees.specs.syntect_easy.Files.{FaultsAre};
ghost use Rattle.syntect_test_trees.specs.syntect_grammar_loader.declared.definition.SyntaxDefinition.{SyntaxDefinition as ADefinition};

use crate::below::base::lines::ReadLines;
use crate::below::easy::Error;
use crate::below::easy::html::highlighted_html_for_reader;
use crate::below::parsing::syntax_set::{SyntaxReference, SyntaxSet};
use crate::below::theme::theme::Theme;
use std::alloc::Global;
use std::io;
use std::io::{BufRead, ErrorKind};

/// Lines, after which a read finds a pipe that is broken.
#[derive(Clone, Copy)]
pub struct FailingLines {
    pub left: &'static [u8],
}

impl ReadLines for FailingLines {
    ghost use Rattle.std.specs.Prelude.{◌≡◌, None};
    ghost use Rattle.std.specs.IoError.{error_kind};
    ghost use Rattle.std.specs.declared.io.ErrorKind.TheVariants.{BrokenPipe};

    ghost ahead = { λ lines. None };

    ghost failed = { λ lines e. error_kind e ≡ BrokenPipe };

    fn read_next(&mut self, line: &mut Vec<u8>) -> io::Result<usize> {
        if self.left.is_empty() {
            return Err(io::Error::from(ErrorKind::BrokenPipe));
        }
        match self.left.read_until(b'\n', line) {
            Ok(count) => Ok(count),
            Err(_) => Err(io::Error::from(ErrorKind::BrokenPipe)),
        }
    }
}

/// The page of such lines is refused by a fault of reading only where the pipe was broken, or a
/// line is not UTF-8.
pub fn page_of_failing(
    alloc: Global,
    lines: FailingLines,
    set: &SyntaxSet,
    syntax: &SyntaxReference,
    theme: &Theme,
) -> Result<String, Error>
    ensures { (definitions : List ADefinition)
        → IsSyntaxOfBuilt set.now syntax.now definitions
        → IfErr result (FaultsAre (λ e. (error_kind e ≡ ErrorKind.BrokenPipe)
        ⊎ (error_kind e ≡ ErrorKind.InvalidData))) }
{
    highlighted_html_for_reader(alloc, lines, set, syntax, theme)
}
