//! Languages that are found for a text.
ghost use Rattle.std.specs.Prelude.{◌≡◌, IfOk};
ghost use Rattle.std.specs.Option.{option_copied};
ghost use Rattle.syntect_c.specs.Finds.{language_for};

use crate::kind::Kind;
use crate::refusal::Refusal;
use std::alloc::Global;
use std::path::Path;
use syntect_assets::assets::Assets;
use syntect_easy::parsing::{
    FindWithinError, GhostCount, SyntaxReference, find_syntax_by_first_line_within,
};

/// The language of a text: what the name of its file tells, or else its first line, within the
/// limits.
pub fn language_of<'s>(
    alloc: Global,
    assets: &'s Assets,
    file: &str,
    line: &str,
) -> Result<Option<&'s SyntaxReference>, Refusal>
    ensures { IfOk result
        (λ found. option_copied found ≡ language_for assets.now.set file.now line.now) }
{
    if let Some(syntax) = assets.set.find_syntax_by_file_name(Path::new(file)) {
        return Ok(Some(syntax));
    }
    let (set, limits, mut count) = (&assets.set, &assets.limits, GhostCount::none());
    match find_syntax_by_first_line_within(alloc, set, line, limits, &mut count) {
        Ok(found) => Ok(found),
        Err(FindWithinError::LimitReached(_)) => Err(Refusal::of(Kind::Limit)),
        Err(FindWithinError::Refused(_)) => Err(Refusal::of(Kind::Memory)),
    }
}
