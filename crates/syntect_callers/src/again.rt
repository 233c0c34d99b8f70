//! A caller of the highlighter that takes it apart and makes it again.
ghost use Rattle.std.specs.Prelude.{◌≡◌, IfOk};
ghost use Rattle.syntect_easy.specs.Leads.{HoldsSame, theme_of};

use std::alloc::{AllocError, Global};
use syntect_easy::easy::HighlightLines;
use syntect_easy::highlighting::Theme;
use syntect_easy::laws::states_go_on;

/// The highlighter of the states that another one gives away, under its theme: it stands where that
/// one stood.
pub fn taken_up_again<'a>(
    alloc: Global,
    theme: &'a Theme,
    lines: HighlightLines<'_>,
) -> Result<HighlightLines<'a>, AllocError>
    ensures { theme_of lines.entry ≡ theme.now → IfOk result (HoldsSame lines.entry) }
{
    states_go_on();
    let (styles, reader) = lines.state();
    HighlightLines::from_state(alloc, theme, styles, reader)
}
