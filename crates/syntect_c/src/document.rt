//! What the handle of a document holds: where a text that is read line by line stands.
ghost use Rattle.std.specs.Prelude.{◌≡◌, ◌≢◌, IfOk, OnOk, pos};
ghost use Rattle.syntect_assets.specs.declared.assets.Assets.{Assets as AnAssets};
ghost use Rattle.syntect_c.specs.Documents.{AnswersLine, AreStatesOf, Begins, BeginsIn, ReadsLine, SameNames, StandsAfter};
ghost use Rattle.syntect_c.specs.declared.set.Stage.TheVariants.{Linked};
ghost use Rattle.syntect_easy.specs.Leads.{IsPast, Past};

use crate::kind::Kind;
use crate::refusal::Refusal;
use crate::set::{SetContent, Stage};
use crate::span::{Span, spans_of};
use std::alloc::Global;
use syntect_assets::assets::Assets;
use syntect_assets::below::parsing::parser::ParseState;
use syntect_assets::below::style::state::HighlightState;
use syntect_assets::below::values::text::Text;
use syntect_assets::error::AssetsError;
use syntect_easy::easy::HighlightLines;

/// Where a highlighter of lines stands after the lines so far.
#[derive(Drop)]
pub struct States {
    /// The stack of scopes, with what is known of their styles.
    pub styles: HighlightState,
    /// The reader of lines.
    pub reader: ParseState,
}

/// A text that is read line by line.
#[derive(Drop)]
pub struct DocContent {
    /// Where it stands. Where memory ran out on the way it is lost.
    pub states: Option<States>,
    /// The name of its language.
    pub language: Text,
    /// The name of its theme.
    pub theme: Text,
    /// The spans of the last line that was read.
    pub spans: Vec<Span>,
    /// Why the last call was refused that was.
    pub fault: String,
}

/// The states that a highlighter holds.
fn states_of(lines: HighlightLines<'_>) -> States
    ensures { AreStatesOf lines.entry result }
{
    let (styles, reader) = lines.state();
    States { styles, reader }
}

/// The states before the first line of a text in the language of a name, by the theme of a name.
fn first_states(
    alloc: Global,
    assets: &Assets,
    language: &str,
    theme: &str,
) -> Result<States, AssetsError>
    ensures { IfOk result (Begins assets.now language.now theme.now) }
{
    let syntax = assets.language(alloc, language)?;
    let theme = assets.theme(alloc, theme)?;
    let lines = HighlightLines::new(alloc, syntax, theme)?;
    Ok(states_of(lines))
}

/// The spans of the next line, within the limits of a set.
fn read(
    alloc: Global,
    assets: &Assets,
    lines: &mut HighlightLines<'_>,
    line: &str,
) -> Result<Vec<Span>, AssetsError>
    ensures answered { (past : Past) → IsPast past assets.now.set lines.old → IfOk result
        (λ spans. AnswersLine assets.now past line.entry lines.old lines.new spans.items) }
{
    let (pieces, _) = lines.highlight_line_or_plain(alloc, line, &assets.set, &assets.limits)?;
    Ok(spans_of(alloc, pieces.as_slice())?)
}

/// The set of a content, whose grammars have to be linked.
fn linked(set: &SetContent) -> Result<&Assets, Refusal>
    ensures { IfOk result (λ assets. set.now.stage ≡ Linked assets.now) }
{
    match &set.stage {
        Stage::Linked(assets) => Ok(assets),
        Stage::Gathering(_) => Err(Refusal::of(Kind::Empty)),
        Stage::Lost => Err(Refusal::of(Kind::Memory)),
    }
}

impl DocContent {
    /// A text in the language of a name, by the theme of a name, before its first line.
    pub fn new(
        alloc: Global,
        set: &SetContent,
        language: &str,
        theme: &str,
    ) -> Result<DocContent, Refusal>
        ensures { IfOk result (BeginsIn set.now language.now theme.now) }
    {
        let assets = linked(set)?;
        let states = match first_states(alloc, assets, language, theme) {
            Ok(states) => states,
            Err(e) => return Err(Refusal::of_assets(alloc, &e)),
        };
        Ok(DocContent {
            states: Some(states),
            language: Text::from_str(alloc, language)?,
            theme: Text::from_str(alloc, theme)?,
            spans: Vec::new(alloc),
            fault: String::new(alloc),
        })
    }

    /// Puts the text before its first line. What was read is forgotten.
    pub fn reset(&mut self, alloc: Global, set: &SetContent) -> Result<(), Refusal>
        ensures names { SameNames self.old self.new }
        ensures begins { OnOk result
            (BeginsIn set.now self.old.language self.old.theme self.new) }
    {
        let assets = linked(set)?;
        let (language, theme) = (self.language.as_str(), self.theme.as_str());
        match first_states(alloc, assets, language, theme) {
            Ok(states) => {
                self.states = Some(states);
                Ok(())
            }
            Err(e) => Err(Refusal::of_assets(alloc, &e)),
        }
    }

    /// Reads the next line, within the limits of the set, and keeps its spans. The set has to be the
    /// one that the lines before were read with.
    pub fn read_line(&mut self, alloc: Global, set: &SetContent, line: &str) -> Result<(), Refusal>
        ensures names { SameNames self.old self.new }
        ensures read { (past : Past) (assets : AnAssets) → set.now.stage ≡ Linked assets
            → StandsAfter past assets self.old
            → OnOk result (ReadsLine past assets line.now self.new) }
    {
        let assets = linked(set)?;
        let theme = match assets.theme(alloc, self.theme.as_str()) {
            Ok(theme) => theme,
            Err(e) => return Err(Refusal::of_assets(alloc, &e)),
        };
        let Some(States { styles, reader }) = self.states.take() else {
            return Err(Refusal::of(Kind::Memory));
        };
        let mut lines = HighlightLines::from_state(alloc, theme, styles, reader)?;
        let answer = read(alloc, assets, &mut lines, line);
        self.states = Some(states_of(lines));
        match answer {
            Ok(spans) => {
                self.spans = spans;
                Ok(())
            }
            Err(e) => Err(Refusal::of_assets(alloc, &e)),
        }
    }

    /// Keeps the text of a refusal, and answers its number for C.
    pub fn tell(&mut self, alloc: Global, refusal: Refusal) -> i32
        ensures states { self.new.states ≡ self.old.states }
        ensures spans { self.new.spans ≡ self.old.spans }
        ensures names { SameNames self.old self.new }
        ensures refused { result ≢ pos 0 }
    {
        let (number, told) = refusal.into_told(alloc);
        self.fault = told;
        number
    }
}
