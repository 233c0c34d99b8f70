//! What the sets that match a stack of scopes say.
ghost use Rattle.std.specs.Prelude.{◌≡◌, ◌↔◌, [], map, option_map, IsTrue, IfOk};
ghost use Rattle.std.specs.Option.{option_copied};
ghost use Rattle.syntect_metadata.specs.Ranking.{first_of, answer, pattern_for};

use crate::below::scope::power::MatchPower;
use crate::below::values::seq::Seq;
use crate::items::MetadataItems;
use crate::set::MetadataSet;
use std::alloc::AllocError;
use syntect_regex::regex::Regex;

/// The sets that match a stack of scopes, the best first, each with its score. A question goes to
/// the first that can say something.
#[derive(Drop)]
pub struct ScopedMetadata<'a> {
    /// The sets with their scores.
    pub items: Seq<(MatchPower, &'a MetadataSet)>,
}

/// What a pattern is for.
#[derive(Clone, Copy)]
enum Kind {
    Unindented,
    Decrease,
    Increase,
    Bracket,
    NextLine,
}

/// The pattern of a kind.
fn pattern_for(kind: Kind, items: &MetadataItems) -> Option<&Regex>
    ensures { option_copied result ≡ pattern_for kind items.now }
{
    match kind {
        Kind::Unindented => items.unindented_line_pattern.as_ref(),
        Kind::Decrease => items.decrease_indent_pattern.as_ref(),
        Kind::Increase => items.increase_indent_pattern.as_ref(),
        Kind::Bracket => items.bracket_indent_next_line_pattern.as_ref(),
        Kind::NextLine => items.disable_indent_next_line_pattern.as_ref(),
    }
}

impl<'a> ScopedMetadata<'a> {
    /// The first pattern of a kind.
    fn first_pattern(&self, kind: Kind) -> Option<&Regex>
        ensures { option_copied result
            ≡ first_of (pattern_for kind) (map (λ p. (p.0, p.1.now)) self.now.items) }
    {
        for (_, set) in self.items.as_slice() {
            if let Some(pattern) = pattern_for(kind, &set.items) {
                return Some(pattern);
            }
        }
        None
    }

    /// Whether the first pattern of a kind matches at the start of a line.
    fn asks(&self, kind: Kind, line: &str) -> Result<bool, AllocError>
        ensures { IfOk result (λ yes. yes
            ≡ answer (pattern_for kind) (map (λ p. (p.0, p.1.now)) self.now.items) line.now) }
    {
        match self.first_pattern(kind) {
            Some(pattern) => pattern.is_match(self.items.allocator(), line),
            None => Ok(false),
        }
    }

    /// Whether a line is not looked at: the first `unIndentedLinePattern` matches at its start.
    pub fn unindented_line(&self, line: &str) -> Result<bool, AllocError>
        ensures { IfOk result (λ yes. yes
            ≡ answer (λ i. i.unindented_line_pattern)
            (map (λ p. (p.0, p.1.now)) self.now.items) line.now) }
    {
        self.asks(Kind::Unindented, line)
    }

    /// Whether a line is indented by one less:
    /// the first `decreaseIndentPattern` matches at its start.
    pub fn decrease_indent(&self, line: &str) -> Result<bool, AllocError>
        ensures { IfOk result (λ yes. yes
            ≡ answer (λ i. i.decrease_indent_pattern)
            (map (λ p. (p.0, p.1.now)) self.now.items) line.now) }
    {
        self.asks(Kind::Decrease, line)
    }

    /// Whether the lines after a line are indented by one more: the first `increaseIndentPattern`
    /// matches at its start.
    pub fn increase_indent(&self, line: &str) -> Result<bool, AllocError>
        ensures { IfOk result (λ yes. yes
            ≡ answer (λ i. i.increase_indent_pattern)
            (map (λ p. (p.0, p.1.now)) self.now.items) line.now) }
    {
        self.asks(Kind::Increase, line)
    }

    /// Whether the one line after a line is indented by one more: the first
    /// `bracketIndentNextLinePattern` matches at its start.
    pub fn bracket_increase(&self, line: &str) -> Result<bool, AllocError>
        ensures { IfOk result (λ yes. yes
            ≡ answer (λ i. i.bracket_indent_next_line_pattern)
            (map (λ p. (p.0, p.1.now)) self.now.items) line.now) }
    {
        self.asks(Kind::Bracket, line)
    }

    /// Whether the line after a line is not indented by one more: the first
    /// `disableIndentNextLinePattern` matches at its start.
    pub fn disable_indent_next_line(&self, line: &str) -> Result<bool, AllocError>
        ensures { IfOk result (λ yes. yes
            ≡ answer (λ i. i.disable_indent_next_line_pattern)
            (map (λ p. (p.0, p.1.now)) self.now.items) line.now) }
    {
        self.asks(Kind::NextLine, line)
    }

    /// The mark of comments that go to the end of their line: that of the first set that has one.
    pub fn line_comment(&self) -> Option<&str>
        ensures { option_copied result
            ≡ first_of (λ i. i.line_comment) (map (λ p. (p.0, p.1.now)) self.now.items) }
    {
        for (_, set) in self.items.as_slice() {
            if let Some(mark) = &set.items.line_comment {
                return Some(mark.as_str());
            }
        }
        None
    }

    /// The marks of the start and of the end of comments: those of the first set that has them.
    pub fn block_comment(&self) -> Option<(&str, &str)>
        ensures { option_map (λ m. (m.0.now, m.1.now)) result
            ≡ first_of (λ i. i.block_comment) (map (λ p. (p.0, p.1.now)) self.now.items) }
    {
        for (_, set) in self.items.as_slice() {
            if let Some((start, end)) = &set.items.block_comment {
                return Some((start.as_str(), end.as_str()));
            }
        }
        None
    }

    /// Whether no set matches.
    pub fn is_empty(&self) -> bool
        ensures { IsTrue result ↔ (self.now.items ≡ []) }
    {
        self.items.is_empty()
    }

    /// A copy of the sets with their scores.
    pub fn clone(&self) -> Result<ScopedMetadata<'a>, AllocError>
        ensures { IfOk result (λ scoped. scoped.items ≡ self.now.items) }
    {
        let mut items = Seq::new(self.items.allocator());
        for (power, set) in self.items.as_slice() {
            items.push((power.clone()?, *set))?;
        }
        Ok(ScopedMetadata { items })
    }
}
