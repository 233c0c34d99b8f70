//! The style of a stack of scopes.
ghost use Rattle.std.specs.Prelude.{◌≡◌, ◌+◌, ◌<◌, ◌^◌, ◌++◌, ◌∷◌, [], ℕ, List, length, false, IfOk};
ghost use Rattle.std.specs.List.{filter};
ghost use Rattle.syntect_style.specs.Styling.{style_of, default_style, winners};
ghost use Rattle.syntect_style.specs.Rules.{single_rules, other_rules, last_rules, ScoreAlike};
ghost use Rattle.syntect_style.specs.Buckets.{may_match, bucket_of};
ghost use Rattle.syntect_style.specs.Kept.{AreLeadersOf, AreLarge, AreSmall};

use crate::buckets::{bucket_of, bucketed};
use crate::contest::{Leaders, any_begins, offer_rules};
use crate::others::{Other, OtherLeaders, SmallLeaders, better, better_small, others_of};
use crate::ready::{last_rules, push_others, push_rules};
use crate::scores::Rule;
use crate::syntect_scope::power::MatchPower;
use crate::syntect_scope::scope::Scope;
use crate::syntect_values::seq::Seq;
use std::alloc::{AllocError, Global};
use std::marker::Model;
use syntect_theme::style::{Color, FontStyle, Style, StyleModifier};
use syntect_theme::theme::Theme;

/// A theme, made ready to style stacks of scopes. Contracts see its theme.
#[derive(Debug)]
pub struct Highlighter<'a> {
    theme: &'a Theme,
    /// The rules of one scope, which are scored without large numbers: those that can match a
    /// scope, by its first atom.
    buckets: Vec<Seq<Rule>>,
    /// The rules that are not in `buckets`.
    others: Vec<Other>,
    /// The last scopes of their paths and exclusions, in the same way.
    lasts: Vec<Seq<Rule>>,
}

/// Written out, so that crates above call it and needn't prove each part's drop again.
impl<'a> Drop for Highlighter<'a> {
    fn drop(self) {
        let Highlighter {
            theme: _,
            buckets: _,
            others: _,
            lasts: _,
        } = self;
    }
}

impl<'a> Model for Highlighter<'a> {
    ghost use Rattle.std.specs.Prelude.{map};
    ghost use Rattle.syntect_theme.specs.declared.theme.Theme.{Theme};
    ghost use Rattle.syntect_style.specs.Rules.{rule_from};
    ghost use Rattle.syntect_style.specs.Buckets.{IsReady};

    ghost Value = { Theme };

    ghost view = { λ a. a.theme.now };

    ghost invariant = { λ a. IsReady a.theme.now
        a.buckets.items (map rule_from a.others.items) a.lasts.items };
}

impl<'a> Highlighter<'a> {
    /// Makes a theme ready.
    pub fn new(alloc: Global, theme: &'a Theme) -> Result<Highlighter<'a>, AllocError>
        ensures { IfOk result (λ h. h ≡ theme.now) }
    {
        let mut rules = Vec::new(alloc);
        let mut others = Vec::new(alloc);
        for item in theme.scopes.as_slice() {
            push_rules(&mut rules, item)?;
            push_others(&mut others, item)?;
        }
        let buckets = bucketed(alloc, rules.as_slice())?;
        let last_rules = last_rules(alloc, others.as_slice())?;
        let lasts = bucketed(alloc, last_rules.as_slice())?;
        Ok(Highlighter {
            theme,
            buckets,
            others,
            lasts,
        })
    }

    /// The style of text that no rule styles: the theme's own colours, black where it has no
    /// foreground and white where it has no background, without flags. Takes no memory.
    pub fn get_default(&self) -> Style
        ensures { result ≡ default_style self.now }
    {
        Style {
            foreground: self.theme.settings.foreground.unwrap_or(Color::BLACK),
            background: self.theme.settings.background.unwrap_or(Color::WHITE),
            font_style: FontStyle::empty(),
        }
    }

    /// The style of a stack of scopes, the bottom one first: for each attribute the value of the
    /// rule that prevails, and the default where no rule sets it. Without scopes it is the default
    /// too, but for rules with an empty path, which act everywhere.
    pub fn style_for_stack(&self, stack: &[Scope]) -> Result<Style, AllocError>
        ensures { IfOk result (λ s. s ≡ style_of self.now stack.now) }
    {
        let modifier = self.style_mod_for_stack(stack)?;
        Ok(self.get_default().apply(modifier))
    }

    /// For each attribute the value of the rule that prevails, and `None` where no rule sets it.
    pub fn style_mod_for_stack(&self, stack: &[Scope]) -> Result<StyleModifier, AllocError>
        ensures { IfOk result (λ m. m ≡ winners self.now stack.now) }
    {
        let others = self.others_in(stack)?;
        self.finished(self.leaders_of(stack), &others)
    }

    /// What stands after the single rules.
    fn leaders_of(&self, stack: &[Scope]) -> Leaders
        ensures { AreLeadersOf self.now stack.now result }
    {
        let mut leaders = self.bottom();
        for (place, scope) in stack.iter().enumerate() {
            self.raise(&mut leaders, *scope, place);
        }
        leaders
    }

    /// What stands before the first scope.
    pub(crate) fn bottom(&self) -> Leaders
        ensures { AreLeadersOf self.now [] result }
    {
        Leaders {
            foreground: None,
            background: None,
            font_style: None,
        }
    }

    /// Puts one scope more on top, at a place, of a stack for which these values stand after the
    /// single rules.
    pub(crate) fn raise(&self, leaders: &mut Leaders, top: Scope, place: usize)
        requires { place + 1 < 2 ^ 64 }
        ensures { (stack : List (List ℕ)) → length stack ≡ place
            → AreLeadersOf self.now stack leaders.old
            → AreLeadersOf self.now (stack ++ top ∷ []) leaders.new }
    {
        offer_rules(leaders, self.rules_for(top), top, place);
    }

    /// Whether one of the other rules may have another score, with one scope more on top.
    pub(crate) fn touches(&self, top: Scope) -> bool
        ensures { result ≡ false → (stack : List (List ℕ))
            → ScoreAlike (other_rules self.now) stack (stack ++ top ∷ []) }
    {
        any_begins(self.lasts_for(top), top)
    }

    /// Of the last scopes of the other rules' paths and exclusions those that can begin a scope.
    fn lasts_for(&self, scope: Scope) -> &[Rule]
        ensures { result.now
            ≡ filter (may_match (bucket_of scope)) (last_rules (other_rules self.now)) }
    {
        self.lasts[bucket_of(scope)].as_slice()
    }

    /// The single rules that can match a scope.
    fn rules_for(&self, scope: Scope) -> &[Rule]
        ensures { result.now ≡ filter (may_match (bucket_of scope)) (single_rules self.now) }
    {
        self.buckets[bucket_of(scope)].as_slice()
    }

    /// What the other rules come to.
    pub(crate) fn others_in(&self, stack: &[Scope]) -> Result<OtherLeaders, AllocError>
        ensures { IfOk result (AreLarge self.now stack.now) }
    {
        let all = others_of(self.others.as_slice(), stack)?;
        Ok(all)
    }

    /// The values that prevail, where these stand after the single rules and those are what the
    /// other rules come to.
    pub(crate) fn finished(
        &self,
        single: Leaders,
        others: &OtherLeaders,
    ) -> Result<StyleModifier, AllocError>
        ensures { IfOk result (λ m. (stack : List (List ℕ)) → AreLeadersOf self.now stack single
            → AreLarge self.now stack others.now → m ≡ winners self.now stack) }
    {
        let alloc = *self.others.allocator();
        Ok(StyleModifier {
            foreground: better(alloc, single.foreground, &others.foreground)?,
            background: better(alloc, single.background, &others.background)?,
            font_style: better(alloc, single.font_style, &others.font_style)?,
        })
    }

    /// The values that prevail, where `single` stand after the single rules, and the other rules'
    /// scores are small.
    pub(crate) fn finished_small(&self, single: Leaders, others: SmallLeaders) -> StyleModifier
        ensures { (stack : List (List ℕ)) → AreLeadersOf self.now stack single
            → AreSmall self.now stack others → result ≡ winners self.now stack }
    {
        StyleModifier {
            foreground: better_small(single.foreground, others.foreground),
            background: better_small(single.background, others.background),
            font_style: better_small(single.font_style, others.font_style),
        }
    }
}

/// A style in the making: for each attribute the score that was reached, `None` where no rule has
/// set it yet, and the value.
#[derive(Debug, Drop, PartialEq, Eq)]
pub struct ScoredStyle {
    /// The colour of the text.
    pub foreground: (Option<MatchPower>, Color),
    /// The colour behind the text.
    pub background: (Option<MatchPower>, Color),
    /// The flags of its font.
    pub font_style: (Option<MatchPower>, FontStyle),
}

impl ScoredStyle {
    /// A copy of the style with its scores.
    pub fn clone(&self) -> Result<ScoredStyle, AllocError>
        ensures { IfOk result (λ s. s ≡ self.now) }
    {
        Ok(ScoredStyle {
            foreground: (self.foreground.0.clone()?, self.foreground.1),
            background: (self.background.0.clone()?, self.background.1),
            font_style: (self.font_style.0.clone()?, self.font_style.1),
        })
    }
}

impl Clone for ScoredStyle {
    ghost is_clone = { λ x y. y ≡ x };

    fn clone(&self) -> Result<ScoredStyle, AllocError> {
        ScoredStyle::clone(self)
    }
}
