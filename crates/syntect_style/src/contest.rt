//! The contest of a theme's single rules for the attributes of a stack's style.
ghost use Rattle.std.specs.Prelude.{◌≡◌, ◌<◌, ◌+◌, ◌^◌, Some, None, IfSome, length};
ghost use Rattle.std.specs.List.{list_any};
ghost use Rattle.syntect_style.specs.syntect_scope.Atoms.{is_prefix};
ghost use Rattle.syntect_style.specs.Candidates.{candidate, deepest};
ghost use Rattle.syntect_style.specs.Rules.{score_from, candidate_from, against, after_top};

use crate::scores::{Rule, SingleScore};
use crate::syntect_scope::scope::Scope;
use syntect_theme::style::{Color, FontStyle};

/// The deepest place of a stack whose scope the given one begins.
pub(crate) fn deepest(scope: Scope, stack: &[Scope]) -> Option<usize>
    ensures place { result ≡ deepest scope stack.now }
    ensures within { IfSome result (λ p. p < length stack.now) }
{
    let mut at = stack.len();
    while at > 0 {
        at -= 1;
        if scope.is_prefix_of(stack[at]) {
            return Some(at);
        }
    }
    None
}

/// Puts a value in the place of the best one so far, if its score beats that one's.
fn offer<V: Copy>(best: &mut Option<(SingleScore, V)>, score: SingleScore, value: Option<V>)
    ensures { candidate_from best.new
        ≡ against (candidate_from best.old) (candidate value (Some (score_from score))) }
{
    if let Some(value) = value {
        let wins = match best {
            Some((before, _)) => score.beats(before),
            None => true,
        };
        if wins {
            *best = Some((score, value));
        }
    }
}

/// The values that stand so far after the single rules, each with the score of its rule.
#[derive(Clone, Copy, Debug)]
pub(crate) struct Leaders {
    pub(crate) foreground: Option<(SingleScore, Color)>,
    pub(crate) background: Option<(SingleScore, Color)>,
    pub(crate) font_style: Option<(SingleScore, FontStyle)>,
}

/// Whether a rule's scope begins this one.
pub(crate) fn any_begins(rules: &[Rule], top: Scope) -> bool
    ensures { result ≡ list_any (λ r. is_prefix r.scope top) rules.now }
{
    for rule in rules {
        if rule.scope.is_prefix_of(top) {
            return true;
        }
    }
    false
}

/// Puts the values of the rules that match a scope, at its place, in the place of the best ones so
/// far, where their scores beat those.
pub(crate) fn offer_rules(best: &mut Leaders, rules: &[Rule], top: Scope, place: usize)
    requires { place + 1 < 2 ^ 64 }
    ensures foreground { candidate_from best.new.foreground
        ≡ after_top (λ m. m.foreground) top place (candidate_from best.old.foreground) rules.now }
    ensures background { candidate_from best.new.background
        ≡ after_top (λ m. m.background) top place (candidate_from best.old.background) rules.now }
    ensures font_style { candidate_from best.new.font_style
        ≡ after_top (λ m. m.font_style) top place (candidate_from best.old.font_style) rules.now }
{
    for rule in rules {
        if rule.scope.is_prefix_of(top) {
            let score = SingleScore {
                atoms: rule.scope.len(),
                place,
            };
            offer(&mut best.foreground, score, rule.style.foreground);
            offer(&mut best.background, score, rule.style.background);
            offer(&mut best.font_style, score, rule.style.font_style);
        }
    }
}
