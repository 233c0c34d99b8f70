//! The contest of the rules whose selectors have several scopes, none, or exclusions.
ghost use Rattle.std.specs.Prelude.{◌≡◌, false, map, None, IfOk, IfSome, OnOk};
ghost use Rattle.std.specs.Option.{option_map};
ghost use Rattle.syntect_style.specs.syntect_scope.Choice.{selector_score};
ghost use Rattle.syntect_style.specs.Rules.{against, candidate_from, other_from, other_candidate};
ghost use Rattle.syntect_style.specs.Rules.{after_other, best_other, rule_from};

use crate::contest::deepest;
use crate::scores::SingleScore;
use crate::syntect_scope::power::MatchPower;
use crate::syntect_scope::scope::Scope;
use crate::syntect_scope::selector::ScopeSelector;
use std::alloc::{AllocError, Global};
use syntect_theme::style::{Color, FontStyle, StyleModifier};

/// A selector with the change that its rule makes.
#[derive(Debug, Drop)]
pub(crate) struct Other {
    pub(crate) selector: ScopeSelector,
    pub(crate) style: StyleModifier,
}

/// The values that stand so far, each with the score of its rule.
#[derive(Drop)]
pub(crate) struct OtherLeaders {
    pub(crate) foreground: Option<(MatchPower, Color)>,
    pub(crate) background: Option<(MatchPower, Color)>,
    pub(crate) font_style: Option<(MatchPower, FontStyle)>,
}

/// The values that stand so far, each with the score of its rule, where the scores are small.
#[derive(Clone, Copy, Debug)]
pub(crate) struct SmallLeaders {
    pub(crate) foreground: Option<(u64, Color)>,
    pub(crate) background: Option<(u64, Color)>,
    pub(crate) font_style: Option<(u64, FontStyle)>,
}

/// What stands before the first rule: nothing.
pub(crate) fn no_others() -> OtherLeaders
    ensures foreground { other_from result.foreground ≡ None }
    ensures background { other_from result.background ≡ None }
    ensures font_style { other_from result.font_style ≡ None }
{
    OtherLeaders {
        foreground: None,
        background: None,
        font_style: None,
    }
}

/// Puts a value in the place of the best one so far, if its score is greater.
fn offer<V: Copy>(
    best: &mut Option<(MatchPower, V)>,
    power: &MatchPower,
    value: Option<V>,
) -> Result<(), AllocError>
    ensures { OnOk result (other_from best.new
        ≡ against (other_from best.old) (other_candidate value power.now)) }
{
    let Some(value) = value else {
        return Ok(());
    };
    let wins = match best {
        Some((before, _)) => *before < *power,
        None => true,
    };
    if wins {
        *best = Some((power.clone()?, value));
    }
    Ok(())
}

/// Puts the values of a rule in the place of the best ones so far, where its score is greater.
fn offer_all(
    best: &mut OtherLeaders,
    power: &MatchPower,
    style: StyleModifier,
) -> Result<(), AllocError>
    ensures foreground { OnOk result (other_from best.new.foreground
        ≡ against (other_from best.old.foreground) (other_candidate style.foreground power.now)) }
    ensures background { OnOk result (other_from best.new.background
        ≡ against (other_from best.old.background) (other_candidate style.background power.now)) }
    ensures font_style { OnOk result (other_from best.new.font_style
        ≡ against (other_from best.old.font_style) (other_candidate style.font_style power.now)) }
{
    offer(&mut best.foreground, power, style.foreground)?;
    offer(&mut best.background, power, style.background)?;
    offer(&mut best.font_style, power, style.font_style)
}

/// Whether a selector can have a score in a stack: where it has a path, its last scope begins one
/// of the stack.
#[tactic(auto, using(crate::proofs::OtherLaws::no_score))]
fn can_match(selector: &ScopeSelector, stack: &[Scope]) -> bool
    ensures { result ≡ false → selector_score selector.now stack.now ≡ None }
{
    match selector.path.as_slice().last() {
        None => true,
        Some(last) => deepest(*last, stack).is_some(),
    }
}

/// A rule against the best ones so far.
fn add_other(best: &mut OtherLeaders, other: &Other, stack: &[Scope]) -> Result<(), AllocError>
    ensures foreground { OnOk result (other_from best.new.foreground
        ≡ after_other (λ m. m.foreground) stack.now
        (other_from best.old.foreground) (rule_from other.now)) }
    ensures background { OnOk result (other_from best.new.background
        ≡ after_other (λ m. m.background) stack.now
        (other_from best.old.background) (rule_from other.now)) }
    ensures font_style { OnOk result (other_from best.new.font_style
        ≡ after_other (λ m. m.font_style) stack.now
        (other_from best.old.font_style) (rule_from other.now)) }
{
    if !can_match(&other.selector, stack) {
        return Ok(());
    }
    let power = match other.selector.does_match(stack) {
        Ok(power) => power,
        Err(e) => return Err(e),
    };
    match power {
        None => Ok(()),
        Some(power) => offer_all(best, &power, other.style),
    }
}

/// For each attribute the value of the rule that prevails among those that are not single ones, and
/// `None` where none sets it.
pub(crate) fn others_of(others: &[Other], stack: &[Scope]) -> Result<OtherLeaders, AllocError>
    ensures foreground { IfOk result (λ s. other_from s.foreground
        ≡ best_other (λ m. m.foreground) stack.now (map rule_from others.now)) }
    ensures background { IfOk result (λ s. other_from s.background
        ≡ best_other (λ m. m.background) stack.now (map rule_from others.now)) }
    ensures font_style { IfOk result (λ s. other_from s.font_style
        ≡ best_other (λ m. m.font_style) stack.now (map rule_from others.now)) }
{
    let mut best = no_others();
    for other in others {
        match add_other(&mut best, other, stack) {
            Ok(()) => {}
            Err(e) => return Err(e),
        }
    }
    Ok(best)
}

/// A value with its score, if that is small.
fn small<V: Copy>(best: &Option<(MatchPower, V)>) -> Option<Option<(u64, V)>>
    ensures { IfSome result (λ small. other_from small ≡ other_from best.now) }
{
    match best {
        None => Some(None),
        Some((power, value)) => {
            let power = power.to_u64()?;
            Some(Some((power, *value)))
        }
    }
}

impl OtherLeaders {
    /// These values with small scores, if all their scores are small.
    pub(crate) fn small(&self) -> Option<SmallLeaders>
        ensures foreground { IfSome result (λ s. other_from s.foreground
            ≡ other_from self.now.foreground) }
        ensures background { IfSome result (λ s. other_from s.background
            ≡ other_from self.now.background) }
        ensures font_style { IfSome result (λ s. other_from s.font_style
            ≡ other_from self.now.font_style) }
    {
        Some(SmallLeaders {
            foreground: small(&self.foreground)?,
            background: small(&self.background)?,
            font_style: small(&self.font_style)?,
        })
    }
}

/// The value of the one with the greater score: of equal scores that of the single rule. The other
/// one's score is small.
pub(crate) fn better_small<V: Copy>(
    single: Option<(SingleScore, V)>,
    other: Option<(u64, V)>,
) -> Option<V>
    ensures { result
        ≡ option_map (λ c. c.value) (against (candidate_from single) (other_from other)) }
{
    let Some((power, of_other)) = other else {
        return single.map(|c| c.1);
    };
    let Some((score, of_single)) = single else {
        return Some(of_other);
    };
    Some(if score.is_below(power) {
        of_other
    } else {
        of_single
    })
}

/// The value of the one with the greater score: of equal scores that of the single rule.
pub(crate) fn better<V: Copy>(
    alloc: Global,
    single: Option<(SingleScore, V)>,
    other: &Option<(MatchPower, V)>,
) -> Result<Option<V>, AllocError>
    ensures { IfOk result (λ v. v
        ≡ option_map (λ c. c.value) (against (candidate_from single) (other_from other.now))) }
{
    let Some((power, of_other)) = other else {
        return Ok(single.map(|c| c.1));
    };
    let Some((score, of_single)) = single else {
        return Ok(Some(*of_other));
    };
    let mut reached = MatchPower::new(alloc);
    reached.add(score.atoms, score.place)?;
    Ok(Some(if reached < *power {
        *of_other
    } else {
        of_single
    }))
}
