//! The rules of a theme, made ready: the single ones apart from the others.
ghost use Rattle.std.specs.Prelude.{◌≡◌, ◌++◌, map, IfOk, OnOk};
ghost use Rattle.syntect_style.specs.Rules.{item_rules, item_others, rule_from, last_rule, lasts_of, last_rules};

use crate::others::Other;
use crate::scores::Rule;
use crate::syntect_scope::scope::Scope;
use std::alloc::{AllocError, Global};
use syntect_theme::style::StyleModifier;
use syntect_theme::theme::ThemeItem;

/// Adds the single rules of an item.
pub(crate) fn push_rules(rules: &mut Vec<Rule>, item: &ThemeItem) -> Result<(), AllocError>
    ensures { OnOk result (rules.new.items ≡ rules.old.items ++ item_rules item.now) }
{
    for selector in item.scope.selectors.as_slice() {
        if let Some(scope) = selector.extract_single_scope() {
            rules.push(Rule {
                scope,
                style: item.style,
            })?;
        }
    }
    Ok(())
}

/// Adds the other rules of an item.
pub(crate) fn push_others(others: &mut Vec<Other>, item: &ThemeItem) -> Result<(), AllocError>
    ensures { OnOk result (map rule_from others.new.items
        ≡ map rule_from others.old.items ++ item_others item.now) }
{
    for selector in item.scope.selectors.as_slice() {
        if selector.extract_single_scope().is_none() {
            others.push(Other {
                selector: selector.clone()?,
                style: item.style,
            })?;
        }
    }
    Ok(())
}

/// Adds the last scope of a path, if it has one, as a single rule.
fn push_last(rules: &mut Vec<Rule>, path: &[Scope], style: StyleModifier) -> Result<(), AllocError>
    ensures { OnOk result (rules.new.items ≡ rules.old.items ++ last_rule path.now style) }
{
    if let Some(scope) = path.last() {
        rules.push(Rule {
            scope: *scope,
            style,
        })?;
    }
    Ok(())
}

/// Adds the last scopes of a rule's exclusions and of its path.
fn push_lasts(rules: &mut Vec<Rule>, other: &Other) -> Result<(), AllocError>
    ensures { OnOk result (rules.new.items ≡ rules.old.items ++ lasts_of (rule_from other.now)) }
{
    for exclusion in other.selector.excludes.as_slice() {
        push_last(rules, exclusion.as_slice(), other.style)?;
    }
    push_last(rules, other.selector.path.as_slice(), other.style)
}

/// The last scopes of the exclusions and paths of rules.
pub(crate) fn last_rules(alloc: Global, others: &[Other]) -> Result<Vec<Rule>, AllocError>
    ensures { IfOk result (λ rules. rules.items ≡ last_rules (map rule_from others.now)) }
{
    let mut rules = Vec::new(alloc);
    for other in others {
        push_lasts(&mut rules, other)?;
    }
    Ok(rules)
}
