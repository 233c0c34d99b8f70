//! Calls of patterns and of the contexts that hold them.
use crate::below::grammar::syntax_definition::{Context, ContextId, MatchOperation, MatchPattern};
use crate::below::grammar::syntax_set::SyntaxSet;
use crate::below::reading_state::syntax_definition::context_iter;
use crate::below::regexes::regex::Regex;
use crate::below::regexes::region::Region;
use crate::below::scope::repository::ScopeRepository;
use crate::below::values::seq::Seq;
use crate::set_given::set_of;
use std::alloc::{AllocError, Global};
use syntect_check_calls::marks::{TIMES, answer, begin, end};

/// A pattern of a text, without scopes and operation.
fn pattern_of(alloc: Global, text: String) -> Result<MatchPattern, AllocError> {
    let scopes = Seq::new(alloc);
    MatchPattern::new(alloc, false, text, scopes, None, MatchOperation::None, None)
}

fn pattern_new(rt: &(impl Print + AllocGlobal)) {
    for _ in 0..TIMES {
        let Ok(text) = String::from_str(rt.alloc(), "[a-c]+") else {
            return;
        };
        begin(rt);
        let pattern = pattern_of(rt.alloc(), text);
        end(rt);
        match &pattern {
            Ok(pattern) => answer(rt, pattern.regex().regex_str()),
            Err(e) => answer(rt, e),
        }
    }
}

/// The pattern with nothing for its references.
fn substituted(alloc: Global, pattern: &MatchPattern) -> Result<Regex, AllocError> {
    let region = Region::new(alloc);
    pattern.regex_with_refs(&region, "")
}

fn regex_with_refs(rt: &(impl Print + AllocGlobal)) {
    let alloc = rt.alloc();
    let Ok(text) = String::from_str(alloc, r"^\1$") else {
        return;
    };
    let Ok(pattern) = pattern_of(alloc, text) else {
        return;
    };
    for _ in 0..TIMES {
        begin(rt);
        let regex = substituted(alloc, &pattern);
        end(rt);
        match &regex {
            Ok(regex) => answer(rt, regex.regex_str()),
            Err(e) => answer(rt, e),
        }
    }
}

/// The first place of a pattern that comes after an include.
fn first_place(rt: &(impl Print + AllocGlobal), set: &SyntaxSet, context: &Context) {
    for _ in 0..TIMES {
        let mut places = context_iter(rt.alloc(), set, context);
        begin(rt);
        let place = places.next();
        end(rt);
        match place {
            Some(Ok((_, index))) => answer(rt, index),
            Some(Err(e)) => answer(rt, &e),
            None => answer(rt, "none"),
        }
    }
}

/// The places of a context that has an include alone.
fn places(rt: &(impl Print + AllocGlobal)) {
    let mut repository = ScopeRepository::new(rt.alloc());
    let set = set_of(rt.alloc(), &mut repository);
    let Some(syntax) = set.syntaxes().first() else {
        return;
    };
    let id = syntax.context_named("included");
    if let Some(context) = id.and_then(|id| set.context_at(id)) {
        first_place(rt, &set, context);
    }
}

/// The walk of the first context in the order of names.
fn flats_walked(rt: &(impl Print + AllocGlobal)) {
    let mut repository = ScopeRepository::new(rt.alloc());
    let set = set_of(rt.alloc(), &mut repository);
    let main = ContextId {
        syntax_index: 0,
        context_index: 0,
    };
    for _ in 0..TIMES {
        begin(rt);
        let flats = set.flats_walked(rt.alloc(), main);
        end(rt);
        match &flats {
            Ok(flats) => answer(rt, flats.len()),
            Err(e) => answer(rt, e),
        }
    }
}

/// The calls.
pub const NAMES: [&str; 4] = [
    "MatchPattern::new",
    "MatchPattern::regex_with_refs",
    "MatchIter::next",
    "SyntaxSet::flats_walked",
];

/// Makes the call of this name, if there is one.
pub fn make(rt: &(impl Print + AllocGlobal), name: &str) {
    match name {
        "MatchPattern::new" => pattern_new(rt),
        "MatchPattern::regex_with_refs" => regex_with_refs(rt),
        "MatchIter::next" => places(rt),
        "SyntaxSet::flats_walked" => flats_walked(rt),
        _ => {}
    }
}
