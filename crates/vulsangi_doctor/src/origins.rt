//! Which entry of which grammar gave a scope.
//!
//! It is asked of the reader itself. In a copy of the set each scope that a grammar names stands
//! replaced by a mark of its own, so that the text is read as before, and its stacks have marks in
//! the places of the scopes.
use std::alloc::{AllocError, Global};
use syntect::assets::{Assets, AssetsError};
use syntect::parsing::syntax_definition::{Context, MatchPattern, Pattern};
use syntect::parsing::{Scope, ScopeRepository, SyntaxDefinition, SyntaxSet, SyntaxSetBuilder};
use syntect::values::{Seq, Table, Text};

/// How many characters of a pattern are told.
const MOST_SHOWN: usize = 60;

/// A mark, and the entry of a grammar that names the scope in whose place it stands.
#[derive(Drop)]
pub struct Origin {
    mark: Scope,
    entry: String,
}

/// The marks in the grammars of a set.
#[derive(Drop)]
pub struct Marks {
    origins: Vec<Origin>,
}

impl Marks {
    /// The entry that named the scope in whose place a mark stands.
    pub fn entry_at(&self, marked: &[Scope], place: usize) -> Option<&str> {
        let mark = *marked.get(place)?;
        for origin in self.origins.as_slice() {
            if origin.mark == mark {
                return Some(origin.entry.as_str());
            }
        }
        None
    }
}

/// What marks are made with.
#[derive(Drop)]
struct Marker<'r> {
    alloc: Global,
    repository: &'r mut ScopeRepository,
    marks: Marks,
}

/// A pattern in one line, cut off where it is long.
fn shown(alloc: Global, pattern: &str) -> Result<String, AllocError> {
    let mut out = String::new(alloc);
    let mut count = 0usize;
    for c in pattern.chars() {
        if count == MOST_SHOWN {
            out.push_str("...")?;
            break;
        }
        out.push(if c.is_control() { ' ' } else { c })?;
        count = count.saturating_add(1);
    }
    Ok(out)
}

/// A context as it is told: in which grammar it stands, and by its name. One without a name of its
/// own is told by the context that it stands in.
fn told_name(alloc: Global, syntax: &str, name: &str) -> Result<String, AllocError> {
    match name {
        "__start" => format!(in alloc; "{syntax}, the whole"),
        name => match name
            .strip_prefix("#anon_")
            .and_then(|rest| rest.rsplit_once('_'))
        {
            Some((outer, _)) => format!(in alloc; "{syntax}, within {outer}"),
            None => format!(in alloc; "{syntax}, {name}"),
        },
    }
}

impl Marker<'_> {
    /// Marks in place of the scopes that an entry names.
    fn scopes(&mut self, scopes: &[Scope], entry: &str) -> Result<Seq<Scope>, AssetsError> {
        let mut marks = Vec::with_capacity(self.alloc, scopes.len())?;
        for _ in scopes {
            let number = self.marks.origins.len();
            let (high, low) = (number / 256, number % 256);
            let text = format!(in self.alloc; "mark{high}.{low}")?;
            let Ok(mark) = self.repository.build(text.as_str()) else {
                return Err(AssetsError::Memory);
            };
            let entry = String::from_str(self.alloc, entry)?;
            self.marks.origins.push(Origin { mark, entry })?;
            marks.push(mark)?;
        }
        Ok(Seq::from_vec(marks))
    }

    /// Marks in place of the scopes of a match's groups.
    fn captures(
        &mut self,
        captures: &[(usize, Seq<Scope>)],
        entry: &str,
    ) -> Result<Seq<(usize, Seq<Scope>)>, AssetsError> {
        let mut marked = Vec::with_capacity(self.alloc, captures.len())?;
        for (group, scopes) in captures {
            let of_group = format!(in self.alloc; "{entry}, group {group}")?;
            let scopes = self.scopes(scopes.as_slice(), of_group.as_str())?;
            marked.push((*group, scopes))?;
        }
        Ok(Seq::from_vec(marked))
    }

    /// A copy of a match with marks.
    fn matched(&mut self, matched: &MatchPattern, context: &str) -> Result<Pattern, AssetsError> {
        let mut copy = matched.clone()?;
        let pattern = shown(self.alloc, matched.regex.regex_str())?;
        let entry = format!(in self.alloc; "{context}: match {pattern}")?;
        copy.scope = self.scopes(matched.scope.as_slice(), entry.as_str())?;
        if let Some(captures) = &matched.captures {
            copy.captures = Some(self.captures(captures.as_slice(), entry.as_str())?);
        }
        Ok(Pattern::Match(copy))
    }

    /// Copies of patterns with marks.
    fn patterns(
        &mut self,
        patterns: &[Pattern],
        context: &str,
    ) -> Result<Seq<Pattern>, AssetsError> {
        let mut marked = Vec::with_capacity(self.alloc, patterns.len())?;
        for pattern in patterns {
            let copy = match pattern {
                Pattern::Match(matched) => self.matched(matched, context)?,
                Pattern::Include(_) => pattern.clone()?,
            };
            marked.push(copy)?;
        }
        Ok(Seq::from_vec(marked))
    }

    /// A copy of a context with marks.
    fn context(&mut self, context: &Context, name: &str) -> Result<Context, AssetsError> {
        let scope = format!(in self.alloc; "{name}: meta_scope")?;
        let meta_scope = self.scopes(context.meta_scope.as_slice(), scope.as_str())?;
        let scope = format!(in self.alloc; "{name}: meta_content_scope")?;
        let content = context.meta_content_scope.as_slice();
        let meta_content_scope = self.scopes(content, scope.as_str())?;
        let patterns = self.patterns(context.patterns.as_slice(), name)?;
        Ok(Context {
            meta_scope,
            meta_content_scope,
            meta_include_prototype: context.meta_include_prototype,
            clear_scopes: context.clear_scopes,
            prototype: context.prototype,
            uses_backrefs: context.uses_backrefs,
            patterns,
        })
    }

    /// Copies of a grammar's contexts with marks.
    fn contexts(
        &mut self,
        definition: &SyntaxDefinition,
    ) -> Result<Table<Text, Context>, AssetsError> {
        let mut contexts = Table::new(self.alloc);
        for (name, context) in definition.contexts.as_map().iter() {
            let told = told_name(self.alloc, definition.name.as_str(), name.as_str())?;
            let context = self.context(context, told.as_str())?;
            contexts.insert(name.clone()?, context)?;
        }
        Ok(contexts)
    }

    /// A copy of a grammar with marks.
    fn definition(
        &mut self,
        definition: &SyntaxDefinition,
    ) -> Result<SyntaxDefinition, AssetsError> {
        let contexts = self.contexts(definition)?;
        Ok(SyntaxDefinition {
            name: definition.name.clone()?,
            file_extensions: definition.file_extensions.clone()?,
            scope: definition.scope,
            first_line_match: definition.first_line_match.clone()?,
            hidden: definition.hidden,
            variables: definition.variables.clone()?,
            contexts,
        })
    }
}

/// The set with marks in the places of its scopes, and what they stand for.
pub fn marked(alloc: Global, assets: &mut Assets) -> Result<(SyntaxSet, Marks), AssetsError> {
    let written = assets.set.clone()?.into_builder(alloc)?;
    let mut builder = SyntaxSetBuilder::new(alloc);
    let origins = Vec::new(alloc);
    let mut marker = Marker {
        alloc,
        repository: &mut assets.repository,
        marks: Marks { origins },
    };
    for definition in written.syntaxes() {
        builder.add(marker.definition(definition)?)?;
    }
    let marks = marker.marks;
    let set = builder.build(alloc, &mut assets.repository)?;
    Ok((set, marks))
}
