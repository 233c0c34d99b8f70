//! Definitions as texts: what a loaded or linked grammar holds, each thing on a line.
use crate::below::grammar::syntax_definition::{
    Context, ContextId, ContextReference, MatchOperation, MatchPattern, Pattern, SyntaxDefinition,
};
use crate::below::scope::repository::ScopeRepository;
use crate::below::scope::scope::Scope;
use crate::below::scope::stack::ClearAmount;
use syntect_values::text::Text;

/// Adds a text, if it is asked for.
fn write_mark(text: &str, is_asked: bool, out: &mut String) -> Option<()> {
    out.push_str(if is_asked { text } else { "" }).ok()
}

/// Adds ` #` and the context within a syntax that a reference names, if it names one, and a mark if
/// it has a way out.
fn write_way(sub_context: &Option<Text>, with_escape: bool, out: &mut String) -> Option<()> {
    if let Some(name) = sub_context {
        write!(out, "#{}", name.as_str()).ok()?;
    }
    write_mark(" with escape", with_escape, out)
}

/// Adds a label and the numbers of a context.
fn write_id(label: &str, id: &ContextId, out: &mut String) -> Option<()> {
    let (syntax, context) = (id.syntax_index, id.context_index);
    write!(out, "{label} {syntax} {context}").ok()
}

/// Adds a space and a scope.
fn write_scope(scope: Scope, repository: &ScopeRepository, out: &mut String) -> Option<()> {
    let scope = repository.to_string(scope).ok()?;
    write!(out, " {scope}").ok()
}

/// Adds a space, the kind of a reference and what it names.
pub fn write_reference(
    reference: &ContextReference,
    repository: &ScopeRepository,
    out: &mut String,
) -> Option<()> {
    match reference {
        ContextReference::Named(name) => write!(out, " named {}", name.as_str()).ok(),
        ContextReference::Inline(name) => write!(out, " inline {}", name.as_str()).ok(),
        ContextReference::ByScope {
            scope,
            sub_context,
            with_escape,
        } => {
            out.push_str(" scope").ok()?;
            write_scope(*scope, repository, out)?;
            write_way(sub_context, *with_escape, out)
        }
        ContextReference::File {
            name,
            sub_context,
            with_escape,
        } => {
            write!(out, " file {}", name.as_str()).ok()?;
            write_way(sub_context, *with_escape, out)
        }
        ContextReference::Direct(id) => write_id(" direct", id, out),
    }
}

/// Adds a line for each of these references.
fn write_references(
    label: &str,
    references: &[ContextReference],
    repository: &ScopeRepository,
    out: &mut String,
) -> Option<()> {
    for reference in references {
        out.push_str(label).ok()?;
        write_reference(reference, repository, out)?;
        out.push('\n').ok()?;
    }
    Some(())
}

/// Adds a space and each of these scopes.
fn write_list(scopes: &[Scope], repository: &ScopeRepository, out: &mut String) -> Option<()> {
    for scope in scopes {
        write_scope(*scope, repository, out)?;
    }
    Some(())
}

/// Adds a line of these scopes after a label; none without scopes.
fn write_scopes(
    label: &str,
    scopes: &[Scope],
    repository: &ScopeRepository,
    out: &mut String,
) -> Option<()> {
    if scopes.is_empty() {
        return Some(());
    }
    out.push_str(label).ok()?;
    write_list(scopes, repository, out)?;
    out.push('\n').ok()
}

/// Adds what a match does to the open contexts.
fn write_effect(
    operation: &MatchOperation,
    repository: &ScopeRepository,
    out: &mut String,
) -> Option<()> {
    match operation {
        MatchOperation::Push(references) => write_references(
            "    push",
            references.as_slice(),
            repository,
            out,
        ),
        MatchOperation::Set(references) => write_references(
            "    set",
            references.as_slice(),
            repository,
            out,
        ),
        MatchOperation::Pop => out.push_str("    pop\n").ok(),
        MatchOperation::None => Some(()),
    }
}

/// Adds a line for each capture.
fn write_captures(
    pattern: &MatchPattern,
    repository: &ScopeRepository,
    out: &mut String,
) -> Option<()> {
    let Some(captures) = &pattern.captures else {
        return Some(());
    };
    out.push_str("    captures\n").ok()?;
    for (group, scopes) in captures {
        write!(out, "      {group}").ok()?;
        write_list(scopes.as_slice(), repository, out)?;
        out.push('\n').ok()?;
    }
    Some(())
}

/// Adds a pattern and what its match does.
fn write_match(
    pattern: &MatchPattern,
    repository: &ScopeRepository,
    out: &mut String,
) -> Option<()> {
    let label = if pattern.has_captures {
        "match with references"
    } else {
        "match"
    };
    writeln!(out, "  {label} /{}/", pattern.regex.regex_str()).ok()?;
    write_scopes("    scope", pattern.scope.as_slice(), repository, out)?;
    write_captures(pattern, repository, out)?;
    write_effect(&pattern.operation, repository, out)?;
    if let Some(reference) = &pattern.with_prototype {
        out.push_str("    with_prototype").ok()?;
        write_reference(reference, repository, out)?;
        out.push('\n').ok()?;
    }
    Some(())
}

/// Adds the patterns of a context.
fn write_patterns(
    patterns: &[Pattern],
    repository: &ScopeRepository,
    out: &mut String,
) -> Option<()> {
    for pattern in patterns {
        match pattern {
            Pattern::Match(pattern) => write_match(pattern, repository, out)?,
            Pattern::Include(reference) => {
                out.push_str("  include").ok()?;
                write_reference(reference, repository, out)?;
                out.push('\n').ok()?;
            }
        }
    }
    Some(())
}

/// Adds what a context clears, if it does.
fn write_clearing(clear_scopes: Option<ClearAmount>, out: &mut String) -> Option<()> {
    match clear_scopes {
        Some(ClearAmount::TopN(count)) => writeln!(out, "  clear_scopes {count}").ok(),
        Some(ClearAmount::All) => out.push_str("  clear_scopes all\n").ok(),
        None => Some(()),
    }
}

/// Adds what stands in a context besides its scopes and patterns.
fn write_marks(context: &Context, out: &mut String) -> Option<()> {
    let is_without = !context.meta_include_prototype;
    write_mark("  without prototype\n", is_without, out)?;
    write_clearing(context.clear_scopes, out)?;
    if let Some(id) = &context.prototype {
        write_id("  prototype", id, out)?;
        out.push('\n').ok()?;
    }
    write_mark("  uses_backrefs\n", context.uses_backrefs, out)
}

/// Adds a context.
fn write_context(
    name: &str,
    context: &Context,
    repository: &ScopeRepository,
    out: &mut String,
) -> Option<()> {
    writeln!(out, "context {name}").ok()?;
    write_scopes(
        "  meta_scope",
        context.meta_scope.as_slice(),
        repository,
        out,
    )?;
    let content = context.meta_content_scope.as_slice();
    write_scopes("  meta_content_scope", content, repository, out)?;
    write_marks(context, out)?;
    write_patterns(context.patterns.as_slice(), repository, out)
}

/// Adds a line for each of these extensions of files.
fn write_extensions(extensions: &[Text], out: &mut String) -> Option<()> {
    for extension in extensions {
        writeln!(out, "extension {}", extension.as_str()).ok()?;
    }
    Some(())
}

/// Adds what stands in a definition besides its variables and contexts.
fn write_head(
    definition: &SyntaxDefinition,
    repository: &ScopeRepository,
    out: &mut String,
) -> Option<()> {
    writeln!(out, "name {}", definition.name.as_str()).ok()?;
    write_extensions(definition.file_extensions.as_slice(), out)?;
    write_scopes("scope", &[definition.scope], repository, out)?;
    if let Some(pattern) = &definition.first_line_match {
        writeln!(out, "first_line_match {}", pattern.as_str()).ok()?;
    }
    write_mark("hidden\n", definition.hidden, out)
}

/// Adds the variables and the contexts of a definition.
fn write_definition(
    definition: &SyntaxDefinition,
    repository: &ScopeRepository,
    out: &mut String,
) -> Option<()> {
    write_head(definition, repository, out)?;
    for (name, value) in definition.variables.as_map().iter() {
        writeln!(out, "variable {} {}", name.as_str(), value.as_str()).ok()?;
    }
    write_contexts(definition, repository, out)
}

/// Adds the contexts of a definition, in byte order of their names.
fn write_contexts(
    definition: &SyntaxDefinition,
    repository: &ScopeRepository,
    out: &mut String,
) -> Option<()> {
    for (name, context) in definition.contexts.as_map().iter() {
        write_context(name.as_str(), context, repository, out)?;
    }
    Some(())
}

/// Adds definitions.
pub fn write_definitions(
    definitions: &[SyntaxDefinition],
    repository: &ScopeRepository,
    out: &mut String,
) -> Option<()> {
    for definition in definitions {
        write_definition(definition, repository, out)?;
    }
    Some(())
}
