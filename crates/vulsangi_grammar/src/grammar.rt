//! A grammar's file: its text, its value and its items.
use crate::place::Step;
use std::alloc::{AllocError, Global};
use syntect::assets::AssetsError;
use syntect::parsing::SyntaxDefinition;
use syntect::parsing::syntax_definition::{Context, ContextReference, MatchOperation, Pattern};
use syntect::values::Text;
use syntect_yaml::error::ReadError;
use syntect_yaml::read::read;
use syntect_yaml::value::{Scalar, Yaml};

/// A grammar's file.
#[derive(Drop)]
pub struct Grammar {
    pub path: String,
    pub text: String,
    /// Its value; none where it is no YAML.
    pub yaml: Option<Yaml>,
    /// What is loaded of it; none where loading refuses it.
    pub definition: Option<SyntaxDefinition>,
}

/// An item of a context, or of one inside of it.
#[derive(Drop)]
pub struct Item<'y> {
    /// The context with a name that it stands in, by its number.
    pub context: usize,
    pub map: &'y Yaml,
    /// The items before it in its list.
    pub before: &'y [Yaml],
    /// How it is reached from the whole.
    pub steps: Vec<Step<'y>>,
    /// What was loaded of it.
    pub pattern: Option<&'y Pattern>,
    /// What was loaded of its list, with the name that loading gives it.
    pub list: Option<Loaded<'y>>,
}

/// A context that was loaded, with its name.
pub type Loaded<'y> = (&'y str, &'y Context);

/// A list of items that wait.
#[derive(Drop)]
struct Waiting<'y> {
    context: usize,
    list: &'y [Yaml],
    steps: Vec<Step<'y>>,
    loaded: Option<Loaded<'y>>,
}

impl Grammar {
    /// The value at a key, if the text has one.
    pub fn get(&self, key: &str) -> Option<&Yaml> {
        match &self.yaml {
            Some(yaml) => yaml.get(key),
            None => None,
        }
    }

    /// The entries of the map at a key.
    pub fn entries(&self, key: &str) -> &[(Scalar, Yaml)] {
        match self.get(key) {
            Some(value) => value.as_map().unwrap_or(&[]),
            None => &[],
        }
    }

    /// The text at a key.
    pub fn text_at(&self, key: &str) -> Option<&str> {
        match self.get(key) {
            Some(value) => value.as_str(),
            None => None,
        }
    }

    /// What is loaded of a context.
    pub fn loaded(&self, alloc: Global, name: &str) -> Result<Option<&Context>, AllocError> {
        match &self.definition {
            Some(definition) => Ok(definition.contexts.get(&Text::from_str(alloc, name)?)),
            None => Ok(None),
        }
    }
}

/// The value of a text, if it is YAML.
pub fn yaml_of(alloc: Global, text: &str) -> Result<Option<Yaml>, AssetsError> {
    match read(alloc, text) {
        Ok(value) => Ok(value),
        Err(ReadError::Memory) => Err(AssetsError::Memory),
        Err(ReadError::NoValue) => Ok(None),
    }
}

/// The steps to a value, and one more.
pub fn steps_and<'y>(
    alloc: Global,
    steps: &[Step<'y>],
    last: Step<'y>,
) -> Result<Vec<Step<'y>>, AllocError> {
    let mut all = Vec::new(alloc);
    for step in steps {
        all.push(*step)?;
    }
    all.push(last)?;
    Ok(all)
}

/// The contexts that a match opens.
fn opened(pattern: Option<&Pattern>) -> &[ContextReference] {
    let Some(Pattern::Match(pattern)) = pattern else {
        return &[];
    };
    match &pattern.operation {
        MatchOperation::Push(references) => references.as_slice(),
        MatchOperation::Set(references) => references.as_slice(),
        _ => &[],
    }
}

/// The context of a reference to one that has no name but the one that loading gives it.
pub fn inline_of<'y>(
    grammar: &'y Grammar,
    reference: Option<&'y ContextReference>,
) -> Option<Loaded<'y>> {
    let (Some(definition), Some(ContextReference::Inline(name))) = (&grammar.definition, reference)
    else {
        return None;
    };
    match definition.contexts.get(name) {
        Some(context) => Some((name.as_str(), context)),
        None => None,
    }
}

/// Whether a list is one of items, and not of references.
fn is_items(value: &Yaml) -> bool {
    match value.as_list() {
        Some([first, ..]) => first.as_map().is_some(),
        _ => false,
    }
}

/// Adds the lists of items in the value of a `push` or a `set`.
fn add_opened<'y>(
    alloc: Global,
    grammar: &'y Grammar,
    item: &Item<'y>,
    key: &'static str,
    waiting: &mut Vec<Waiting<'y>>,
) -> Result<(), AllocError> {
    let Some(value) = item.map.get(key) else {
        return Ok(());
    };
    let references = opened(item.pattern);
    let steps = steps_and(alloc, item.steps.as_slice(), Step::Key(key))?;
    let list = value.as_list().unwrap_or(&[]);
    if is_items(value) {
        waiting.push(Waiting {
            context: item.context,
            list,
            steps,
            loaded: inline_of(grammar, references.first()),
        })?;
        return Ok(());
    }
    for (number, one) in list.iter().enumerate() {
        if is_items(one) {
            waiting.push(Waiting {
                context: item.context,
                list: one.as_list().unwrap_or(&[]),
                steps: steps_and(alloc, steps.as_slice(), Step::Item(number))?,
                loaded: inline_of(grammar, references.get(number)),
            })?;
        }
    }
    Ok(())
}

/// Adds the list of items in a `with_prototype`.
fn add_prototype<'y>(
    alloc: Global,
    grammar: &'y Grammar,
    item: &Item<'y>,
    waiting: &mut Vec<Waiting<'y>>,
) -> Result<(), AllocError> {
    let Some(value) = item.map.get("with_prototype") else {
        return Ok(());
    };
    let reference = match item.pattern {
        Some(Pattern::Match(pattern)) => pattern.with_prototype.as_ref(),
        _ => None,
    };
    waiting.push(Waiting {
        context: item.context,
        list: value.as_list().unwrap_or(&[]),
        steps: steps_and(alloc, item.steps.as_slice(), Step::Key("with_prototype"))?,
        loaded: inline_of(grammar, reference),
    })?;
    Ok(())
}

/// Whether something is loaded of an item as a pattern or an include.
fn is_pattern(map: &Yaml) -> bool {
    map.get("match").is_some() || map.get("include").is_some()
}

/// Adds the items of a list, and the lists in them to those that wait.
fn add_items<'y>(
    alloc: Global,
    grammar: &'y Grammar,
    waiting: &mut Vec<Waiting<'y>>,
    list: Waiting<'y>,
    items: &mut Vec<Item<'y>>,
) -> Result<(), AllocError> {
    let mut patterns = 0usize;
    for (number, map) in list.list.iter().enumerate() {
        if map.as_map().is_none() {
            continue;
        }
        let pattern = match list.loaded {
            Some((_, context)) if is_pattern(map) => context.patterns.as_slice().get(patterns),
            _ => None,
        };
        if is_pattern(map) {
            patterns = patterns.saturating_add(1);
        }
        let item = Item {
            context: list.context,
            map,
            before: list.list.get(..number).unwrap_or(&[]),
            steps: steps_and(alloc, list.steps.as_slice(), Step::Item(number))?,
            pattern,
            list: list.loaded,
        };
        add_opened(alloc, grammar, &item, "push", waiting)?;
        add_opened(alloc, grammar, &item, "set", waiting)?;
        add_prototype(alloc, grammar, &item, waiting)?;
        items.push(item)?;
    }
    Ok(())
}

/// The items of all contexts of a grammar.
pub fn items_of<'y>(alloc: Global, grammar: &'y Grammar) -> Result<Vec<Item<'y>>, AllocError> {
    let mut waiting = Vec::new(alloc);
    for (number, entry) in grammar.entries("contexts").iter().enumerate() {
        let Some(name) = entry.0.as_str() else {
            continue;
        };
        let mut steps = Vec::new(alloc);
        steps.push(Step::Key("contexts"))?;
        steps.push(Step::Key(name))?;
        waiting.push(Waiting {
            context: number,
            list: entry.1.as_list().unwrap_or(&[]),
            steps,
            loaded: match grammar.loaded(alloc, name)? {
                Some(context) => Some((name, context)),
                None => None,
            },
        })?;
    }
    let mut items = Vec::new(alloc);
    // a list takes at least a byte of the text
    for _ in 0..=grammar.text.len() {
        let Some(list) = waiting.pop() else {
            break;
        };
        add_items(alloc, grammar, &mut waiting, list, &mut items)?;
    }
    Ok(items)
}
