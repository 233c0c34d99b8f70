//! Values of texts.
ghost use Rattle.std.specs.Prelude.{◌≡◌, option_map, option_and_then, Some, None, IfOk};
ghost use Rattle.syntect_yaml.specs.Node as node;
ghost use Rattle.syntect_yaml.specs.View.{view, items_view, entries_view};

use std::alloc::AllocError;
use syntect_values::text::Text;

/// A value without parts.
#[derive(Debug, Drop, PartialEq, Eq, PartialOrd, Ord)]
pub enum Scalar {
    Text(Text),
    Number(i64),
    Truth(bool),
    Null,
}

/// A value: a scalar, a list of values, or a map from scalars to values with its entries in order.
#[derive(Debug, Drop, PartialEq, Eq)]
pub enum Yaml {
    Scalar(Scalar),
    List(Vec<Yaml>),
    Map(Vec<(Scalar, Yaml)>),
}

impl Scalar {
    /// The text, if it is one.
    pub fn as_str(&self) -> Option<&str>
        ensures { option_map (λ s. s.now) result ≡ node.text_of self.now }
    {
        match self {
            Scalar::Text(text) => Some(text.as_str()),
            _ => None,
        }
    }

    /// The number, if it is one.
    pub fn as_i64(&self) -> Option<i64>
        ensures { result ≡ node.number_of self.now }
    {
        match self {
            Scalar::Number(n) => Some(*n),
            _ => None,
        }
    }

    /// The truth value, if it is one.
    pub fn as_bool(&self) -> Option<bool>
        ensures { result ≡ node.truth_of self.now }
    {
        match self {
            Scalar::Truth(b) => Some(*b),
            _ => None,
        }
    }

    /// Whether it is null.
    pub fn is_null(&self) -> bool
        ensures { result ≡ node.is_null self.now }
    {
        matches!(self, Scalar::Null)
    }
}

/// Whether the scalar is this text.
fn is_text(scalar: &Scalar, text: &str) -> bool
    ensures { result ≡ node.is_text text.now scalar.now }
{
    match scalar {
        Scalar::Text(t) => t.as_str() == text,
        _ => false,
    }
}

/// The value of the entry whose key is this text.
fn value_at<'a>(entries: &'a [(Scalar, Yaml)], text: &str) -> Option<&'a Yaml>
    ensures { option_map (λ v. view v.now) result
        ≡ node.value_at text.now (entries_view entries.now) }
{
    for entry in entries {
        if is_text(&entry.0, text) {
            return Some(&entry.1);
        }
    }
    None
}

impl Yaml {
    /// The scalar, if it is one.
    pub fn as_scalar(&self) -> Option<&Scalar>
        ensures { option_map (λ s. s.now) result ≡ node.as_scalar (view self.now) }
    {
        match self {
            Yaml::Scalar(scalar) => Some(scalar),
            _ => None,
        }
    }

    /// The values of a list, in order, if it is one.
    pub fn as_list(&self) -> Option<&[Yaml]>
        ensures { option_map (λ v. items_view v.now) result ≡ node.as_list (view self.now) }
    {
        match self {
            Yaml::List(items) => Some(items.as_slice()),
            _ => None,
        }
    }

    /// The entries of a map, in order, if it is one.
    pub fn as_map(&self) -> Option<&[(Scalar, Yaml)]>
        ensures { option_map (λ v. entries_view v.now) result ≡ node.as_map (view self.now) }
    {
        match self {
            Yaml::Map(entries) => Some(entries.as_slice()),
            _ => None,
        }
    }

    /// The text, if it is one.
    pub fn as_str(&self) -> Option<&str>
        ensures { option_map (λ s. s.now) result
            ≡ option_and_then node.text_of (node.as_scalar (view self.now)) }
    {
        match self {
            Yaml::Scalar(scalar) => scalar.as_str(),
            _ => None,
        }
    }

    /// The number, if it is one.
    pub fn as_i64(&self) -> Option<i64>
        ensures { result ≡ option_and_then node.number_of (node.as_scalar (view self.now)) }
    {
        match self {
            Yaml::Scalar(scalar) => scalar.as_i64(),
            _ => None,
        }
    }

    /// The truth value, if it is one.
    pub fn as_bool(&self) -> Option<bool>
        ensures { result ≡ option_and_then node.truth_of (node.as_scalar (view self.now)) }
    {
        match self {
            Yaml::Scalar(scalar) => scalar.as_bool(),
            _ => None,
        }
    }

    /// The value of a map's entry whose key is this text, if there is one.
    pub fn get(&self, key: &str) -> Option<&Yaml>
        ensures { option_map (λ v. view v.now) result ≡ node.get key.now (view self.now) }
    {
        match self {
            Yaml::Map(entries) => value_at(entries.as_slice(), key),
            _ => None,
        }
    }
}

impl Clone for Scalar {
    ghost is_clone = { λ x y. y ≡ x };

    fn clone(&self) -> Result<Scalar, AllocError> {
        match self {
            Scalar::Text(text) => Ok(Scalar::Text(text.clone()?)),
            Scalar::Number(n) => Ok(Scalar::Number(*n)),
            Scalar::Truth(b) => Ok(Scalar::Truth(*b)),
            Scalar::Null => Ok(Scalar::Null),
        }
    }
}

impl Clone for Yaml {
    ghost use Rattle.std.specs.Prelude.{◌≡◌};
    ghost use Rattle.syntect_yaml.specs.View.{view};

    ghost is_clone = { λ x y. view y ≡ view x };

    fn clone(&self) -> Result<Yaml, AllocError> {
        copy(self)
    }
}

#[cycle(copy)]
fn copy(value: &Yaml) -> Result<Yaml, AllocError>
    ensures { IfOk result (λ v. view v ≡ view value.now) }
{
    match value {
        Yaml::Scalar(scalar) => Ok(Yaml::Scalar(scalar.clone()?)),
        Yaml::List(items) => Ok(Yaml::List(copy_items(items)?)),
        Yaml::Map(entries) => Ok(Yaml::Map(copy_entries(entries)?)),
    }
}

#[cycle(copy)]
fn copy_items(items: &Vec<Yaml>) -> Result<Vec<Yaml>, AllocError>
    ensures { IfOk result (λ v. items_view v.items ≡ items_view items.now.items) }
{
    let mut copies = Vec::with_capacity(*items.allocator(), items.len())?;
    for item in items {
        copies.push(copy(item)?)?;
    }
    Ok(copies)
}

#[cycle(copy)]
fn copy_entries(entries: &Vec<(Scalar, Yaml)>) -> Result<Vec<(Scalar, Yaml)>, AllocError>
    ensures { IfOk result (λ v. entries_view v.items ≡ entries_view entries.now.items) }
{
    let mut copies = Vec::with_capacity(*entries.allocator(), entries.len())?;
    for entry in entries {
        let key = entry.0.clone()?;
        copies.push((key, copy(&entry.1)?))?;
    }
    Ok(copies)
}
