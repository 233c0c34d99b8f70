//! Property lists in XML, as JSON.
use std::alloc::{AllocError, Global};

/// A text of JSON while it is written.
#[derive(Drop)]
struct Writer {
    out: String,
    /// Whether a comma has to come before the next value or key.
    follows: bool,
}

/// Appends a character of a text of JSON.
fn push_char(out: &mut String, c: char) -> Result<(), AllocError> {
    match c {
        '"' => out.push_str("\\\""),
        '\\' => out.push_str("\\\\"),
        '\n' => out.push_str("\\n"),
        '\t' => out.push_str("\\t"),
        '\0'..='\u{1f}' => write!(out, "\\u{:04x}", u32::from(c)),
        c => out.push(c),
    }
}

/// Appends a text of JSON.
pub fn push_text(out: &mut String, text: &str) -> Result<(), AllocError> {
    out.push('"')?;
    for c in text.chars() {
        push_char(out, c)?;
    }
    out.push('"')
}

/// The character that a name between `&` and `;` stands for.
fn named(name: &str) -> Option<char> {
    match name {
        "lt" => return Some('<'),
        "gt" => return Some('>'),
        "amp" => return Some('&'),
        "quot" => return Some('"'),
        "apos" => return Some('\''),
        _ => {}
    }
    let digits = name.strip_prefix('#')?;
    let number = match digits.strip_prefix('x') {
        Some(digits) => u32::from_str_radix(digits, 16).ok()?,
        None => digits.parse::<u32>().ok()?,
    };
    char::from_u32(number)
}

/// A text of XML as it is meant.
fn meant(alloc: Global, text: &str) -> Result<String, AllocError> {
    let mut parts = text.split('&');
    let mut out = String::from_str(alloc, parts.next().unwrap_or(""))?;
    for part in parts {
        let known = match part.split_once(';') {
            Some((name, rest)) => named(name).map(|c| (c, rest)),
            None => None,
        };
        match known {
            Some((c, rest)) => {
                out.push(c)?;
                out.push_str(rest)?;
            }
            None => {
                out.push('&')?;
                out.push_str(part)?;
            }
        }
    }
    Ok(out)
}

impl Writer {
    /// Appends the comma that has to come before a value or a key.
    fn push_comma(&mut self) -> Result<(), AllocError> {
        if self.follows {
            self.out.push_str(",")?;
        }
        Ok(())
    }

    /// Appends a value that is written as it is.
    fn push_value(&mut self, value: &str) -> Result<(), AllocError> {
        self.push_comma()?;
        self.follows = true;
        self.out.push_str(value)
    }

    /// Appends what opens a list or a map.
    fn push_opening(&mut self, sign: &str) -> Result<(), AllocError> {
        self.push_comma()?;
        self.follows = false;
        self.out.push_str(sign)
    }

    /// Appends what closes a list or a map.
    fn push_closing(&mut self, sign: &str) -> Result<(), AllocError> {
        self.follows = true;
        self.out.push_str(sign)
    }

    /// Appends a text, which may be a key.
    fn push_meant(&mut self, text: &str, is_key: bool) -> Result<(), AllocError> {
        let text = meant(*self.out.allocator(), text)?;
        self.push_comma()?;
        push_text(&mut self.out, text.as_str())?;
        self.follows = !is_key;
        if is_key {
            self.out.push_str(":")?;
        }
        Ok(())
    }

    /// Appends what an element says, by its tag and the text after it.
    fn push_element(&mut self, tag: &str, text: &str) -> Result<(), AllocError> {
        match tag {
            "dict" => self.push_opening("{"),
            "/dict" => self.push_closing("}"),
            "dict/" => self.push_value("{}"),
            "array" => self.push_opening("["),
            "/array" => self.push_closing("]"),
            "array/" => self.push_value("[]"),
            "true/" => self.push_value("true"),
            "false/" => self.push_value("false"),
            "key" => self.push_meant(text, true),
            "string" | "integer" | "real" | "date" | "data" => self.push_meant(text, false),
            "string/" => self.push_value("\"\""),
            _ => Ok(()),
        }
    }
}

/// A property list as JSON. What is no property list gives what is no JSON, or less than all of it.
/// Numbers are texts.
pub fn json_of(alloc: Global, list: &str) -> Result<String, AllocError> {
    let mut writer = Writer {
        out: String::new(alloc),
        follows: false,
    };
    let mut in_comment = false;
    for part in list.split('<').skip(1) {
        in_comment |= part.starts_with("!--");
        if !in_comment {
            let (tag, text) = part.split_once('>').unwrap_or((part, ""));
            writer.push_element(tag.trim(), text)?;
        } else if part.contains("-->") {
            in_comment = false;
        }
    }
    Ok(writer.out)
}
