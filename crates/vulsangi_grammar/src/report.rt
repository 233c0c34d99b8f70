//! Reports of findings: as text with the lines that they stand in, as JSON, and as SARIF, which
//! services that show code take.
use crate::findings::{Finding, Findings};
use crate::rules::{Grade, RULES, Rule};
use std::alloc::{AllocError, Global};

/// What a report is written as.
#[derive(Clone, Copy, Debug, PartialEq, Eq)]
pub enum Report {
    /// Text, in colour or not.
    Text(bool),
    Json,
    Sarif,
}

/// The colour of a grade in a terminal.
fn colour_of(grade: Grade) -> &'static str {
    match grade {
        Grade::Fault => "\x1b[1;31m",
        Grade::Warning => "\x1b[1;33m",
        Grade::Note => "\x1b[1;36m",
    }
}

/// Appends a text as JSON has it, between quotes.
fn push_json(out: &mut String, text: &str) -> Result<(), AllocError> {
    out.push('"')?;
    for c in text.chars() {
        match c {
            '"' => out.push_str("\\\"")?,
            '\\' => out.push_str("\\\\")?,
            '\n' => out.push_str("\\n")?,
            '\t' => out.push_str("\\t")?,
            c if c < ' ' => out.push_str("\u{fffd}")?,
            c => out.push(c)?,
        }
    }
    out.push('"')
}

/// Appends a text of a file for a terminal: control characters aren't passed on.
fn push_shown(out: &mut String, text: &str) -> Result<(), AllocError> {
    for c in text.chars() {
        let shown = match c {
            '\t' => '\u{2192}',
            c if c.is_control() => '\u{fffd}',
            c => c,
        };
        out.push(shown)?;
    }
    Ok(())
}

/// Appends a line of a file, with its number, and a caret below a place in it.
fn push_line(
    alloc: Global,
    out: &mut String,
    finding: &Finding,
    line: usize,
    column: usize,
) -> Result<(), AllocError> {
    let number = format!(in alloc; "{line}")?;
    let mut margin = String::new(alloc);
    for _ in 0..number.len() {
        margin.push(' ')?;
    }
    let margin = margin.as_str();
    let head = format!(in alloc; "{margin} |\n{number} | ")?;
    out.push_str(head.as_str())?;
    push_shown(out, finding.line.as_str())?;
    let foot = format!(in alloc; "\n{margin} | ")?;
    out.push_str(foot.as_str())?;
    for _ in 1..column {
        out.push(' ')?;
    }
    out.push_str("^\n")
}

/// Appends a finding as text.
fn push_text(
    alloc: Global,
    out: &mut String,
    finding: &Finding,
    in_colour: bool,
) -> Result<(), AllocError> {
    let rule = finding.rule;
    let (begin, end) = if in_colour {
        (colour_of(rule.grade), "\x1b[0m")
    } else {
        ("", "")
    };
    let (grade, number) = (rule.grade.name(), rule.number);
    let head = format!(in alloc; "{begin}{grade}[{number}]{end}: ")?;
    out.push_str(head.as_str())?;
    push_shown(out, finding.message.as_str())?;
    out.push_str("\n --> ")?;
    push_shown(out, finding.path.as_str())?;
    let Some(place) = finding.place else {
        return out.push_str("\n\n");
    };
    let (line, column) = (place.line, place.column);
    let told = format!(in alloc; ":{line}:{column}\n")?;
    out.push_str(told.as_str())?;
    push_line(alloc, out, finding, line, column)?;
    out.push('\n')
}

/// Appends a finding as JSON.
fn push_object(alloc: Global, out: &mut String, finding: &Finding) -> Result<(), AllocError> {
    let (number, grade) = (finding.rule.number, finding.rule.grade.name());
    let head = format!(in alloc;
        "  {{\"number\": \"{number}\", \"grade\": \"{grade}\", \"file\": "
    )?;
    out.push_str(head.as_str())?;
    push_json(out, finding.path.as_str())?;
    if let Some(place) = finding.place {
        let (line, column) = (place.line, place.column);
        let told = format!(in alloc; ", \"line\": {line}, \"column\": {column}")?;
        out.push_str(told.as_str())?;
    }
    out.push_str(", \"message\": ")?;
    push_json(out, finding.message.as_str())?;
    out.push_str("}")
}

/// Appends a rule as SARIF has it.
fn push_rule(alloc: Global, out: &mut String, rule: &Rule) -> Result<(), AllocError> {
    let number = rule.number;
    let head = format!(in alloc;
        "        {{\"id\": \"{number}\", \"shortDescription\": {{\"text\": "
    )?;
    out.push_str(head.as_str())?;
    push_json(out, rule.title)?;
    out.push_str("}, \"help\": {\"text\": ")?;
    push_json(out, rule.text)?;
    out.push_str("}}")
}

/// Appends a finding as SARIF has it.
fn push_result(alloc: Global, out: &mut String, finding: &Finding) -> Result<(), AllocError> {
    let (number, level) = (finding.rule.number, finding.rule.grade.name());
    let head = format!(in alloc;
        "      {{\"ruleId\": \"{number}\", \"level\": \"{level}\", \"message\": {{\"text\": "
    )?;
    out.push_str(head.as_str())?;
    push_json(out, finding.message.as_str())?;
    out.push_str("}, \"locations\": [{\"physicalLocation\": {\"artifactLocation\": {\"uri\": ")?;
    push_json(out, finding.path.as_str())?;
    out.push_str("}")?;
    if let Some(place) = finding.place {
        let (line, column) = (place.line, place.column);
        let region = format!(in alloc;
            ", \"region\": {{\"startLine\": {line}, \"startColumn\": {column}}}"
        )?;
        out.push_str(region.as_str())?;
    }
    out.push_str("}}]}")
}

/// What stands before a member of a list, by its number.
fn between(number: usize) -> &'static str {
    if number == 0 { "\n" } else { ",\n" }
}

/// The whole as JSON: a list of findings.
fn json_of(alloc: Global, findings: &Findings) -> Result<String, AllocError> {
    let mut out = String::from_str(alloc, "[")?;
    for (number, finding) in findings.found.as_slice().iter().enumerate() {
        out.push_str(between(number))?;
        push_object(alloc, &mut out, finding)?;
    }
    out.push_str("\n]\n")?;
    Ok(out)
}

/// The rules as SARIF has them.
fn push_rules(alloc: Global, out: &mut String) -> Result<(), AllocError> {
    for (number, rule) in RULES.iter().enumerate() {
        out.push_str(between(number))?;
        push_rule(alloc, out, rule)?;
    }
    Ok(())
}

/// The findings as SARIF has them.
fn push_results(alloc: Global, out: &mut String, findings: &Findings) -> Result<(), AllocError> {
    for (number, finding) in findings.found.as_slice().iter().enumerate() {
        out.push_str(between(number))?;
        push_result(alloc, out, finding)?;
    }
    Ok(())
}

/// The whole as SARIF.
fn sarif_of(alloc: Global, findings: &Findings) -> Result<String, AllocError> {
    let mut out = String::from_str(
        alloc,
        "{\n  \"version\": \"2.1.0\",\n  \"$schema\": \"https://json.schemastore.org/sarif-2.1.0.json\",
  \"runs\": [{\n    \"tool\": {\"driver\": {\"name\": \"vulsangi\", \"rules\": [",
    )?;
    push_rules(alloc, &mut out)?;
    out.push_str("\n      ]}},\n    \"results\": [")?;
    push_results(alloc, &mut out, findings)?;
    out.push_str("\n    ]\n  }]\n}\n")?;
    Ok(out)
}

/// The whole as text, with the number of findings of each grade last.
fn text_of(alloc: Global, findings: &Findings, in_colour: bool) -> Result<String, AllocError> {
    let mut out = String::new(alloc);
    for finding in findings.found.as_slice() {
        push_text(alloc, &mut out, finding, in_colour)?;
    }
    let (grammars, themes) = (findings.grammars, findings.themes);
    let faults = findings.count(Grade::Fault);
    let warnings = findings.count(Grade::Warning);
    let notes = findings.count(Grade::Note);
    let last = format!(in alloc;
        "loaded: grammars {grammars}, themes {themes}; found: errors {faults}, warnings {warnings}, notes {notes}\n"
    )?;
    out.push_str(last.as_str())?;
    Ok(out)
}

/// A report of what was found.
pub fn written(alloc: Global, findings: &Findings, form: Report) -> Result<String, AllocError> {
    match form {
        Report::Text(in_colour) => text_of(alloc, findings, in_colour),
        Report::Json => json_of(alloc, findings),
        Report::Sarif => sarif_of(alloc, findings),
    }
}

/// What is said of a rule.
pub fn explained(alloc: Global, rule: &Rule) -> Result<String, AllocError> {
    let (number, grade, title, text) = (rule.number, rule.grade.name(), rule.title, rule.text);
    format!(in alloc; "{number} ({grade}): {title}\n\n{text}\n")
}
