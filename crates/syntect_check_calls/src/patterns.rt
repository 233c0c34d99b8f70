//! Calls of patterns.
use crate::below::regexes::regex::{Regex, escape};
use crate::below::regexes::region::Region;
use crate::given::regex_of;
use crate::marks::{TIMES, answer, begin, end};

/// A pattern with groups, a class and a loop.
const PATTERN: &str = "(?<word>[a-c]+|x{2,3})(?=(\\s*))y*";

const TEXT: &str = "-abcabc yy";

/// Made to be compiled when it is first searched, or at once.
fn regex_new(rt: &(impl Print + AllocGlobal), ready: bool) {
    let alloc = rt.alloc();
    for _ in 0..TIMES {
        let Ok(text) = String::from_str(alloc, PATTERN) else {
            return;
        };
        begin(rt);
        let regex = if ready {
            Regex::ready(alloc, text)
        } else {
            Regex::new(alloc, text)
        };
        end(rt);
        match &regex {
            Ok(regex) => answer(rt, regex.group(2)),
            Err(e) => answer(rt, e),
        }
    }
}

fn regex_try_compile(rt: &(impl Print + AllocGlobal)) {
    let alloc = rt.alloc();
    for _ in 0..TIMES {
        begin(rt);
        let refusal = Regex::try_compile(alloc, PATTERN);
        end(rt);
        answer(rt, &refusal);
    }
}

fn regex_search(rt: &(impl Print + AllocGlobal)) {
    let alloc = rt.alloc();
    let Some(regex) = regex_of(alloc, PATTERN) else {
        return
    };
    for _ in 0..TIMES {
        let mut region = Region::new(alloc);
        begin(rt);
        let found = regex.search(alloc, TEXT, 0, 10, Some(&mut region));
        end(rt);
        answer(rt, (found, region.pos(1)));
    }
}

fn regex_is_match(rt: &(impl Print + AllocGlobal)) {
    let alloc = rt.alloc();
    let Some(regex) = regex_of(alloc, PATTERN) else {
        return
    };
    for _ in 0..TIMES {
        begin(rt);
        let found = regex.is_match(alloc, "abc");
        end(rt);
        answer(rt, &found);
    }
}

fn regex_clone(rt: &(impl Print + AllocGlobal)) {
    let alloc = rt.alloc();
    let Some(regex) = regex_of(alloc, PATTERN) else {
        return
    };
    for _ in 0..TIMES {
        begin(rt);
        let copy = regex.clone(alloc);
        end(rt);
        match &copy {
            Ok(copy) => answer(rt, *copy == regex),
            Err(e) => answer(rt, e),
        }
    }
}

fn escaped(rt: &(impl Print + AllocGlobal)) {
    let alloc = rt.alloc();
    for _ in 0..TIMES {
        begin(rt);
        let text = escape(alloc, "a-b*");
        end(rt);
        answer(rt, &text);
    }
}

/// The calls.
pub const NAMES: [&str; 7] = [
    "Regex::new",
    "Regex::ready",
    "Regex::try_compile",
    "Regex::search",
    "Regex::is_match",
    "Regex::clone",
    "escape",
];

/// Makes the call of this name, if there is one.
pub fn make(rt: &(impl Print + AllocGlobal), name: &str) {
    match name {
        "Regex::new" => regex_new(rt, false),
        "Regex::ready" => regex_new(rt, true),
        "Regex::try_compile" => regex_try_compile(rt),
        "Regex::search" => regex_search(rt),
        "Regex::is_match" => regex_is_match(rt),
        "Regex::clone" => regex_clone(rt),
        "escape" => escaped(rt),
        _ => {}
    }
}
