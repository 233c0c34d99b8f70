//! Regions, copies of patterns, and searches whose steps are counted.
use crate::below::count::count::GhostCount;
use crate::below::count::meter::Meter;
use crate::below::count::stop::Stop;
use crate::below::pattern_seek::depths::Depths;
use crate::below::pattern_seek::prospect::Prospect;
use crate::below::pattern_table::starts::is_in;
use crate::below::regexes::regex::Regex;
use crate::below::regexes::region::Region;
use crate::found::{equal, holds};
use std::process::Abort;

#[test]
fn keeps_a_region_without_a_match(rt: HostRuntime) {
    let regex = Regex::new(
        rt.alloc(),
        String::from_str(rt.alloc(), "b").expect(&rt, "an answer"),
    )
    .expect(&rt, "an answer");
    let copy = regex.clone(rt.alloc()).expect(&rt, "an answer");
    let mut region = Region::default(rt.alloc());
    holds(
        &rt,
        regex
            .search_into("ab", 0, 2, &mut region)
            .expect(&rt, "an answer"),
    );
    let before = region.clone(rt.alloc()).expect(&rt, "an answer");
    holds(
        &rt,
        !copy
            .search_into("ab", 0, 1, &mut region)
            .expect(&rt, "an answer"),
    );
    holds(&rt, region == before);
    equal(&rt, region.pos(0), Some((1, 2)));
    equal(&rt, region.pos(1), None);
}

#[test]
fn copies_are_searched_alike(rt: HostRuntime) {
    let regex = Regex::new(
        rt.alloc(),
        String::from_str(rt.alloc(), "b").expect(&rt, "an answer"),
    )
    .expect(&rt, "an answer");
    let copy = regex.clone(rt.alloc()).expect(&rt, "an answer");
    holds(
        &rt,
        !regex.is_match(rt.alloc(), "ab").expect(&rt, "an answer"),
    );
    holds(
        &rt,
        regex.is_match(rt.alloc(), "ba").expect(&rt, "an answer"),
    );
    holds(&rt, regex == copy);
    equal(&rt, regex.regex_str(), "b");
}

/// Two searches of a text, and what is asked of the groups.
fn finds(rt: &(impl Abort + AllocGlobal), regex: &Regex) {
    let mut region = Region::default(rt.alloc());
    let found = regex.search_into("abbc bbb", 0, 8, &mut region);
    equal(rt, found.expect(rt, "memory"), true);
    equal(rt, region.pos(0), Some((1, 4)));
    let found = regex.search_into("abbc bbb", 4, 8, &mut region);
    equal(rt, found.expect(rt, "memory"), true);
    equal(rt, region.pos(1), Some((5, 8)));
    equal(rt, regex.group(1), Some(false));
    equal(rt, regex.group(2), Some(true));
    equal(rt, regex.group(3), None);
}

/// A pattern is compiled by its first search; then it is searched as it was compiled, and a copy is
/// compiled anew.
#[test]
fn finds_alike_when_searched_again(rt: HostRuntime) {
    let pattern = "(b+)c?|(?=(x))";
    let text = String::from_str(rt.alloc(), pattern).expect(&rt, "memory");
    let regex = Regex::new(rt.alloc(), text).expect(&rt, "memory");
    finds(&rt, &regex);
    finds(&rt, &regex);
    finds(&rt, &regex.clone(rt.alloc()).expect(&rt, "memory"));
    let text = String::from_str(rt.alloc(), pattern).expect(&rt, "memory");
    finds(&rt, &Regex::ready(rt.alloc(), text).expect(&rt, "memory"));
}

#[test]
fn tells_where_a_match_begins(rt: HostRuntime) {
    let regex = Regex::new(
        rt.alloc(),
        String::from_str(rt.alloc(), "(?<=a)b|c").expect(&rt, "an answer"),
    )
    .expect(&rt, "an answer");
    let mut region = Region::default(rt.alloc());
    holds(
        &rt,
        !regex
            .match_at("abc", 0, &mut region)
            .expect(&rt, "an answer"),
    );
    equal(&rt, region.pos(0), None);
    holds(
        &rt,
        regex
            .match_at("abc", 1, &mut region)
            .expect(&rt, "an answer"),
    );
    equal(&rt, region.pos(0), Some((1, 2)));
    holds(
        &rt,
        !regex
            .match_at("abc", 3, &mut region)
            .expect(&rt, "an answer"),
    );
    equal(&rt, region.pos(0), Some((1, 2)));
}

/// A pattern of which each search is bounded, and the others.
#[test]
fn tells_which_patterns_are_linear(rt: HostRuntime) {
    let patterns = [
        ("(a+)+b", true),
        ("((((((((((((((((a*)*)*)*)*)*)*)*)*)*)*)*)*)*)*)*)*b", true),
        ("((((((((((((((((a+)+)+)+)+)+)+)+)+)+)+)+)+)+)+)+)+b", true),
        ("(?<=ab|c)d", true),
        ("(a)\\1", false),
        ("(?<=a+)b", false),
        ("(?:(?=(a))b)*", false),
        ("(?:a{1000}){1000}", false),
        ("(", true),
    ];
    for (pattern, wanted) in patterns {
        let text = String::from_str(rt.alloc(), pattern).expect(&rt, "memory");
        let regex = Regex::new(rt.alloc(), text).expect(&rt, "memory");
        equal(
            &rt,
            regex.is_linear(rt.alloc()).expect(&rt, "memory"),
            wanted,
        );
    }
}

/// A pattern, a character that comes after white space or else after a word in which a match of it
/// is to begin, and whether one can begin there.
const BEHIND: [(&str, bool, u8, bool); 13] = [
    ("\\s*(?=\\|)", true, b'|', true),
    ("\\s*(?=\\|)", true, b'a', false),
    ("^\\s*(class)\\b", true, b'c', true),
    ("^\\s*(class)\\b", true, b'd', false),
    ("\\s*(\\.)", true, b'(', false),
    ("[ \\t]+|x", true, b'a', true),
    ("\\S", true, b'a', true),
    ("[a-z]+\\(", false, b'(', true),
    ("[a-z]+\\(", false, b')', false),
    ("[a-z]+\\s*\\(", false, b' ', true),
    ("[a-z]+\\b", false, b')', true),
    ("\\w+(?=!)", false, b'!', true),
    ("\\w+(?=!)", false, b'?', false),
];

#[test]
fn tells_what_stands_behind_a_match_begun(rt: HostRuntime) {
    for (pattern, blank, behind, wanted) in BEHIND {
        let text = String::from_str(rt.alloc(), pattern).expect(&rt, "memory");
        let regex = Regex::new(rt.alloc(), text).expect(&rt, "memory");
        let places = if blank {
            regex.behind_blanks()
        } else {
            regex.behind_words()
        };
        equal(&rt, is_in(places, behind), wanted);
    }
}

/// A pattern, and whether it is seen to begin where a word begins or ends, and where a line begins.
const AT_EDGES: [(&str, bool, bool); 5] = [
    ("\\bword", true, false),
    ("(\\b(a|b))c", true, false),
    ("^a|(?=^b)", false, true),
    ("word\\b", false, false),
    ("word\\b|^", false, false),
];

#[test]
fn tells_which_patterns_begin_at_edges(rt: HostRuntime) {
    for (pattern, edges, lines) in AT_EDGES {
        let text = String::from_str(rt.alloc(), pattern).expect(&rt, "memory");
        let regex = Regex::new(rt.alloc(), text).expect(&rt, "memory");
        equal(&rt, regex.begins_at_edges(), edges);
        equal(&rt, regex.begins_at_lines(), lines);
    }
}

/// Sixteen loops in one another: a search that backs up has as many ways as there are.
#[test]
fn searches_loops_in_one_another(rt: HostRuntime) {
    let pattern = "((((((((((((((((a*)*)*)*)*)*)*)*)*)*)*)*)*)*)*)*)*b";
    let text = String::from_str(rt.alloc(), pattern).expect(&rt, "memory");
    let regex = Regex::new(rt.alloc(), text).expect(&rt, "memory");
    let mut region = Region::default(rt.alloc());
    let line = "aaaaaaaaaaaaaaaaaaaaaaaaaaaaaaaaaaaaaaaa";
    let found = regex.search_into(line, 0, 40, &mut region);
    equal(&rt, found.expect(&rt, "memory"), false);
    let found = regex.search_into("caaab", 0, 5, &mut region);
    equal(&rt, found.expect(&rt, "memory"), true);
    equal(&rt, region.pos(0), Some((1, 5)));
}

/// A search that is counted finds what one that isn't does, also where it goes on by a plan.
#[test]
fn counts_the_steps_of_a_search(rt: HostRuntime) {
    let text = String::from_str(rt.alloc(), "(a+)+b").expect(&rt, "memory");
    let regex = Regex::new(rt.alloc(), text).expect(&rt, "memory");
    let mut region = Region::default(rt.alloc());
    let mut count = GhostCount::none();
    let line = "aaaaaaaaaaaaaaaaaaaaaaaaaaaaaaaaaaaaaaaacb";
    let found = regex.search_counted(line, 0, 42, &mut region, &mut count);
    equal(&rt, found.expect(&rt, "memory"), false);
    let found = regex.match_at_counted(line, 0, &mut region, &mut count);
    equal(&rt, found.expect(&rt, "memory"), false);
    let found = regex.search_counted("aab", 1, 3, &mut region, &mut count);
    equal(&rt, found.expect(&rt, "memory"), true);
    equal(&rt, region.pos(0), Some((1, 3)));
}

/// A pattern that is tried at place after place of one text begins where its matches do, also where
/// what they need no longer follows.
#[test]
fn tries_a_pattern_by_what_is_known(rt: HostRuntime) {
    let text = String::from_str(rt.alloc(), "a+b").expect(&rt, "memory");
    let regex = Regex::new(rt.alloc(), text).expect(&rt, "memory");
    let mut region = Region::default(rt.alloc());
    let mut meter = Meter::unlimited();
    let mut known = Prospect::new();
    let mut depths = Depths::new(rt.alloc());
    let line = "aabaa";
    let found = regex.match_at_known(line, 1, &mut known, &mut depths, &mut region, &mut meter);
    equal(&rt, found.expect(&rt, "memory"), true);
    let found = regex.match_at_known(line, 3, &mut known, &mut depths, &mut region, &mut meter);
    equal(&rt, found.expect(&rt, "memory"), false);
    let found = regex.match_at_known(line, 4, &mut known, &mut depths, &mut region, &mut meter);
    equal(&rt, found.expect(&rt, "memory"), false);
    equal(&rt, region.pos(0), Some((1, 3)));
    // Of another text something else is known
    known = Prospect::new();
    depths.forget();
    let found = regex.match_at_known("aaaab", 3, &mut known, &mut depths, &mut region, &mut meter);
    equal(&rt, found.expect(&rt, "memory"), true);
    equal(&rt, region.pos(0), Some((3, 5)));
}

/// At each of these letters a search that backs up has as many ways as there are.
const TRAP: &str = "aaaaaaaaaaaaaaaaaaaaaaaaaaaaaaaaaaaaaaaa.aacbbc";

/// The pattern of a text.
fn pattern_of(rt: &(impl Abort + AllocGlobal), text: &str) -> Regex {
    let text = String::from_str(rt.alloc(), text).expect(rt, "memory");
    Regex::new(rt.alloc(), text).expect(rt, "memory")
}

/// A pattern that backs up too often begins where its matches do, by a plan kept of the line.
#[test]
fn tries_a_pattern_by_a_plan_that_is_kept(rt: HostRuntime) {
    let regex = pattern_of(&rt, "(a+)+c");
    let mut region = Region::default(rt.alloc());
    let mut meter = Meter::unlimited();
    let mut known = Prospect::new();
    let mut depths = Depths::new(rt.alloc());
    let found = regex.match_at_known(TRAP, 0, &mut known, &mut depths, &mut region, &mut meter);
    equal(&rt, found.expect(&rt, "memory"), false);
    let found = regex.match_at_known(TRAP, 39, &mut known, &mut depths, &mut region, &mut meter);
    equal(&rt, found.expect(&rt, "memory"), false);
    let found = regex.match_at_known(TRAP, 41, &mut known, &mut depths, &mut region, &mut meter);
    equal(&rt, found.expect(&rt, "memory"), true);
    equal(&rt, region.pos(0), Some((41, 44)));
    let found = regex.match_at_known(TRAP, 42, &mut known, &mut depths, &mut region, &mut meter);
    equal(&rt, found.expect(&rt, "memory"), true);
    equal(&rt, region.pos(1), Some((42, 43)));
    let found = regex.match_at_known(TRAP, 43, &mut known, &mut depths, &mut region, &mut meter);
    equal(&rt, found.expect(&rt, "memory"), false);
}

/// A second pattern that backs up too often goes by a plan of its own, not by the one that is kept
/// of the first.
#[test]
fn tries_each_pattern_by_its_own_plan(rt: HostRuntime) {
    let first = pattern_of(&rt, "(a+)+c");
    let second = pattern_of(&rt, "(a+)+b");
    let mut region = Region::default(rt.alloc());
    let mut meter = Meter::unlimited();
    let mut known = Prospect::new();
    let mut other = Prospect::new();
    let mut depths = Depths::new(rt.alloc());
    let found = first.match_at_known(TRAP, 0, &mut known, &mut depths, &mut region, &mut meter);
    equal(&rt, found.expect(&rt, "memory"), false);
    let found = second.match_at_known(TRAP, 0, &mut other, &mut depths, &mut region, &mut meter);
    equal(&rt, found.expect(&rt, "memory"), false);
    let found = second.match_at_known(TRAP, 41, &mut other, &mut depths, &mut region, &mut meter);
    equal(&rt, found.expect(&rt, "memory"), false);
    let found = first.match_at_known(TRAP, 41, &mut known, &mut depths, &mut region, &mut meter);
    equal(&rt, found.expect(&rt, "memory"), true);
    equal(&rt, region.pos(0), Some((41, 44)));
}

/// A search stops where its steps are spent, also one of a pattern that has no plan, and leaves the
/// region as it was.
#[test]
fn stops_where_no_step_is_left(rt: HostRuntime) {
    let texts = ["(a+)+c", "(a+)+\\1c"];
    for text in texts {
        let regex = pattern_of(&rt, text);
        let mut region = Region::default(rt.alloc());
        let mut meter = Meter::within(100);
        let mut known = Prospect::new();
        let mut depths = Depths::new(rt.alloc());
        let told = regex.match_at_known(TRAP, 0, &mut known, &mut depths, &mut region, &mut meter);
        equal(&rt, told, Err(Stop::Spent));
        equal(&rt, meter.left(), Some(0));
        equal(&rt, region.pos(0), None);
    }
}

/// With steps enough the answer is that of a search without a limit, and some are left.
#[test]
fn answers_within_its_steps(rt: HostRuntime) {
    let regex = pattern_of(&rt, "(a+)+c");
    let mut region = Region::default(rt.alloc());
    let mut meter = Meter::within(1_000_000);
    let mut known = Prospect::new();
    let mut depths = Depths::new(rt.alloc());
    let told = regex.match_at_known(TRAP, 0, &mut known, &mut depths, &mut region, &mut meter);
    equal(&rt, told.expect(&rt, "an answer"), false);
    let told = regex.match_at_known(TRAP, 41, &mut known, &mut depths, &mut region, &mut meter);
    equal(&rt, told.expect(&rt, "an answer"), true);
    equal(&rt, region.pos(0), Some((41, 44)));
    holds(&rt, meter.left() != Some(0));
}

/// A plan of some 36000 cells, each of which goes on with the next where the line ends. What each
/// comes to there is worked out in an order in which no call waits for many others: a stack of 1 MB
/// would not hold them.
#[test]
fn fills_a_long_row(rt: HostRuntime) {
    let mut text = String::from_str(rt.alloc(), "(?:a+)+b|a+").expect(&rt, "memory");
    for _end in 0..18000 {
        text.push('$').expect(&rt, "memory");
    }
    let regex = Regex::new(rt.alloc(), text).expect(&rt, "memory");
    let linear = regex.is_linear(rt.alloc());
    equal(&rt, linear.expect(&rt, "memory"), true);
    let mut region = Region::default(rt.alloc());
    let line = "aaaaaaaaaaaaaaaaaaaaaaaaaaaaaaaaaaaaaaaa";
    let found = regex.search_into(line, 0, 40, &mut region);
    equal(&rt, found.expect(&rt, "memory"), true);
    equal(&rt, region.pos(0), Some((0, 40)));
}
