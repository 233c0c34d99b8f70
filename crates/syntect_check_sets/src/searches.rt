//! Further searches of patterns, and copies of regions.
use crate::below::count::count::GhostCount;
use crate::below::count::meter::Meter;
use crate::below::pattern_seek::depths::Depths;
use crate::below::pattern_seek::prospect::Prospect;
use crate::below::regexes::regex::Regex;
use crate::below::regexes::region::Region;
use crate::copies::show_copy;
use std::alloc::{AllocError, Global};
use syntect_check_calls::given::regex_of;
use syntect_check_calls::marks::{TIMES, answer, begin, end, left};

/// A pattern with a group, and a loop that tries several ways.
const PATTERN: &str = "(?<word>[a-c]+|x{2,3})(?=(\\s*))y*";

const TEXT: &str = "-abcabc yy";

/// How a match is looked for.
#[derive(Clone, Copy)]
enum Search {
    Into,
    IntoCounted,
    At,
    AtCounted,
    AtKnown,
    /// Whether searches are linear.
    Linear,
}

fn found(
    alloc: Global,
    regex: &Regex,
    search: Search,
    region: &mut Region,
) -> Result<bool, AllocError> {
    let mut count = GhostCount::none();
    match search {
        Search::Into => regex.search_into(TEXT, 0, 10, region),
        Search::IntoCounted => regex.search_counted(TEXT, 0, 10, region, &mut count),
        Search::At => regex.match_at(TEXT, 1, region),
        Search::AtCounted => regex.match_at_counted(TEXT, 1, region, &mut count),
        Search::AtKnown => {
            let mut known = Prospect::new();
            let mut depths = Depths::new(alloc);
            let mut meter = Meter::within(1000);
            let told = regex.match_at_known(TEXT, 1, &mut known, &mut depths, region, &mut meter);
            told.map_err(|_| AllocError)
        }
        Search::Linear => regex.is_linear(alloc),
    }
}

/// Searches again and again, each time with a region of its own. What is left of a region is the
/// place of its group.
fn searches(rt: &(impl Print + AllocGlobal), search: Search) {
    let Some(regex) = regex_of(rt.alloc(), PATTERN) else {
        return
    };
    left(rt, Region::new(rt.alloc()).pos(1));
    for _ in 0..TIMES {
        let mut region = Region::new(rt.alloc());
        begin(rt);
        let found = found(rt.alloc(), &regex, search, &mut region);
        end(rt);
        answer(rt, &found);
        left(rt, region.pos(1));
    }
}

fn region_clone(rt: &(impl Print + AllocGlobal)) {
    let alloc = rt.alloc();
    let mut region = Region::new(alloc);
    if let Some(regex) = regex_of(alloc, PATTERN) {
        let _ = regex.search_into(TEXT, 0, 10, &mut region);
    }
    for _ in 0..TIMES {
        begin(rt);
        let copy = region.clone(alloc);
        end(rt);
        show_copy(rt, &copy, &region);
    }
}

/// The calls.
pub const NAMES: [&str; 7] = [
    "Regex::search_into",
    "Regex::search_counted",
    "Regex::match_at",
    "Regex::match_at_counted",
    "Regex::match_at_known",
    "Regex::is_linear",
    "Region::clone",
];

/// Makes the call of this name, if there is one.
pub fn make(rt: &(impl Print + AllocGlobal), name: &str) {
    match name {
        "Regex::search_into" => searches(rt, Search::Into),
        "Regex::search_counted" => searches(rt, Search::IntoCounted),
        "Regex::match_at" => searches(rt, Search::At),
        "Regex::match_at_counted" => searches(rt, Search::AtCounted),
        "Regex::match_at_known" => searches(rt, Search::AtKnown),
        "Regex::is_linear" => searches(rt, Search::Linear),
        "Region::clone" => region_clone(rt),
        _ => {}
    }
}
