//! Lines with inline styles.
use crate::given::{ROWS, assets_in, equal, holds, is_text, within};
use std::fs;
use syntect_documents::below::assets::error::AssetsError;
use syntect_documents::below::parsing::within::LineLimit;
use syntect_documents::lines::LineForm;
use syntect_documents::numbered::{numbered_file, numbered_text};

const HELLO: &str =
    "<pre style=\"background-color:#020202;\">\n<span class=\"line\"><span style=\"color:#010101;\"> </span><span style=\"color:#030303;\">hello</span></span></pre>\n";

const MARKED: &str = "<pre style=\"background-color:#020202;\">\n\
<span class=\"line marked\" id=\"&quot;L9\" data-line=\"9\"><span style=\"color:#030303;\">a\n\
</span></span><span class=\"line\" id=\"&quot;L10\" data-line=\"10\"><span style=\"color:#010101;\">&lt;\n\
</span></span><span class=\"line marked\" id=\"&quot;L11\" data-line=\"11\"><span style=\"color:#010101;\">\n\
</span></span><span class=\"line marked\" id=\"&quot;L12\" data-line=\"12\"><span style=\"color:#030303;\">b</span></span></pre>\n";

const EMPTY: &str = "<pre style=\"background-color:#020202;\">\n</pre>\n";

const PLAIN_ROW: &str = "<pre style=\"background-color:#020202;\">\n\
<span class=\"line\" data-line=\"5\"><span style=\"color:#010101;\">xxxxxxxxxxxxxxxxxxxxxxxxxxxxxxxxxxxxxxxxxxxxxxxxxxxxxxxxxxxx\n\
</span></span><span class=\"line\" data-line=\"6\"><span style=\"color:#030303;\">hello</span></span></pre>\n";

/// The marked lines of a text whose first one is the ninth.
const MARKS: [(u64, u64); 2] = [(1, 9), (11, 12)];

#[test]
fn lines_in_each_form(rt: HostRuntime) {
    let alloc = rt.alloc();
    let (assets, _) = assets_in(&rt, "syntect_documents_lines");
    let theme = assets.theme(alloc, "shade").expect(&rt, "a theme");
    let form = LineForm {
        first: 9,
        numbers: true,
        anchor: Some("\"L"),
        marked: &MARKS,
    };
    let rows = [
        (" hello", LineForm::plain(), HELLO),
        ("a\n<\n\nb", form, MARKED),
        ("", form, EMPTY),
    ];
    for (text, form, wanted) in &rows {
        let shown = numbered_text(&assets, alloc, text, "t", theme, *form);
        is_text(&rt, shown, wanted);
    }
}

/// A line that reaches a limit is plain, and told by its place in the text.
#[test]
fn a_line_that_reaches_a_limit(rt: HostRuntime) {
    let alloc = rt.alloc();
    let (mut assets, _) = assets_in(&rt, "syntect_documents_limit");
    assets.limits.steps = 1_000_000;
    let theme = assets.theme(alloc, "shade").expect(&rt, "a theme");
    let form = LineForm {
        first: 5,
        numbers: true,
        ..LineForm::plain()
    };
    let shown = numbered_text(&assets, alloc, ROWS, "u", theme, form).expect(&rt, "a text");
    equal(&rt, shown.text.as_str(), PLAIN_ROW);
    holds(
        &rt,
        matches!(shown.plain, Some((1, LineLimit::Steps { .. }))),
    );
}

#[test]
fn texts_that_are_refused(rt: HostRuntime) {
    let alloc = rt.alloc();
    let (assets, _) = assets_in(&rt, "syntect_documents_refused");
    let theme = assets.theme(alloc, "shade").expect(&rt, "a theme");
    let plain = LineForm::plain();
    let refused = numbered_text(&assets, alloc, "", "none", theme, plain);
    holds(
        &rt,
        matches!(refused, Err(AssetsError::UnknownLanguage(..))),
    );
    let refused = numbered_text(&assets, alloc, "u", "l", theme, plain);
    holds(&rt, matches!(refused, Err(AssetsError::NotShown(_))));
    let last = LineForm {
        first: u64::MAX,
        ..plain
    };
    let refused = numbered_text(&assets, alloc, "a", "t", theme, last);
    holds(&rt, matches!(refused, Err(AssetsError::NotShown(_))));
}

#[test]
fn lines_of_files(rt: HostRuntime) {
    let alloc = rt.alloc();
    let (assets, folder) = assets_in(&rt, "syntect_documents_files");
    let theme = assets.theme(alloc, "shade").expect(&rt, "a theme");
    let plain = LineForm::plain();
    let path = within(&rt, &folder, "a.t");
    let shown = numbered_file(&assets, &rt, alloc, path.as_path(), theme, plain);
    is_text(&rt, shown, HELLO);
    let path = within(&rt, &folder, "b.t");
    let shown = numbered_file(&assets, &rt, alloc, path.as_path(), theme, plain);
    holds(&rt, matches!(shown, Err(AssetsError::NotRead(_))));
    fs::write(&rt, path.as_path(), b"\xff").expect(&rt, "a file");
    let shown = numbered_file(&assets, &rt, alloc, path.as_path(), theme, plain);
    holds(&rt, matches!(shown, Err(AssetsError::NotRead(_))));
}
