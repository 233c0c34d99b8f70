//! Worked examples.
use crate::below::theme::style::{Color, FontStyle, Style};
use crate::below::theme::theme::Theme;
use crate::found::equal;
use syntect_writers::escape::Escape;
use syntect_writers::html::{
    IncludeBackground, append_highlighted_html_for_styled_line, start_highlighted_html_snippet,
};

fn grey(part: u8, opaque: u8) -> Color {
    Color {
        r: part,
        g: part,
        b: part,
        a: opaque,
    }
}

fn on_white(foreground: Color) -> Style {
    Style {
        foreground,
        background: Color::WHITE,
        font_style: FontStyle::empty(),
    }
}

#[test]
fn escapes_five_characters(rt: HostRuntime) {
    let text = format!(in rt.alloc(); "{}", Escape("<a href=\"x\">'&'</a>ü")).expect(
        &rt,
        "an answer",
    );
    equal(
        &rt,
        text.as_str(),
        "&lt;a href=&quot;x&quot;&gt;&#39;&amp;&#39;&lt;/a&gt;ü",
    );
}

#[test]
fn a_piece_that_begins_with_white_space_keeps_its_style(rt: HostRuntime) {
    let pieces = [
        (on_white(grey(1, 255)), "a"),
        (on_white(grey(3, 255)), " b"),
    ];
    let mut html = String::from_str(rt.alloc(), "x").expect(&rt, "an answer");
    let behind = IncludeBackground::IfDifferent(grey(2, 255));
    append_highlighted_html_for_styled_line(&pieces, behind, &mut html).expect(&rt, "an answer");
    equal(
        &rt,
        html.as_str(),
        "x<span style=\"background-color:#ffffff;color:#010101;\">a</span><span style=\"background-color:#ffffff;color:#030303;\"> b</span>",
    );
}

#[test]
fn the_frame_of_a_theme(rt: HostRuntime) {
    let mut theme = Theme::default(rt.alloc());
    let (white, color) = start_highlighted_html_snippet(rt.alloc(), &theme).expect(
        &rt,
        "an answer",
    );
    equal(
        &rt,
        white.as_str(),
        "<pre style=\"background-color:#ffffff;\">\n",
    );
    equal(&rt, color, Color::WHITE);
    theme.settings.background = Some(grey(2, 255));
    let (dark, _) = start_highlighted_html_snippet(rt.alloc(), &theme).expect(&rt, "an answer");
    equal(
        &rt,
        dark.as_str(),
        "<pre style=\"background-color:#020202;\">\n",
    );
}
