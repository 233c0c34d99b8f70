//! The public surface by its paths through `syntect`: each name is passed on here, so that one that
//! isn't there any more is refused.
#![tactic(auto)]

/// Scopes, patterns, grammars, sets of them, states and metadata.
pub mod parsing {
    pub use syntect::parsing::syntax_definition::{
        CaptureMapping, Context, ContextId, ContextReference, MatchOperation, MatchPattern, Pattern,
    };
    pub use syntect::parsing::{
        ATOM_LEN_BITS, BasicScopeStackOp, ClearAmount, LoadMetadata, MatchPower, Metadata,
        MetadataError, MetadataItems, MetadataSet, ParseScopeError, ParseState, ParseSyntaxError,
        ParsingError, PatternError, RawMetadataEntry, Regex, Region, Scope, ScopeError,
        ScopeRepository, ScopeStack, ScopeStackOp, ScopedMetadata, SyntaxDefinition,
        SyntaxReference, SyntaxSet, SyntaxSetBuilder, escape,
    };
}

/// What a host can limit.
pub mod within {
    pub use syntect::easy::HighlightWithinError;
    pub use syntect::parsing::{
        FindWithinError, FirstLineLimit, FolderWithinError, LimitReached, Limits, LineLimit,
        LoadWithinError, PassedOver, PatternPlace, ReadWithinError, add_from_folder_within,
        add_what_loads_within, find_syntax_by_first_line_within, find_syntax_for_file_within,
        load_from_str_within,
    };
}

/// Themes, styles and highlighters.
pub mod highlighting {
    pub use syntect::highlighting::{
        Color, FontStyle, HighlightIterator, HighlightState, Highlighter, ParseSettings,
        ParseThemeError, RangedHighlightIterator, ScopeSelector, ScopeSelectors, ScoredStyle,
        Settings, SettingsError, Style, StyleModifier, Theme, ThemeItem, ThemeSet, ThemeSettings,
        UnderlineOption,
    };
}

/// Lines and files.
pub mod easy {
    pub use syntect::easy::{
        HighlightFile, HighlightLines, ScopeRangeIterator, ScopeRegionIterator,
    };
}

/// Pages, spans and sheets.
pub mod html {
    pub use syntect::html::{
        ClassStyle, ClassedHTMLGenerator, IncludeBackground, SpanWriter,
        append_highlighted_html_for_styled_line, css_for_theme_with_class_style,
        highlighted_html_for_file, highlighted_html_for_reader, highlighted_html_for_string,
        line_tokens_to_classed_spans, start_highlighted_html_snippet,
        styled_line_to_highlighted_html,
    };
}

/// Texts, their lines and pieces.
pub mod util {
    pub use syntect::escape::Escape;
    pub use syntect::util::{
        LinesWithEndings, as_24_bit_terminal_escaped, as_latex_escaped, debug_print_ops,
        modify_range, split_at,
    };
}

/// What holds all else, and what tells people of refusals.
pub mod own {
    pub use syntect::assets::{Assets, AssetsBuilder, AssetsError, Colors, Format, Shown};
    pub use syntect::buffer::{LineAnswer, LineBuffer};
    pub use syntect::documents::{
        Choice, LINE_SHEET, LineForm, classed_in, classed_text, document, numbered_file,
        numbered_in, numbered_text, sheet_for_light_and_dark,
    };
    pub use syntect::explain::{why_not_loaded, why_not_read};
    pub use syntect::tree::{Kind, Tree};
    pub use syntect::values::{Seq, Table, Text};
    pub use syntect::{Error, LoadingError};
}
