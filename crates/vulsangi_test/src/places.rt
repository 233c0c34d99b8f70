//! Where values of grammars stand.
use vulsangi_check::vulsangi_grammar::place::{Place, Step, place_of};

/// A text by its lines: a map of lists of maps, with lists that stand as deep as their keys.
const LINES: &[&str] = &[
    "%YAML 1.2",
    "---",
    "name: A",
    "contexts:",
    "  main:",
    "  - match: a",
    "    push:",
    "      - - match: b",
    "        - match: c",
    "      - other",
    "  # - match: nothing",
    "  -  match: d",
    "     'scope': e",
    "  other: []",
];

/// Steps, and where they lead.
const ROWS: &[(&[Step<'static>], usize, usize)] = &[
    (&[], 1, 1),
    (&[Step::Key("name")], 3, 1),
    (&[Step::Key("contexts")], 4, 1),
    (&[Step::Key("contexts"), Step::Key("other")], 14, 3),
    (
        &[Step::Key("contexts"), Step::Key("main"), Step::Item(0)],
        6,
        5,
    ),
    (
        &[
            Step::Key("contexts"),
            Step::Key("main"),
            Step::Item(0),
            Step::Key("push"),
            Step::Item(0),
            Step::Item(1),
            Step::Key("match"),
        ],
        9,
        11,
    ),
    (
        &[
            Step::Key("contexts"),
            Step::Key("main"),
            Step::Item(1),
            Step::Key("scope"),
        ],
        13,
        6,
    ),
    // what isn't there: the last place on the way
    (&[Step::Key("nothing")], 1, 1),
    (
        &[Step::Key("contexts"), Step::Key("main"), Step::Item(2)],
        5,
        3,
    ),
    (&[Step::Key("name"), Step::Key("contexts")], 3, 1),
];

#[test]
fn steps_lead_to_places(rt: HostRuntime) {
    for (steps, line, column) in ROWS {
        let wanted = Place {
            line: *line,
            column: *column,
        };
        assert_eq!(rt; place_of(LINES, *steps), wanted);
    }
}
