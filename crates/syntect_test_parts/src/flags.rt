//! Font styles as flags.
use crate::below::theme::style::FontStyle;
use crate::found::{equal, holds};

#[test]
fn flags_changed(rt: HostRuntime) {
    let alloc = rt.alloc();
    let five = FontStyle::BOLD | FontStyle::ITALIC;
    let mut flags = five;
    flags |= FontStyle::UNDERLINE;
    equal(&rt, flags.bits(), 7);
    flags -= FontStyle::BOLD;
    flags ^= FontStyle::ITALIC;
    flags &= FontStyle::UNDERLINE;
    equal(&rt, flags.bits(), 2);
    equal(&rt, (five - FontStyle::BOLD).bits(), 4);
    equal(&rt, (five ^ FontStyle::BOLD).bits(), 4);
    equal(&rt, (five & FontStyle::BOLD).bits(), 1);
    holds(&rt, five.intersects(FontStyle::BOLD));
    flags.set(FontStyle::BOLD, true);
    flags.set(FontStyle::UNDERLINE, false);
    equal(&rt, flags.bits(), 1);
    let both = FontStyle::from_iter(alloc, [FontStyle::BOLD, FontStyle::ITALIC]).expect(
        &rt, "memory",
    );
    equal(&rt, both.bits(), 5);
    let mut all = both;
    all.extend([FontStyle::UNDERLINE]).expect(&rt, "memory");
    equal(&rt, all.bits(), 7);
    let nine = FontStyle::from_bits_unchecked(9);
    equal(
        &rt,
        format!(in alloc;
            "{five:o}{nine:x}{nine:X}{:?}",
            FontStyle::from_bits_truncate(7)
        )
        .expect(&rt, "memory")
        .as_str(),
        "599BOLD | UNDERLINE | ITALIC",
    );
}
