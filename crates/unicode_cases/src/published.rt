// The published examples: of Unicode, chapter 3, and of XML's names.
use super::{Tally, Verdict, none, state_right, text_right, with};
use utf::same_text;
use xml::valid_name;

// State 1 is that of a text with U+FFFD put in, and no example is bad UTF-16.
fn state_with(replaced: usize) -> u8 {
    u8::from(replaced != 0)
}

fn text_case(t: Tally, utf16: bool, s: &[u8], want: &[u8], replaced: usize) -> Tally {
    let text = text_right(utf16, s, want);
    let state = state_right(utf16, s, state_with(replaced), replaced);
    let pair = same_text(utf16, s, false, want);
    with(
        t,
        Verdict {
            text,
            state,
            name: true,
            pair,
        },
    )
}

fn name_case(t: Tally, s: &[u8], valid: bool) -> Tally {
    let name = valid_name(false, s);
    with(
        t,
        Verdict {
            text: true,
            state: true,
            name: name == valid,
            pair: true,
        },
    )
}

// The Unicode Standard, chapter 3, section 3.9: U+FFFD for each maximal subpart, by its tables and by the examples in its text; and Table
// 3-4's four characters, 004D 0430 4E8C 10302, in UTF-8 (the example of D92) and in UTF-16 (that of D91). Behind each text is how many U+FFFD
// were put in: in the tables as many as they show.
pub(crate) fn unicode() -> Tally {
    let mut t = none();
    // Table 3-8, U+FFFD for Non-Shortest Form Sequences
    t = text_case(
        t,
        false,
        b"\xc0\xaf\xe0\x80\xbf\xf0\x81\x82A",
        b"\xef\xbf\xbd\xef\xbf\xbd\xef\xbf\xbd\xef\xbf\xbd\xef\xbf\xbd\xef\xbf\xbd\xef\xbf\xbd\xef\xbf\xbdA",
        8,
    );
    // Table 3-9, U+FFFD for Ill-Formed Sequences for Surrogates
    t = text_case(
        t,
        false,
        b"\xed\xa0\x80\xed\xbf\xbf\xed\xafA",
        b"\xef\xbf\xbd\xef\xbf\xbd\xef\xbf\xbd\xef\xbf\xbd\xef\xbf\xbd\xef\xbf\xbd\xef\xbf\xbd\xef\xbf\xbdA",
        8,
    );
    // Table 3-10, U+FFFD for Other Ill-Formed Sequences
    t = text_case(
        t,
        false,
        b"\xf4\x91\x92\x93\xffA\x80\xbfB",
        b"\xef\xbf\xbd\xef\xbf\xbd\xef\xbf\xbd\xef\xbf\xbd\xef\xbf\xbdA\xef\xbf\xbd\xef\xbf\xbdB",
        7,
    );
    // Table 3-11, U+FFFD for Truncated Sequences
    t = text_case(
        t,
        false,
        b"\xe1\x80\xe2\xf0\x91\x92\xf1\xbfA",
        b"\xef\xbf\xbd\xef\xbf\xbd\xef\xbf\xbd\xef\xbf\xbdA",
        4,
    );
    // the text on D93b: C0, AF and F4 80 80 are maximal subparts
    t = text_case(
        t,
        false,
        b"A\xc0\xafA\xf4\x80\x80A",
        b"A\xef\xbf\xbd\xef\xbf\xbdA\xef\xbf\xbdA",
        3,
    );
    // Constraints on Conversion Processes: C2 does not swallow what follows
    t = text_case(t, false, b"\xc2AB", b"\xef\xbf\xbdAB", 1);
    // U+FFFD itself, by Table 3-6: it stands in the file, and is none that was put in
    t = text_case(t, false, b"\xef\xbf\xbd", b"\xef\xbf\xbd", 0);
    // Table 3-4, Examples of Unicode Encoding Forms
    t = text_case(
        t,
        false,
        b"M\xd0\xb0\xe4\xba\x8c\xf0\x90\x8c\x82",
        b"M\xd0\xb0\xe4\xba\x8c\xf0\x90\x8c\x82",
        0,
    );
    text_case(
        t,
        true,
        b"M\x00\x30\x04\x8c\x4e\x00\xd8\x02\xdf",
        b"M\xd0\xb0\xe4\xba\x8c\xf0\x90\x8c\x82",
        0,
    )
}

// Names from the examples of XML 1.0 (Fifth Edition) and of Namespaces in XML 1.0, whose qualified names have a colon and so are none here;
// and those from the documentation of the Rust's `is_valid_name`.
pub(crate) fn names() -> Tally {
    let mut t = none();
    t = name_case(t, b"greeting", true);
    t = name_case(t, b"termdef", true);
    t = name_case(t, b"IMG", true);
    t = name_case(t, b"dictionary-body", true);
    t = name_case(t, b"div1", true);
    t = name_case(t, b"edi", true);
    t = name_case(t, b"price", true);
    t = name_case(t, b"edi:price", false);
    t = name_case(t, b"xml:lang", false);
    t = name_case(t, b"isbn:number", false);
    t = name_case(t, b"versionCode", true);
    t = name_case(t, b"intent-filter", true);
    t = name_case(t, b"1.0", false);
    t = name_case(t, b"a:b", false);
    name_case(t, b"", false)
}
