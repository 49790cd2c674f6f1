// Properties text, by the rules of its syntax.
use prop_text::{PropRefused, Properties, read_properties};
use std::alloc::Global;
use std::test::Fail;
use test_fixtures::WORKED;

/// What a text reads as: `key=value@line` for each key, or the fault's line.
fn told(alloc: Global, bytes: &[u8]) -> Result<String, Fail> {
    let mut out = String::new(alloc);
    match read_properties(alloc, bytes) {
        Ok(found) => {
            for place in 0..found.len() {
                let (key, value, line) = found.at(place);
                write!(out, "{key}={value}@{line};")?;
            }
        }
        Err(refused) => write!(out, "{refused}")?,
    }
    Ok(out)
}

// A text, and what it reads as.
const VECTORS: [[&str; 2]; 28] = [
    ["", ""],
    // separators, and white space round them
    ["a=1\nb:2\nc 3\nd\t4\n", "a=1@1;b=2@2;c=3@3;d=4@4;"],
    ["a = 1\nb : 2\nc == 3\nd  4", "a=1@1;b=2@2;c== 3@3;d=4@4;"],
    ["\u{c} a\u{c}=\u{c}1 \t\u{c}", "a=1@1;"],
    [" \\=a\\:\\ b=1", "=a: b=1@1;"],
    // line ends
    ["a=1\r\nb=2\rc=3\r\r\nd=4", "a=1@1;b=2@2;c=3@3;d=4@5;"],
    // comments and blank lines
    ["# a=1 \\\nb=2\n!c=3\n  # d=4\n \t\ne=5", "b=2@2;e=5@6;"],
    // continuations, by an odd number of backslashes
    ["a=1\\\n   2\nb=3", "a=12@1;b=3@3;"],
    ["a=1\\\\\n2=3", "a=1\\@1;2=3@2;"],
    ["a=1\\\\\\\n2", "a=1\\2@1;"],
    ["a=1\\\r\n2\\\n\nb=3", "a=12@1;b=3@4;"],
    ["\\\n# a=1", "#=a=1@1;"],
    ["a=1\\", "a=1@1;"],
    // the last of equal keys counts, where the first stands; an empty value leaves the key out
    ["a=1\nb=2\na=3", "a=3@3;b=2@2;"],
    ["a=1\nb=2\na=", "b=2@2;"],
    ["a=\nb=2\na=3\n=4", "a=3@3;b=2@2;=4@4;"],
    ["a\nb:\nc = \\t", ""],
    // escapes; trimming comes after them
    ["a=\\t1\\t2\\ \nb=\\n3\\r4\\f", "a=1\t2@1;b=\n3\r4@2;"],
    ["a=\\u0041\\u00e9\\u20AC\\q\\\\", "a=Aé€q\\@1;"],
    ["k\\u003d=\\ud83d\\ude00", "k==😀@1;"],
    ["ü\\ä=\\ö", "üä=ö@1;"],
    // bad escapes, of which the first line counts
    ["a=1\nb=\\u12\nc=\\u", "line 2: bad escape"],
    ["a=\\ud83d", "line 1: bad escape"],
    ["a=\\ud83dx\\ude00", "line 1: bad escape"],
    ["a=\\ude00", "line 1: bad escape"],
    ["a=\\ud83d\\u0041", "line 1: bad escape"],
    ["\na=1\\\n\\u00g0", "line 2: bad escape"],
    ["a\\u00=41", "line 1: bad escape"],
];

/// Vectors of the syntax, with the values that its rules give.
#[test]
fn vectors(rt: HostRuntime) -> Result<(), Fail> {
    for [text, want] in &VECTORS {
        assert!(rt;
            told(rt.alloc(), text.as_bytes())?.as_str() == *want,
            "at {text:?}"
        );
    }
    Ok(())
}

// Bytes, and the place of the first byte with which they are no text.
const NO_TEXTS: [(&[u8], usize); 9] = [
    (b"a=\x80", 2),
    (b"a=\xc0\xaf", 2),
    (b"a=\xc3", 3),
    (b"a=\xc3(", 3),
    (b"\\u\xe2\x82", 4),
    (b"\xe2\x82a", 2),
    (b"\xed\xa0\x80", 1),
    (b"\xf0\x9f\x98", 3),
    (b"\xf0\x9f\x98\xc0", 3),
];

fn is_no_text(alloc: Global, bytes: &[u8], place: usize) -> bool {
    match read_properties(alloc, bytes) {
        Ok(_) => false,
        Err(refused) => refused == PropRefused::NotUtf8 { at: place },
    }
}

/// The first byte with which bytes are no text, by the table of well-formed sequences of the Unicode standard.
#[test]
fn places_of_no_text(rt: HostRuntime) -> Result<(), Fail> {
    for (bytes, place) in &NO_TEXTS {
        assert!(rt; is_no_text(rt.alloc(), bytes, *place), "at {bytes:?}");
    }
    assert!(rt; told(rt.alloc(), b"\xff")?.as_str() == "byte 0: not UTF-8");
    Ok(())
}

// Keys, with their values and lines.
const FOUND: [(&str, Option<(&str, u32)>); 5] = [
    ("a1.sources.r1.channels", Some(("c1 c2", 8))),
    ("a1.channels.c1.capacity", Some(("200", 21))),
    ("a1.channels.c2.type", Some(("file", 11))),
    ("a1.channels", Some(("c1 c2", 3))),
    ("a1", None),
];

/// A whole configuration: look-ups, the line of a continued pair, and the last of two equal keys.
#[test]
fn worked_configuration(rt: HostRuntime) -> Result<(), Fail> {
    let found: Properties = read_properties(rt.alloc(), WORKED.as_bytes())?;
    assert!(rt; found.len() == 18 && !found.is_empty());
    for (key, want) in &FOUND {
        assert!(rt; found.get(key) == *want, "{key}");
    }
    Ok(())
}
