// Steps over regular expressions: what becomes of an event, and which texts are no patterns.
use crate::passing::Passing;
use scenarios::pass;
use std::test::Fail;

const STEPS: &str = r#"Events in which a pattern is found are kept or dropped.
body abc
link filter b+
becomes abc
link filter-out b+
dropped
body acd
link filter b+
dropped
link filter-out b+
becomes acd
// no whole match is asked for, and none of the whole body
body ab
link filter ^b
dropped
body
link filter .*
becomes

A body that is no text is searched as bytes.
body \xffc
link filter c
becomes \xffc
link filter d
dropped

Groups become headers.
header two old
header four old
link extract (\d):(\d):(\d) => one, two, three
body 1:2:3.4foobar5
becomes [four=old][one=1][three=3][two=2]1:2:3.4foobar5
body 1:2
becomes [four=old][two=old]1:2
body \xff1:2:3
becomes [four=old][one=1][three=3][two=2]\xff1:2:3

So it is with a group that took no part, an empty one, in a body that is no text, and where a header has no group.
body y
link extract (x)|(y) => a, b
becomes [b=y]y
link extract (x*)(y) => a, b
becomes [a=][b=y]y
body \xffy
becomes [a=][b=y]\xffy
body y
link extract (y) => a, b
becomes [a=y]y

The date of a line becomes its milliseconds.
link extract ^(\d{4}-\d\d-\d\d \d\d:\d\d) => timestamp:yyyy-MM-dd HH:mm
body 2012-10-18 18:47 up
becomes [timestamp=1350586020000]2012-10-18 18:47 up

Matches are replaced.
body ab cd
link replace ^[A-Za-z0-9_]+
becomes  cd
body abcb
link replace b => x
becomes axcx
body ab
link replace (a)(b) => $2-$1
becomes b-a
body a
link replace a => $$
becomes $
body \xffa
link replace a => b
becomes \xffb"#;

#[test]
fn events_pass_steps_over_patterns(rt: HostRuntime) -> Result<(), Fail> {
    pass::<Passing>(rt.alloc(), STEPS)
}

// Rows of a pattern of dates, a body, and the milliseconds, which GNU `date` gives (`date -u -d DATE +%s`), or nothing where the
// body is no such date.
const DATES: &str = r#"Dates become milliseconds.
date yyyy-MM-dd HH:mm:ss.SSS|1970-01-01 00:00:00.000|0
date yyyy-MM-dd HH:mm:ss.SSS|1969-12-31 23:59:59.999|-1
date yyyy-MM-dd HH:mm:ss.SSS|0000-01-01 00:00:00.000|-62167219200000
date yyyy-MM-dd HH:mm:ss.SSS|9999-12-31 23:59:59.999|253402300799999
date yyyy-MM-dd HH:mm:ss.SSS|2012-12-31 23:59:59.999|1356998399999
date yyyy-MM-dd HH:mm:ss.SSS|2100-02-28 12:00:00.500|4107499200500
date yyyy-MM-dd HH:mm:ss.SSS|1900-03-01 00:00:00.000|-2203891200000
date yyyy-MM-dd HH:mm:ss.SSS|2000-02-29 00:00:00.000|951782400000
// one beyond each field's limits
date yyyy-MM-dd HH:mm:ss.SSS|2012-00-31 23:59:59.999|
date yyyy-MM-dd HH:mm:ss.SSS|2012-13-31 23:59:59.999|
date yyyy-MM-dd HH:mm:ss.SSS|2012-12-00 23:59:59.999|
date yyyy-MM-dd HH:mm:ss.SSS|2012-12-32 23:59:59.999|
date yyyy-MM-dd HH:mm:ss.SSS|2012-11-31 23:59:59.999|
date yyyy-MM-dd HH:mm:ss.SSS|2100-02-29 12:00:00.500|
date yyyy-MM-dd HH:mm:ss.SSS|1900-02-29 12:00:00.500|
date yyyy-MM-dd HH:mm:ss.SSS|2012-12-31 24:00:00.000|
date yyyy-MM-dd HH:mm:ss.SSS|2012-12-31 23:60:00.000|
date yyyy-MM-dd HH:mm:ss.SSS|2012-12-31 23:59:60.000|
// as many digits as letters, and the whole group
date yyyy-MM-dd HH:mm:ss.SSS|2012-12-31 23:59:59.99|
date yyyy-MM-dd HH:mm:ss.SSS|2012-12-31 23:59:59.9999|
date yyyy-MM-dd HH:mm:ss.SSS|212-12-31 23:59:59.999|
date yyyy-MM-dd HH:mm:ss.SSS|2012-12-31 23:59:59,999|
date yyyy-MM-dd HH:mm:ss.SSS|2012-12-31 23:59:+9.999|
date yyyy-MM-dd HH:mm:ss.SSS| 2012-12-31 23:59:59.999|
// fields that are left out
date dd/MM|28/02|5011200000
date dd/MM|29/02|
date yyyyMMdd|20121018|1350518400000
date HHmm|1847|67620000
date SSS ss|250 07|7250
date ||0
date |x|
// texts between quotes, and characters beyond ASCII
date yyyy-MM-dd'T'HH:mm'Z'|2012-10-18T18:47Z|1350586020000
date yyyy-MM-dd'T'HH:mm'Z'|2012-10-18 18:47Z|
date 'at ''y'HH|at y01|3600000
date HH·mm|18·47|67620000
date HH''mm|1847|67620000
// a body that is no text
date HH·mm|18\xb747|"#;

#[test]
fn dates_become_milliseconds(rt: HostRuntime) -> Result<(), Fail> {
    pass::<Passing>(rt.alloc(), DATES)
}

// `regex` reads each pattern that is refused as out of memory, and refuses it for its built size, of which the limit is 10 MiB: that
// is no bad pattern.
const BUILDS: &str = r#"Steps are built or refused, for filter, replace
no-pattern $ (
no-pattern $ [
no-pattern $ a{2
no-pattern $ \
no-room $ a{1000000000}
no-room $ (?:a{9}){1000000000}
built $ a{100}

So is one of a pattern of a whole text.
no-room filter ^(b|a{1000000000})$
no-room replace ^(b|a{1000000000})$

Some texts are no patterns of dates, for yyy, yy, yyyyy, yyyy-yyyy, MMM, d, SS, hh, EEE, yyyy-MM-ddTHH, ', HH', 'a'b'c', z, ss.SSSS
no-pattern extract (.)(.) => a:HH, b:$"#;

#[test]
fn steps_are_built_or_refused(rt: HostRuntime) -> Result<(), Fail> {
    pass::<Passing>(rt.alloc(), BUILDS)
}

// Of the bytes of a body an event without headers has 33,554,424 at most.
const LARGE_BY_A_MATCH: &str = "One byte more for the one match may be one too many.
link replace ^a => xx
large a 33554423 passes
large a 33554424 too-large 33554433";

#[test]
fn what_a_match_makes_too_large_is_refused(rt: HostRuntime) -> Result<(), Fail> {
    pass::<Passing>(rt.alloc(), LARGE_BY_A_MATCH)
}

const LARGE_BY_A_HEADER: &str =
    "Ten bytes for the header k=a, two lengths, a key and a value, may be too many.
link extract ^(a) => k
large a 33554414 passes
large a 33554415 too-large 33554433";

#[test]
fn what_a_header_makes_too_large_is_refused(rt: HostRuntime) -> Result<(), Fail> {
    pass::<Passing>(rt.alloc(), LARGE_BY_A_HEADER)
}
