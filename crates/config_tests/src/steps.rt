// The interceptors and the selector of a source, case by case, in the form of plans.rt.
use crate::plans::{Part, count_cases};
use flume_config::plan_of;
use prop_text::read_properties;
use std::alloc::Global;
use std::test::Fail;

// A source with two channels and one interceptor, whose keys the lines from the eleventh on have.
const STEPPED: &str = "a1.sources=r
a1.channels=c d
a1.sinks=k
a1.sources.r.type=stdin
a1.sources.r.channels=c d
a1.channels.c.type=memory
a1.channels.d.type=memory
a1.sinks.k.type=null
a1.sinks.k.channel=c
a1.sources.r.interceptors=i
";

// The front of the keys of an interceptor, of its serializers and of a selector.
const FRONTS: [(&str, &str); 3] = [
    ("I.", "a1.sources.r.interceptors.i."),
    ("Z.", "a1.sources.r.interceptors.i.serializers."),
    ("S.", "a1.sources.r.selector."),
];

// The lines with these fronts written out.
fn written(alloc: Global, lines: &str) -> Result<String, Fail> {
    let mut text = String::from_str(alloc, STEPPED)?;
    for line in lines.split('\n') {
        for (short, front) in FRONTS {
            if let Some(rest) = line.strip_prefix(short) {
                text.push_str(front)?;
                text.push_str(rest)?;
                text.push_str("\n")?;
            }
        }
    }
    Ok(text)
}

// The interceptors and the selector of the one source of a plan, or the line of the first fault.
fn told_of_source(alloc: Global, lines: &str) -> Result<String, Fail> {
    let text = written(alloc, lines)?;
    let properties = read_properties(alloc, text.as_bytes())?;
    let mut out = String::new(alloc);
    match plan_of(alloc, &properties, "a1") {
        Err(refused) => write!(out, "{refused}")?,
        Ok(plan) => {
            for source in &plan.sources {
                let steps = source.steps.as_slice();
                let selector = &source.selector;
                write!(out, "{steps:?} {selector:?}")?;
            }
        }
    }
    Ok(out)
}

// Lines from the eleventh on, and what they make of an interceptor, or their fault.
const INTERCEPTORS: &str = r#"# timestamp by default
I.type=Timestamp
> [Step(Timestamp { header: "timestamp", preserve: false })]
# timestamp with each key
I.type=org.apache.flume.interceptor.TimestampInterceptor$Builder
I.headerName=at
I.preserveExisting=TRUE
> [Step(Timestamp { header: "at", preserve: true })]
# host by default
I.type=host
> [Step(Host { use_ip: true, header: "host", preserve: false })]
# host with each key
I.type=org.apache.flume.interceptor.HostInterceptor$Builder
I.useIP=false
I.hostHeader=h
> [Step(Host { use_ip: false, header: "h", preserve: false })]
# static by default
I.type=static
> [Step(Static { key: "key", value: "value", preserve: true })]
# removed headers
I.type=remove_header
I.withName=a b
I.fromList=c , d e,,f
> [Step(Remove { names: ["a b", "c", "d e", "f"] })]
# no removed header
I.type=remove_header
> [Step(Remove { names: [] })]
# filter by default
I.type=regex_filter
> [Regex { keys: Filter { regex: ".*", exclude: false }, line: 11 }]
# filter with each key
I.type=regex_filter
I.regex=a+
I.excludeEvents=true
> [Regex { keys: Filter { regex: "a+", exclude: true }, line: 12 }]
# extractor with each key
I.type=regex_extractor
I.regex=(a)(b)
I.serializers=s t
Z.s.name=one
Z.t.type=org.apache.flume.interceptor.RegexExtractorInterceptorMillisSerializer
Z.t.name=two
Z.t.pattern=HH
> [Regex { keys: Extract { regex: "(a)(b)", groups: [Group { name: "one", millis: None }, Group { name: "two", millis: Some("HH") }] }, line: 12 }]
# replacement by nothing
I.type=search_replace
I.searchPattern=a
I.replaceString=
> [Regex { keys: Replace { search: "a", text: "" }, line: 12 }]
# interceptor that is handed in
I.type=plugin.x
> [Plugin { name: "x", line: 11 }]
// faults
# no type
> missing a1.sources.r.interceptors.i.type
# unknown type
I.type=uuid
> line 11: unknown type
# address neither true nor false
I.type=host
I.useIP=yes
> line 12: bad number
# removal by a pattern
I.type=remove_header
I.matching=a
> line 12: unsupported
# bad pattern of a filter
I.type=regex_filter
I.regex=(
> line 12: bad pattern
# bad number before a bad pattern
I.type=regex_filter
I.excludeEvents=x
I.regex=(
> line 12: bad number
# extractor without serializers
I.type=regex_extractor
I.regex=a
> missing a1.sources.r.interceptors.i.serializers
# unknown type of a serializer
I.type=regex_extractor
I.regex=a
I.serializers=s
Z.s.name=n
Z.s.type=other
> line 15: unknown type
# bad pattern of dates
I.type=regex_extractor
I.regex=a
I.serializers=s
Z.s.name=n
Z.s.pattern=MMM
Z.s.type=org.apache.flume.interceptor.RegexExtractorInterceptorMillisSerializer
> line 15: bad pattern
"#;

/// Whether the plan of an interceptor's lines has these steps.
pub fn has_steps(alloc: Global, lines: &str, want: &str) -> Result<bool, Fail> {
    let told = told_of_source(alloc, lines)?;
    let text = told.as_str();
    let steps = text.strip_suffix(" Replicating { channels: 2, optional: [] }");
    Ok(steps.unwrap_or(text) == want)
}

#[test]
fn interceptors_are_planned(rt: HostRuntime) -> Result<(), Fail> {
    assert!(rt; count_cases(rt.alloc(), Part::Steps, INTERCEPTORS)? == 21);
    Ok(())
}

// Lines from the eleventh on after a `static` interceptor, and the selector that they make, or their fault.
const SELECTORS: &str = r#"# replicating by default
> Replicating { channels: 2, optional: [] }
# replicating with an optional channel
S.type=REPLICATING
S.optional=d
> Replicating { channels: 2, optional: [1] }
# multiplexing with each key
S.type=multiplexing
S.mapping.CZ=c d
S.mapping.US=d
S.default=d
S.optional.US=c
S.optional=none
> Multiplexing { header: "flume.selector.header", mapping: [("CZ", [0, 1]), ("US", [1])], default: [1], optional: [("US", [0])] }
# multiplexing without a mapping
S.type=multiplexing
S.header=state
> Multiplexing { header: "state", mapping: [], default: [], optional: [] }
# unknown type of a selector
S.type=other
> line 12: unknown type
# unknown optional channel
S.optional=e
> line 12: unknown name
# optional channel listed twice
S.optional=d d
> line 12: clash
# unknown channel of a mapping
S.type=multiplexing
S.mapping.x=c e
> line 13: unknown name
# unknown default channel
S.type=multiplexing
S.default=k
> line 13: unknown name
"#;

/// Whether the plan of a selector's lines has this selector.
pub fn has_selector(alloc: Global, lines: &str, want: &str) -> Result<bool, Fail> {
    let mut all = String::from_str(alloc, "I.type=static\n")?;
    all.push_str(lines)?;
    let told = told_of_source(alloc, all.as_str())?;
    let text = told.as_str();
    let front = "[Step(Static { key: \"key\", value: \"value\", preserve: true })] ";
    Ok(text.strip_prefix(front).unwrap_or(text) == want)
}

#[test]
fn selectors_are_planned(rt: HostRuntime) -> Result<(), Fail> {
    assert!(rt; count_cases(rt.alloc(), Part::Selector, SELECTORS)? == 9);
    Ok(())
}
