// Protocol texts of clients: this agent's text with one part written otherwise. A row has the part, `=>` and what is written
// for it; a line that begins with `//` is a comment.
use crate::handshakes::HASH;
use avro_hop::{accepts, protocol_text};
use event_core::NoMemory;
use md5::{Digest, Md5};
use std::alloc::Global;
use std::test::Fail;

const ACCEPTED: &str = r#""AvroSourceProtocol"=>"Other"
"protocol":"AvroSourceProtocol",=>
"namespace":"org.apache.flume.source.avro",=>
org.apache.flume.source.avro=>some.other.space
"name":"Status"=>"name":"Status","namespace":"org.apache.flume.source.avro"
"name":"Status"=>"name":"org.apache.flume.source.avro.Status"
"name":"AvroFlumeEvent"=>"name":"org.apache.flume.source.avro.AvroFlumeEvent"
"name":"AvroFlumeEvent"=>"name":".AvroFlumeEvent"
"response":"Status"=>"response":"org.apache.flume.source.avro.Status"
"type":"AvroFlumeEvent"=>"type":"org.apache.flume.source.avro.AvroFlumeEvent"
"items":"AvroFlumeEvent"=>"items":"org.apache.flume.source.avro.AvroFlumeEvent"
"values":"string"=>"values":{"type":"string"}
"values":"string"=>"values":{"type":"string","avro.java.string":"String"}
"values":"string"=>"values":{"avro.java.string":"String","type":"string"}
"values":"string"=>"values":"string","avro.java.string":"String"
{"type":"map","values":"string"}=>{"values":"string","type":"map"}
"type":"enum","name":"Status"=>"name":"Status","type":"enum"
"type":"enum"=>"type":"enum","doc":"what became of the events"
"type":"enum"=>"type":"enum","default":"UNKNOWN"
"type":"enum"=>"aliases":["Reply"],"type":"enum"
"type":"record"=>"type":"record","doc":"an event"
"type":"record"=>"type":"record","aliases":[]
"type":"record"=>"type":"record","namespace":""
{"name":"headers"=>{"doc":"of the event","name":"headers"
{"name":"headers"=>{"order":"ignore","name":"headers"
{"name":"headers"=>{"aliases":["head"],"default":{},"name":"headers"
{"name":"body","type":"bytes"}=>{"name":"body","type":"bytes","order":"descending"}
{"name":"body","type":"bytes"}=>{"name":"body","type":"bytes","default":""}
{"name":"body","type":"bytes"}=>{"type":"bytes","name":"body"}
"append":{=>"append":{"doc":"one event",
"appendBatch":{=>"appendBatch":{"doc":"many",
"response":"Status"}=>"response":"Status","errors":[]}
"response":"Status"}=>"response":"Status","one-way":false}
"response":"Status"}=>"errors":[],"one-way":false,"response":"Status"}
{"name":"event"=>{"doc":"the event","name":"event"
{"name":"events"=>{"name":"events","default":[]
"response":"Status"=>"response":{"type":"enum","name":"Status","symbols":["OK","FAILED","UNKNOWN"]}
"type":"AvroFlumeEvent"=>"type":{"type":"record","name":"AvroFlumeEvent","fields":[{"name":"headers","type":{"type":"map","values":"string"}},{"name":"body","type":"bytes"}]}
"items":"AvroFlumeEvent"=>"items":{"type":"record","name":"AvroFlumeEvent","fields":[{"name":"headers","type":{"type":"map","values":"string"}},{"name":"body","type":"bytes"}]}
:=>: 
"messages":{=>"more":{"a":[1,2.5,null,true]},"messages":{
"types":[=>"doc":"types","types":[
"types":[=>"types":[{"type":"fixed","name":"Hash","size":16},
"types":[=>"types":[{"type":"enum","name":"Colour","symbols":["RED"]},
"types":[=>"types":["null",
"name":"Status"=>"name":"\u0053tatus"
"OK"=>"\u004fK"
"response":"Status"=>"response":"Nothing","response":"Status"
"#;

/// A client's text: with docs, and with keys, types and messages in an order of its own.
pub const OWN_ORDER: &str =
    "{\"doc\":\"events of a client\",\"namespace\":\"org.apache.flume.source.avro\",\"protocol\":\"AvroSourceProtocol\",\"messages\":{\"appendBatch\":{\"doc\":\"many\",\"request\":[{\"doc\":\"in order\",\"name\":\"events\",\"type\":{\"type\":\"array\",\"items\":\"org.apache.flume.source.avro.AvroFlumeEvent\"}}],\"response\":\"Status\"},\"append\":{\"doc\":\"one\",\"request\":[{\"name\":\"event\",\"type\":\"AvroFlumeEvent\"}],\"response\":\"org.apache.flume.source.avro.Status\"}},\"types\":[{\"doc\":\"an event\",\"name\":\"AvroFlumeEvent\",\"type\":\"record\",\"fields\":[{\"doc\":\"texts\",\"name\":\"headers\",\"type\":{\"type\":\"map\",\"values\":\"string\"}},{\"name\":\"body\",\"type\":\"bytes\",\"doc\":\"all else\"}],\"namespace\":\"org.apache.flume.source.avro\"},{\"doc\":\"what became of them\",\"namespace\":\"org.apache.flume.source.avro\",\"name\":\"Status\",\"type\":\"enum\",\"symbols\":[\"OK\",\"FAILED\",\"UNKNOWN\"]}]}";

// A field that is named and written as Status is no type, and Status is nowhere written out.
const FIELD_FOR_STATUS: &str =
    "{\"types\":[{\"type\":\"record\",\"name\":\"Note\",\"fields\":[{\"name\":\"Status\",\"type\":\"enum\",\"symbols\":[\"OK\",\"FAILED\",\"UNKNOWN\"]}]},{\"type\":\"record\",\"name\":\"AvroFlumeEvent\",\"fields\":[{\"name\":\"headers\",\"type\":{\"type\":\"map\",\"values\":\"string\"}},{\"name\":\"body\",\"type\":\"bytes\"}]}],\"messages\":{\"append\":{\"request\":[{\"name\":\"event\",\"type\":\"AvroFlumeEvent\"}],\"response\":\"Status\"},\"appendBatch\":{\"request\":[{\"name\":\"events\",\"type\":{\"type\":\"array\",\"items\":\"AvroFlumeEvent\"}}],\"response\":\"Status\"}}}";

// Whole texts: each type is written out somewhere, and nowhere is another under its name.
const ACCEPTED_TEXTS: [&str; 7] = [
    OWN_ORDER,
    // as Avro's compiler for Java writes Flume's two messages, with texts as String
    "{\"protocol\":\"AvroSourceProtocol\",\"namespace\":\"org.apache.flume.source.avro\",\"doc\":\"* Licensed to the Apache Software Foundation (ASF) under one\\n * or more contributor license agreements.\",\"types\":[{\"type\":\"enum\",\"name\":\"Status\",\"symbols\":[\"OK\",\"FAILED\",\"UNKNOWN\"]},{\"type\":\"record\",\"name\":\"AvroFlumeEvent\",\"fields\":[{\"name\":\"headers\",\"type\":{\"type\":\"map\",\"values\":{\"type\":\"string\",\"avro.java.string\":\"String\"},\"avro.java.string\":\"String\"}},{\"name\":\"body\",\"type\":\"bytes\"}]}],\"messages\":{\"append\":{\"request\":[{\"name\":\"event\",\"type\":\"AvroFlumeEvent\"}],\"response\":\"Status\"},\"appendBatch\":{\"request\":[{\"name\":\"events\",\"type\":{\"type\":\"array\",\"items\":\"AvroFlumeEvent\"}}],\"response\":\"Status\"}}}",
    // both types where they are first used, and none before
    "{\"messages\":{\"append\":{\"request\":[{\"name\":\"event\",\"type\":{\"type\":\"record\",\"name\":\"AvroFlumeEvent\",\"fields\":[{\"name\":\"headers\",\"type\":{\"type\":\"map\",\"values\":\"string\"}},{\"name\":\"body\",\"type\":\"bytes\"}]}}],\"response\":{\"type\":\"enum\",\"name\":\"Status\",\"symbols\":[\"OK\",\"FAILED\",\"UNKNOWN\"]}},\"appendBatch\":{\"request\":[{\"name\":\"events\",\"type\":{\"type\":\"array\",\"items\":\"AvroFlumeEvent\"}}],\"response\":\"Status\"}}}",
    // messages before types, the record in the second of them, and its name with its namespace
    "{\"messages\":{\"appendBatch\":{\"request\":[{\"type\":{\"items\":{\"name\":\"a.AvroFlumeEvent\",\"fields\":[{\"type\":{\"values\":\"string\",\"type\":\"map\"},\"name\":\"headers\"},{\"type\":\"bytes\",\"name\":\"body\"}],\"type\":\"record\"},\"type\":\"array\"},\"name\":\"events\"}],\"response\":\"a.Status\"},\"append\":{\"request\":[{\"type\":\"a.AvroFlumeEvent\",\"name\":\"event\"}],\"response\":\"a.Status\"}},\"types\":[{\"symbols\":[\"OK\",\"FAILED\",\"UNKNOWN\"],\"name\":\"Status\",\"namespace\":\"a\",\"type\":\"enum\"}]}",
    // Status within a field of a further record, under a union
    "{\"types\":[{\"type\":\"record\",\"name\":\"Answer\",\"fields\":[{\"name\":\"Status\",\"type\":[\"null\",{\"type\":\"enum\",\"name\":\"Status\",\"symbols\":[\"OK\",\"FAILED\",\"UNKNOWN\"]}]}]},{\"type\":\"record\",\"name\":\"AvroFlumeEvent\",\"fields\":[{\"name\":\"headers\",\"type\":{\"type\":\"map\",\"values\":\"string\"}},{\"name\":\"body\",\"type\":\"bytes\"}]}],\"messages\":{\"append\":{\"request\":[{\"name\":\"event\",\"type\":\"AvroFlumeEvent\"}],\"response\":\"Status\"},\"appendBatch\":{\"request\":[{\"name\":\"events\",\"type\":{\"type\":\"array\",\"items\":\"AvroFlumeEvent\"}}],\"response\":\"Status\"}}}",
    // the record within a map of arrays, in a field of a further record
    "{\"types\":[{\"type\":\"record\",\"name\":\"Store\",\"fields\":[{\"name\":\"events\",\"type\":{\"type\":\"map\",\"values\":{\"type\":\"array\",\"items\":{\"type\":\"record\",\"name\":\"AvroFlumeEvent\",\"fields\":[{\"name\":\"headers\",\"type\":{\"type\":\"map\",\"values\":\"string\"}},{\"name\":\"body\",\"type\":\"bytes\"}]}}}}]},{\"type\":\"enum\",\"name\":\"Status\",\"symbols\":[\"OK\",\"FAILED\",\"UNKNOWN\"]}],\"messages\":{\"append\":{\"request\":[{\"name\":\"event\",\"type\":\"AvroFlumeEvent\"}],\"response\":\"Status\"},\"appendBatch\":{\"request\":[{\"name\":\"events\",\"type\":{\"type\":\"array\",\"items\":\"AvroFlumeEvent\"}}],\"response\":\"Status\"}}}",
    // a field, an alias and a default by the two names are no types
    "{\"types\":[{\"type\":\"record\",\"name\":\"Note\",\"aliases\":[\"Status\"],\"fields\":[{\"name\":\"Status\",\"type\":\"int\"},{\"name\":\"AvroFlumeEvent\",\"type\":\"bytes\",\"default\":{\"type\":\"enum\",\"name\":\"Status\",\"symbols\":[]}}]},{\"type\":\"enum\",\"name\":\"Status\",\"symbols\":[\"OK\",\"FAILED\",\"UNKNOWN\"]},{\"type\":\"record\",\"name\":\"AvroFlumeEvent\",\"fields\":[{\"name\":\"headers\",\"type\":{\"type\":\"map\",\"values\":\"string\"}},{\"name\":\"body\",\"type\":\"bytes\"}]}],\"messages\":{\"append\":{\"request\":[{\"name\":\"event\",\"type\":\"AvroFlumeEvent\"}],\"response\":\"Status\"},\"appendBatch\":{\"request\":[{\"name\":\"events\",\"type\":{\"type\":\"array\",\"items\":\"AvroFlumeEvent\"}}],\"response\":\"Status\"}}}",
];

// A further type among the types.
const REFUSED_TYPES: [&str; 10] = [
    "{\"type\":\"record\",\"name\":\"x.AvroFlumeEvent\",\"fields\":[]}",
    "{\"type\":\"error\",\"name\":\"AvroFlumeEvent\",\"fields\":[]}",
    "{\"type\":\"fixed\",\"name\":\"x.y.Status\",\"size\":16}",
    "{\"type\":\"enum\",\"name\":\"Status\",\"symbols\":[\"FAILED\",\"OK\",\"UNKNOWN\"]}",
    // within a further type
    "{\"type\":\"array\",\"items\":{\"type\":\"record\",\"name\":\"x.AvroFlumeEvent\",\"fields\":[]}}",
    "{\"type\":\"map\",\"values\":{\"type\":\"enum\",\"name\":\"x.Status\",\"symbols\":[\"A\"]}}",
    "{\"type\":\"record\",\"name\":\"Note\",\"fields\":[{\"name\":\"a\",\"type\":{\"type\":\"fixed\",\"name\":\"Status\",\"size\":1}}]}",
    "[\"null\",{\"type\":\"record\",\"name\":\"AvroFlumeEvent\",\"fields\":[]}]",
    "{\"type\":\"record\",\"name\":\"Note\",\"fields\":[{\"name\":\"a\",\"type\":[\"null\",{\"type\":\"map\",\"values\":{\"type\":\"array\",\"items\":{\"type\":\"record\",\"name\":\"x.AvroFlumeEvent\",\"fields\":[]}}}]}]}",
    // no JSON that is read: a number beyond the floats
    "1e999",
];

const REFUSED: &str = r#"// a wrong type where it is used
"response":"Status"=>"response":{"type":"enum","name":"Status","symbols":["OK","UNKNOWN","FAILED"]}
"response":"Status"=>"response":{"type":"enum","name":"Answer","symbols":["OK","FAILED","UNKNOWN"]}
"type":"AvroFlumeEvent"=>"type":{"type":"record","name":"AvroFlumeEvent","fields":[{"name":"body","type":"bytes"},{"name":"headers","type":{"type":"map","values":"string"}}]}
"type":"AvroFlumeEvent"=>"type":{"type":"record","name":"Event","fields":[{"name":"headers","type":{"type":"map","values":"string"}},{"name":"body","type":"bytes"}]}
"items":"AvroFlumeEvent"=>"items":{"type":"record","name":"AvroFlumeEvent","fields":[{"name":"headers","type":{"type":"map","values":"string"}}]}
"items":"AvroFlumeEvent"=>"items":{"type":"array","items":"AvroFlumeEvent"}
"OK","FAILED","UNKNOWN"=>"FAILED","OK","UNKNOWN"
"OK","FAILED","UNKNOWN"=>"OK","FAILED"
"OK","FAILED","UNKNOWN"=>"OK","FAILED","UNKNOWN","LATE"
"OK","FAILED","UNKNOWN"=>"ok","FAILED","UNKNOWN"
["OK","FAILED","UNKNOWN"]=>"OK"
"symbols":=>"symbol":
"type":"enum"=>"type":"fixed"
"name":"Status"=>"name":"State"
"name":"Status"=>"name":"MyStatus"
"name":"Status"=>"name":"Status.Old"
"name":"Status"=>"name":7
"response":"Status"=>"response":"State"
"response":"Status"=>"response":"string"
"response":"Status"=>"response":null
,"response":"Status"=>
"name":"headers"=>"name":"header"
"name":"body"=>"name":"data"
{"name":"headers","type":{"type":"map","values":"string"}},{"name":"body","type":"bytes"}=>{"name":"body","type":"bytes"},{"name":"headers","type":{"type":"map","values":"string"}}
{"name":"body","type":"bytes"}=>{"name":"body","type":"bytes"},{"name":"time","type":"long"}
,{"name":"body","type":"bytes"}=>
"type":"bytes"=>"type":"string"
"type":"bytes"=>"type":{"type":"bytes"}
"values":"string"=>"values":"bytes"
"values":"string"=>"values":["null","string"]
"type":"map"=>"type":"array"
"type":"record"=>"type":"error"
"name":"AvroFlumeEvent"=>"name":"Event"
"name":"event"=>"name":"e"
"name":"event"=>"name":"events"
"name":"events"=>"name":"event"
"type":"AvroFlumeEvent"=>"type":"bytes"
"type":"AvroFlumeEvent"=>"type":["null","AvroFlumeEvent"]
"items":"AvroFlumeEvent"=>"items":"string"
{"type":"array","items":"AvroFlumeEvent"}=>"AvroFlumeEvent"
{"type":"array","items":"AvroFlumeEvent"}=>{"type":"map","values":"AvroFlumeEvent"}
[{"name":"event","type":"AvroFlumeEvent"}]=>[{"name":"event","type":"AvroFlumeEvent"},{"name":"more","type":"int"}]
[{"name":"event","type":"AvroFlumeEvent"}]=>[]
[{"name":"event","type":"AvroFlumeEvent"}]=>{"name":"event","type":"AvroFlumeEvent"}
"append":=>"Append":
"appendBatch":=>"appendbatch":
"append":{"request":[{"name":"event","type":"AvroFlumeEvent"}],"response":"Status"},=>
"messages":{=>"messages":{"ping":{"request":[],"response":"null"},
"messages":=>"message":
"response":"Status"}=>"response":"Status","errors":["Failure"]}
"response":"Status"}=>"response":"Status","one-way":true}
"types":[=>"types":[],"old":[
"types":[=>"types":{},"old":[
"types":[=>"types":[{"type":"enum","name":"other.Status","symbols":["A"]},
"Status"}}}=>"Status"}}
"Status"}}}=>"Status"}}} x
"#;

// Whether the text with this written for that part is accepted.
fn is_accepted_with(alloc: Global, from: &str, to: &str) -> Result<bool, NoMemory> {
    let text = protocol_text().replace(alloc, from, to)?;
    accepts(alloc, text.as_str())
}

// Looks at a row: the text has the part, and what is written for it is accepted, or not.
fn is_right(alloc: Global, row: &str, accepted: bool) -> Result<bool, Fail> {
    let (from, to) = row.split_once("=>").ok_or("no row")?;
    Ok(protocol_text().contains(from) && is_accepted_with(alloc, from, to)? == accepted)
}

// Looks at each row of a table, and counts them. One that is wrong is named.
fn count_rows(alloc: Global, table: &str, accepted: bool) -> Result<usize, Fail> {
    let mut count = 0usize;
    for row in table.lines() {
        if !row.starts_with("//") {
            if !is_right(alloc, row, accepted)? {
                return Err(Fail::new(format_args!("{row}")));
            }
            count = count.saturating_add(1);
        }
    }
    Ok(count)
}

// The place of the first whole text with which it is otherwise.
fn first_other(alloc: Global, texts: &[&str], accepted: bool) -> Result<Option<usize>, NoMemory> {
    for (place, text) in texts.iter().enumerate() {
        if accepts(alloc, text)? != accepted {
            return Ok(Some(place));
        }
    }
    Ok(None)
}

#[test]
fn accepted_texts(rt: HostRuntime) {
    assert!(rt; accepts(rt.alloc(), protocol_text()) == Ok(true));
    let other = first_other(rt.alloc(), &ACCEPTED_TEXTS, true);
    assert!(rt; other == Ok(None), "{other:?}");
}

#[test]
fn accepted_rows(rt: HostRuntime) -> Result<(), Fail> {
    assert!(rt; count_rows(rt.alloc(), ACCEPTED, true)? == 48);
    Ok(())
}

// Round a comma, and the end of a line after a brace.
#[test]
fn white_space_is_accepted(rt: HostRuntime) -> Result<(), Fail> {
    for row in &[",=> , ", "{=>{\n"] {
        assert!(rt; is_right(rt.alloc(), row, true)?, "{row}");
    }
    Ok(())
}

const REFUSED_TEXTS: [&str; 6] = [
    "",
    "null",
    "[]",
    "{}",
    "{\"messages\":{}}",
    FIELD_FOR_STATUS,
];

fn is_accepted_beside(alloc: Global, further: &str) -> Result<bool, NoMemory> {
    let to = format!(in alloc; "\"types\":[{further},")?;
    is_accepted_with(alloc, "\"types\":[", to.as_str())
}

#[test]
fn refused_texts(rt: HostRuntime) {
    let other = first_other(rt.alloc(), &REFUSED_TEXTS, false);
    assert!(rt; other == Ok(None), "{other:?}");
}

#[test]
fn refused_rows(rt: HostRuntime) -> Result<(), Fail> {
    assert!(rt; count_rows(rt.alloc(), REFUSED, false)? == 56);
    Ok(())
}

#[test]
fn refused_types(rt: HostRuntime) {
    for further in &REFUSED_TYPES {
        assert!(rt;
            is_accepted_beside(rt.alloc(), further) == Ok(false),
            "{further}"
        );
    }
}

// RFC 1321, by another program. The hash that a connection tells is compared in the rows of handshakes.
#[test]
fn own_hash(rt: HostRuntime) {
    assert!(rt; protocol_text().len() == 509);
    let mut hasher = Md5::new();
    hasher.update(protocol_text().as_bytes());
    assert!(rt; hasher.finalize() == HASH);
}
