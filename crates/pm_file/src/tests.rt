//! The worked example's text, and texts that are refused at each rule.
use crate::usual::usual_text;
use crate::{Report, ReportError};
use std::alloc::{AllocError, Global};
use std::test::Fail;

/// The report of one object over a quarter of an hour.
const TEXT: &str =
    r#"{"fileFooter":{"endTime":1700000100},"fileHeader":{"beginTime":1699999200,"fileFormatVersion":"PM1","jobId":"job1","senderName":"ManagedElement=ME1"},"measData":[{"beginTime":1699999200,"endTime":1700000100,"granularityPeriod":900,"measInfo":[{"measTypes":["RRC.ConnEstabAtt.mo-Data"],"measValues":[{"measObjInstId":"ManagedElement=ME1,GNBCUCPFunction=1,NRCellCU=7","measResults":[5],"suspectFlag":false}],"objectClass":"NRCellCU"}]}]}"#;

/// What is wanted of the text in which the first of the second words is replaced by the third.
const FAULTS: &str = r#"
R1|}]}]}|}]}]
R1|"PM1"|PM1
R1|:[5]|:[05]
R1|:[5]|:[5,]
R1|{"fileFooter"|"fileFooter"
R1|"job1"|"job1\x"
R2|"fileFooter"|"fileFoot"
R2|"fileFooter":{"endTime":1700000100},|
R2|"fileHeader"|"fileHead"
R2|"measData"|"measdata"
R2|{"endTime"|{"end"
R2|{"endTime":1700000100}|{}
R2|{"endTime":1700000100}|{"a":0,"endTime":1700000100}
R2|"fileFormatVersion":"PM1",|
R2|"jobId"|"job"
R2|,"senderName":"ManagedElement=ME1"|
R2|{"beginTime":1699999200,"file|{"begin":1699999200,"file
R2|[{"beginTime"|[{"begin"
R2|"granularityPeriod":900,|
R2|,"endTime":1700000100|
R2|"measInfo"|"measInfos"
R2|"measTypes"|"measType"
R2|"measValues"|"measValue"
R2|"objectClass"|"class"
R2|"measObjInstId"|"object"
R2|"measResults"|"results"
R2|,"suspectFlag":false|
R2|"suspectFlag":false|"suspectFlag":false,"why":null
R3|{"endTime":1700000100}|[]
R3|{"endTime":1700000100}|{"endTime":null}
R3|"PM1"|"PM2"
R3|"PM1"|1
R3|"job1"|"-job1"
R3|"job1"|1
R3|"job1"|"abcdefghijabcdefghijabcdefghijabc"
R3|"ManagedElement=ME1"|"ManagedElement="
R3|"ManagedElement=ME1"|"NRCellCU=7"
R3|"ManagedElement=ME1"|"ManagedElement=ME1,GNBDUFunction=1"
R3|"measInfo":[{|"measInfo":[7,{
R3|["RRC.ConnEstabAtt.mo-Data"]|"RRC.ConnEstabAtt.mo-Data"
R3|["RRC.ConnEstabAtt.mo-Data"]|["RRC"]
R3|["RRC.ConnEstabAtt.mo-Data"]|[1]
R3|:[5]|:5
R3|:[5]|:[true]
R3|:[5]|:["5"]
R3|"suspectFlag":false|"suspectFlag":null
R3|NRCellCU=7|NRCellCU
R3|"NRCellCU"|"NRCell"
R3|"NRCellCU"|7
R4|{"endTime":1700000100}|{"endTime":253402300800}
R4|{"endTime":1700000100}|{"endTime":-1}
R4|[{"beginTime":1699999200|[{"beginTime":1.5
R4|,"endTime":1700000100|,"endTime":1e3
R4|:900|:18446744073709551616
R4|:[5]|:[-1]
R4|:[5]|:[5.0]
R4|:[5]|:[18446744073709551616]
R5|:900|:901
R5|:900|:18446744073709551615
R5|:[5]|:[5,5]
R5|:[5]|:[]
R5|["RRC.ConnEstabAtt.mo-Data"]|[]
R5|{"endTime":1700000100}|{"endTime":1700000160}
R5|[{"beginTime":1699999200|[{"beginTime":1699999260
R5|{"beginTime":1699999200,"file|{"beginTime":1699999260,"file
R5|,"endTime":1700000100,"granularityPeriod":900|,"endTime":1699999260,"granularityPeriod":60
R5|"NRCellCU"}|"NRCellCU"},{"measTypes":["A.B"],"measValues":[{"measObjInstId":"C=1","measResults":[0],"suspectFlag":true}],"objectClass":"NRCellCU"}
R2|{"endTime":1700000100}|{"end":-1}
R3|{"endTime":1700000100},"fileHeader":{"beginTime"|{"endTime":""},"fileHeader":{"begin"
R4|{"endTime":1700000100},"fileHeader":{"beginTime"|{"endTime":-1},"fileHeader":{"begin"
R4|"measResults":[5],"suspectFlag":false|"suspectFlag":7,"measResults":[-1]
R4|:[5]|:[-1,5]
R3|:[5]|:[5,true]
"#;

/// Texts that are taken.
const TAKEN: &str = r#"
:[5]| : [ 5 ]
:[5]|:[null]
:[5]|:[0]
:[5]|:[18446744073709551615]
"PM1"|"\u0050M1"
"job1"|"abcdefghijabcdefghijabcdefghijab"
"job1"|"job2","jobId":"job1"
"measResults":[5],"suspectFlag":false|"suspectFlag":true,"measResults":[5]
"NRCellCU"}|"NRCellCU"},{"measTypes":["A.B"],"measValues":[{"measObjInstId":"C=1","measResults":[0],"suspectFlag":true}],"objectClass":"NRCellDU"}
"#;

fn changed(alloc: Global, old: &str, new: &str) -> Result<String, AllocError> {
    match TEXT.split_once(old) {
        Some((before, after)) => format!(in alloc; "{before}{new}{after}"),
        None => String::from_str(alloc, ""),
    }
}

fn refusal(code: &str) -> Option<ReportError> {
    match code {
        "R1" => Some(ReportError::R1),
        "R2" => Some(ReportError::R2),
        "R3" => Some(ReportError::R3),
        "R4" => Some(ReportError::R4),
        "R5" => Some(ReportError::R5),
        _ => None,
    }
}

#[test]
fn a_text_is_refused_at_its_first_fault(rt: HostRuntime) -> Result<(), Fail> {
    for line in FAULTS.trim().lines() {
        let (code, rest) = line.split_once('|').expect(&rt, "a code");
        let (old, new) = rest.split_once('|').expect(&rt, "what replaces it");
        let text = changed(rt.alloc(), old, new)?;
        let found = Report::read(rt.alloc(), text.as_bytes()).err();
        assert_eq!(rt; found, refusal(code), "at {line}");
    }
    Ok(())
}

#[test]
fn order_spaces_and_escapes_are_taken(rt: HostRuntime) -> Result<(), Fail> {
    for line in TAKEN.trim().lines() {
        let (old, new) = line.split_once('|').expect(&rt, "what replaces it");
        let text = changed(rt.alloc(), old, new)?;
        let found = Report::read(rt.alloc(), text.as_bytes()).err();
        assert_eq!(rt; found, None, "at {line}");
    }
    Ok(())
}

#[test]
fn small_texts_are_no_reports(rt: HostRuntime) {
    let cases: [(&[u8], ReportError); 5] = [
        (b"", ReportError::R1),
        (b"[", ReportError::R1),
        (b"\"\xff\"", ReportError::R1),
        (b"[]", ReportError::R3),
        (b"{}", ReportError::R2),
    ];
    for (bytes, want) in cases {
        assert_eq!(rt; Report::read(rt.alloc(), bytes).err(), Some(want));
    }
}

// The text that is written of the report that a text says, and the report's name.
fn again(alloc: Global, text: &str) -> Result<(String, String), ReportError> {
    let report = Report::read(alloc, text.as_bytes())?;
    let Ok(text) = report.to_bytes(alloc) else {
        return Err(ReportError::Memory);
    };
    let Ok(name) = report.name(alloc) else {
        return Err(ReportError::Memory);
    };
    let text = String::from_utf8_lossy(alloc, text.as_bytes());
    let name = String::from_utf8_lossy(alloc, name.as_bytes());
    match (text, name) {
        (Ok(text), Ok(name)) => Ok((text, name)),
        _ => Err(ReportError::Memory),
    }
}

#[test]
fn the_worked_example_is_written_as_it_is_read(rt: HostRuntime) {
    assert_eq!(rt; TEXT.len(), 435);
    match again(rt.alloc(), TEXT) {
        Ok((text, name)) => {
            assert_eq!(rt; text.as_str(), TEXT);
            assert_eq!(rt; name.as_str(), "A20231114.2200+0000-2215+0000_-job1_ME1");
        }
        Err(error) => assert!(rt; false, "{error:?}"),
    }
}

/// Texts of the same report, and whether they are written in the usual way.
const SAME: &str = r#"
usual|:[5]|:[5]
usual|:[5]| : [ 5 ]
usual|"PM1"|"\u0050M1"
other|"measResults":[5],"suspectFlag":false|"suspectFlag":false,"measResults":[5]
other|"job1"|"job2","jobId":"job1"
"#;

fn is_usual(alloc: Global, text: &str) -> bool {
    let body = usual_text(alloc, text.as_bytes());
    body.is_some()
}

// Whether the report that the text says is that of the worked example.
fn is_same(alloc: Global, text: &str) -> Result<bool, ReportError> {
    let (same, _) = again(alloc, text)?;
    Ok(same.as_str() == TEXT)
}

#[test]
fn both_ways_read_the_same(rt: HostRuntime) -> Result<(), Fail> {
    for line in SAME.trim().lines() {
        let (way, rest) = line.split_once('|').expect(&rt, "a way");
        let (old, new) = rest.split_once('|').expect(&rt, "what replaces it");
        let text = changed(rt.alloc(), old, new)?;
        let usual = is_usual(rt.alloc(), text.as_str());
        assert_eq!(rt; usual, way == "usual", "at {line}");
        let same = is_same(rt.alloc(), text.as_str());
        assert_eq!(rt; same, Ok(true), "at {line}");
    }
    Ok(())
}
