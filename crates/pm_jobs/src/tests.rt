//! What bodies say: the canonical text, or the rule that is broken.
use crate::{BodyError, State, read_job, read_monitor, read_state};
use std::alloc::{AllocError, Global};

fn code_of(error: BodyError) -> &'static [u8] {
    match error {
        BodyError::J1 => b"J1",
        BodyError::J11 => b"J11",
        BodyError::Memory => b"Memory",
    }
}

fn job_said(alloc: Global, bytes: &[u8]) -> Result<Vec<u8>, AllocError> {
    match read_job(alloc, bytes) {
        Ok(body) => Ok(body.to_bytes(alloc)?.into_vec()),
        Err(error) => code_of(error).to_vec(alloc),
    }
}

fn monitor_said(alloc: Global, bytes: &[u8]) -> Result<Vec<u8>, AllocError> {
    match read_monitor(alloc, bytes) {
        Ok(body) => Ok(body.to_bytes(alloc)?.into_vec()),
        Err(error) => code_of(error).to_vec(alloc),
    }
}

#[test]
fn a_job_is_read_by_its_keys(rt: HostRuntime) -> Result<(), AllocError> {
    let cases: [(&[u8], &[u8]); 19] = [
        (
            br#"{"granularityPeriod":60,"performanceMetrics":["RRC"],"reportingPeriod":15}"#,
            br#"{"administrativeState":"UNLOCKED","granularityPeriod":60,"objectInstances":[],"performanceMetrics":["RRC"],"reportingPeriod":15,"rootObjectInstances":[]}"#,
        ),
        (
            br#" { "rootObjectInstances" : ["a","b"], "reportingPeriod":0,"objectInstances":["c\n"],"performanceMetrics":["","RRC"],"granularityPeri\u006fd":4294967295,"administrativeState":"LOCKED" } "#,
            br#"{"administrativeState":"LOCKED","granularityPeriod":4294967295,"objectInstances":["c\n"],"performanceMetrics":["","RRC"],"reportingPeriod":0,"rootObjectInstances":["a","b"]}"#,
        ),
        (
            br#"{"granularityPeriod":"x","granularityPeriod":300,"performanceMetrics":["RRC"],"reportingPeriod":15}"#,
            br#"{"administrativeState":"UNLOCKED","granularityPeriod":300,"objectInstances":[],"performanceMetrics":["RRC"],"reportingPeriod":15,"rootObjectInstances":[]}"#,
        ),
        (b"{}", b"J1"),
        (b"", b"J1"),
        (b"[]", b"J1"),
        (
            br#"{"granularityPeriod":60,"performanceMetrics":["RRC"],"reportingPeriod":15,"jobId":"j"}"#,
            b"J1",
        ),
        (
            br#"{"granularityPeriod":60,"performanceMetrics":["RRC"]}"#,
            b"J1",
        ),
        (
            br#"{"granularityPeriod":60,"performanceMetrics":[],"reportingPeriod":15}"#,
            b"J1",
        ),
        (
            br#"{"granularityPeriod":60,"performanceMetrics":[1],"reportingPeriod":15}"#,
            b"J1",
        ),
        (
            br#"{"granularityPeriod":60,"performanceMetrics":"RRC","reportingPeriod":15}"#,
            b"J1",
        ),
        (
            br#"{"granularityPeriod":4294967296,"performanceMetrics":["RRC"],"reportingPeriod":15}"#,
            b"J1",
        ),
        (
            br#"{"granularityPeriod":18446744073709551616,"performanceMetrics":["RRC"],"reportingPeriod":15}"#,
            b"J1",
        ),
        (
            br#"{"granularityPeriod":1.0,"performanceMetrics":["RRC"],"reportingPeriod":15}"#,
            b"J1",
        ),
        (
            br#"{"granularityPeriod":1e2,"performanceMetrics":["RRC"],"reportingPeriod":15}"#,
            b"J1",
        ),
        (
            br#"{"granularityPeriod":-0,"performanceMetrics":["RRC"],"reportingPeriod":15}"#,
            b"J1",
        ),
        (
            br#"{"granularityPeriod":60,"performanceMetrics":["\ud800"],"reportingPeriod":15}"#,
            b"J1",
        ),
        (
            b"{\"granularityPeriod\":60,\"performanceMetrics\":[\"\xff\"],\"reportingPeriod\":15}",
            b"J1",
        ),
        (
            br#"{"administrativeState":null,"granularityPeriod":60,"performanceMetrics":["RRC"],"reportingPeriod":15}"#,
            b"J1",
        ),
    ];
    for (text, want) in cases {
        let said = job_said(rt.alloc(), text)?;
        assert!(rt; said.as_slice() == want, "at {text:?}");
    }
    Ok(())
}

#[test]
fn a_wrong_list_of_thresholds_is_told_last(rt: HostRuntime) -> Result<(), AllocError> {
    let cases: [(&[u8], &[u8]); 21] = [
        (
            br#"{"monitorGranularityPeriod":60,"thresholdInfoList":[],"threshold\u0049nfoList":[{"performanceMetrics":["RRC"],"thresholdDirection":"UP","thresholdValue":6,"thresholdValue":0}]}"#,
            br#"{"administrativeState":"UNLOCKED","monitorGranularityPeriod":60,"objectInstances":[],"rootObjectInstances":[],"thresholdInfoList":[{"hysteresis":0,"performanceMetrics":["RRC"],"thresholdDirection":"UP","thresholdValue":0}]}"#,
        ),
        (
            br#"{"monitorGranularityPeriod":60,"thresholdInfoList":[{"performanceMetrics":["RRC"],"thresholdDirection":"UP","thresholdValue":1.0}]}"#,
            b"J11",
        ),
        (
            br#"{"monitorGranularityPeriod":60,"thresholdInfoList":[{"performanceMetrics":["RRC"],"thresholdDirection":"UP","thresholdValue":1e2}]}"#,
            b"J11",
        ),
        (
            br#"{"monitorGranularityPeriod":60,"thresholdInfoList":[{"performanceMetrics":["RRC"],"thresholdDirection":"UP","thresholdValue":-0}]}"#,
            b"J11",
        ),
        (
            br#"{"monitorGranularityPeriod":60,"thresholdInfoList":[{"performanceMetrics":["RRC"],"thresholdDirection":"UP","thresholdValue":18446744073709551616}]}"#,
            b"J11",
        ),
        (
            br#"{"monitorGranularityPeriod":60,"thresholdInfoList":[{"performanceMetrics":["\ud800"],"thresholdDirection":"UP","thresholdValue":5}]}"#,
            b"J1",
        ),
        (
            b"{\"monitorGranularityPeriod\":60,\"thresholdInfoList\":[{\"performanceMetrics\":[\"\xff\"],\"thresholdDirection\":\"UP\",\"thresholdValue\":5}]}",
            b"J1",
        ),
        (
            br#"{"monitorGranularityPeriod":60,"thresholdInfoList":[{"performanceMetrics":["RRC"],"thresholdDirection":"UP","thresholdValue":9007199254740991}]}"#,
            br#"{"administrativeState":"UNLOCKED","monitorGranularityPeriod":60,"objectInstances":[],"rootObjectInstances":[],"thresholdInfoList":[{"hysteresis":0,"performanceMetrics":["RRC"],"thresholdDirection":"UP","thresholdValue":9007199254740991}]}"#,
        ),
        (
            br#"{"monitorGranularityPeriod":60,"thresholdInfoList":[{"performanceMetrics":["RRC"],"thresholdDirection":"UP_AND_DOWN","thresholdValue":5,"hysteresis":5}]}"#,
            br#"{"administrativeState":"UNLOCKED","monitorGranularityPeriod":60,"objectInstances":[],"rootObjectInstances":[],"thresholdInfoList":[{"hysteresis":5,"performanceMetrics":["RRC"],"thresholdDirection":"UP_AND_DOWN","thresholdValue":5}]}"#,
        ),
        (br#"{"monitorGranularityPeriod":60}"#, b"J1"),
        (br#"{"thresholdInfoList":[]}"#, b"J1"),
        (
            br#"{"monitorGranularityPeriod":60,"objectInstances":[1],"thresholdInfoList":[]}"#,
            b"J1",
        ),
        (
            br#"{"monitorGranularityPeriod":60,"thresholdInfoList":[1e999]}"#,
            b"J1",
        ),
        (
            br#"{"monitorGranularityPeriod":60,"thresholdInfoList":[]}"#,
            b"J11",
        ),
        (
            br#"{"monitorGranularityPeriod":60,"thresholdInfoList":{}}"#,
            b"J11",
        ),
        (
            br#"{"monitorGranularityPeriod":60,"thresholdInfoList":[{"performanceMetrics":["RRC"],"thresholdDirection":"UP"}]}"#,
            b"J11",
        ),
        (
            br#"{"monitorGranularityPeriod":60,"thresholdInfoList":[{"performanceMetrics":["RRC"],"thresholdDirection":"BOTH","thresholdValue":5}]}"#,
            b"J11",
        ),
        (
            br#"{"monitorGranularityPeriod":60,"thresholdInfoList":[{"performanceMetrics":["RRC"],"thresholdDirection":"UP","thresholdValue":5,"x":0}]}"#,
            b"J11",
        ),
        (
            br#"{"monitorGranularityPeriod":60,"thresholdInfoList":[{"performanceMetrics":["RRC"],"thresholdDirection":"UP","thresholdValue":5,"hysteresis":6}]}"#,
            b"J11",
        ),
        (
            br#"{"monitorGranularityPeriod":60,"thresholdInfoList":[{"performanceMetrics":["RRC"],"thresholdDirection":"DOWN","thresholdValue":9007199254740992}]}"#,
            b"J11",
        ),
        (
            br#"{"monitorGranularityPeriod":60,"thresholdInfoList":[{"performanceMetrics":[],"thresholdDirection":"DOWN","thresholdValue":5}]}"#,
            b"J11",
        ),
    ];
    for (text, want) in cases {
        let said = monitor_said(rt.alloc(), text)?;
        assert!(rt; said.as_slice() == want, "at {text:?}");
    }
    Ok(())
}

#[test]
fn a_state_stands_alone(rt: HostRuntime) {
    let cases: [(&[u8], Result<State, BodyError>); 6] = [
        (br#" {"administrativeState":"LOCKED"}"#, Ok(State::Locked)),
        (
            br#"{"administrativeState":"UNLOCKED"}"#,
            Ok(State::Unlocked),
        ),
        (br#"{"administrativeState":"unlocked"}"#, Err(BodyError::J1)),
        (
            br#"{"administrativeState":"LOCKED","a":1}"#,
            Err(BodyError::J1),
        ),
        (
            br#"{"administrativeState":1,"administrativ\u0065State":"LOCKED"}"#,
            Ok(State::Locked),
        ),
        (b"{}", Err(BodyError::J1)),
    ];
    for (text, want) in cases {
        assert_eq!(rt; read_state(rt.alloc(), text), want, "at {text:?}");
    }
}

fn nested(alloc: Global, levels: usize) -> Result<Vec<u8>, AllocError> {
    let mut text = Vec::new(alloc);
    text.extend_from_slice(br#"{"administrativeState":"#)?;
    for _ in 0..levels {
        text.extend_from_slice(b"[")?;
    }
    for _ in 0..levels {
        text.extend_from_slice(b"]")?;
    }
    text.extend_from_slice(br#","administrativeState":"LOCKED"}"#)?;
    Ok(text)
}

#[test]
fn a_text_nests_127_levels(rt: HostRuntime) -> Result<(), AllocError> {
    let deepest = nested(rt.alloc(), 126)?;
    assert_eq!(rt;
        read_state(rt.alloc(), deepest.as_slice()),
        Ok(State::Locked)
    );
    let deeper = nested(rt.alloc(), 127)?;
    assert_eq!(rt;
        read_state(rt.alloc(), deeper.as_slice()),
        Err(BodyError::J1)
    );
    Ok(())
}

// A monitor's body with so many thresholds.
fn thresholds(alloc: Global, count: usize) -> Result<Vec<u8>, AllocError> {
    let mut text = Vec::new(alloc);
    text.extend_from_slice(br#"{"monitorGranularityPeriod":60,"thresholdInfoList":["#)?;
    for place in 0..count {
        if 0 < place {
            text.extend_from_slice(b",")?;
        }
        text.extend_from_slice(
            br#"{"performanceMetrics":["RRC"],"thresholdDirection":"UP","thresholdValue":5}"#,
        )?;
    }
    text.extend_from_slice(b"]}")?;
    Ok(text)
}

#[test]
fn a_list_has_1_to_16_thresholds(rt: HostRuntime) -> Result<(), AllocError> {
    for (count, want) in [
        (0, Some(BodyError::J11)),
        (1, None),
        (16, None),
        (17, Some(BodyError::J11)),
    ] {
        let text = thresholds(rt.alloc(), count)?;
        let answer = read_monitor(rt.alloc(), text.as_slice()).err();
        assert_eq!(rt; answer, want, "at {count}");
    }
    Ok(())
}
