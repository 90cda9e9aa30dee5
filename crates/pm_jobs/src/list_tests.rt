//! How long the lists of a body may be.
use crate::{BodyError, read_job};
use std::alloc::{AllocError, Global};
use std::test::Fail;

fn texts(body: &mut Vec<u8>, count: u16) -> Result<(), AllocError> {
    body.push(b'[')?;
    for place in 0..count {
        if place > 0 {
            body.push(b',')?;
        }
        body.extend_from_slice(br#""A""#)?;
    }
    body.push(b']')?;
    Ok(())
}

// A job's body with so many metrics and objects.
fn body(alloc: Global, metrics: u16, objects: u16) -> Result<Vec<u8>, AllocError> {
    let mut body = Vec::new(alloc);
    body.extend_from_slice(
        br#"{"granularityPeriod":60,"reportingPeriod":60,"performanceMetrics":"#,
    )?;
    texts(&mut body, metrics)?;
    body.extend_from_slice(br#","objectInstances":"#)?;
    texts(&mut body, objects)?;
    body.push(b'}')?;
    Ok(body)
}

#[test]
fn a_body_has_1_to_64_metrics_and_up_to_256_objects(rt: HostRuntime) -> Result<(), Fail> {
    let cases: [(u16, u16, Option<BodyError>); 5] = [
        (1, 0, None),
        (64, 256, None),
        (0, 0, Some(BodyError::J1)),
        (65, 0, Some(BodyError::J1)),
        (1, 257, Some(BodyError::J1)),
    ];
    for (metrics, objects, want) in cases {
        let body = body(rt.alloc(), metrics, objects)?;
        assert_eq!(rt;
            read_job(rt.alloc(), &body).err(),
            want,
            "at {metrics} and {objects}"
        );
    }
    Ok(())
}
