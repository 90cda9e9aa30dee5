//! What no contract says: what the texts look like, and how rounds go on in a row.
use crate::*;
use pm_base::Text;
use pm_outside::MemCourier;
use std::alloc::{AllocError, Global};
use std::test::Fail;

const LINE: &[u8] =
    br#"{"eventTime":1699999320,"hysteresis":5,"monitorId":"m1","notificationId":0,"notificationType":"notifyThresholdCrossing","objectInstance":"ManagedElement=ME1,GNBCUCPFunction=1,NRCellCU=7","observedValue":86,"performanceMetric":"RRC.ConnMax","thresholdDirection":"UP","thresholdValue":80}"#;

// A notice of this number whose period ended at this moment, as it is posted.
fn notice_of(alloc: Global, number: u64, end: u64) -> Result<Notice, AllocError> {
    Ok(Notice {
        number,
        end,
        body: pm_base::Blob::from_slice(alloc, b"{}")?,
    })
}

fn made(subs: &mut Subscriptions, id: &[u8], body: &[u8]) -> Result<Outcome, SubError> {
    let plan = subs.plan(&SubAsk::Make {
        id,
        body,
        cursor: 0,
    })?;
    Ok(subs.enact(plan))
}

fn removed(subs: &mut Subscriptions, id: &[u8]) -> Result<Outcome, SubError> {
    let plan = subs.plan(&SubAsk::Remove { id })?;
    Ok(subs.enact(plan))
}

#[test]
fn eight_subscriptions_may_exist(rt: HostRuntime) -> Result<(), Fail> {
    let mut subs = Subscriptions::new(rt.alloc());
    let body = br#"{"consumerPath":"/notify","consumerPort":8081}"#.as_slice();
    let other = br#"{"consumerPort":8082,"consumerPath":"/notify"}"#.as_slice();
    let asked: [(&[u8], &[u8], Result<Outcome, SubError>); 14] = [
        (b"s5", body, Ok(Outcome::New)),
        (b"s5", body, Ok(Outcome::Same)),
        (b"s5", other, Err(SubError::P4)),
        (b"s1", br#"{}"#, Err(SubError::P3)),
        (b"-s", body, Err(SubError::P3)),
        (b"s1", body, Ok(Outcome::New)),
        (b"s2", body, Ok(Outcome::New)),
        (b"s3", body, Ok(Outcome::New)),
        (b"s4", body, Ok(Outcome::New)),
        (b"s6", body, Ok(Outcome::New)),
        (b"s7", body, Ok(Outcome::New)),
        (b"s8", body, Ok(Outcome::New)),
        (b"s9", body, Err(SubError::P1)),
        (b"s8", other, Err(SubError::P4)),
    ];
    for (id, text, want) in asked {
        assert_eq!(rt; made(&mut subs, id, text), want, "at {id:?}");
    }
    assert_eq!(rt; removed(&mut subs, b"s9"), Err(SubError::P2));
    assert_eq!(rt; removed(&mut subs, b"s3"), Ok(Outcome::Deleted));
    assert_eq!(rt; subs.count(), 7);
    if subs.count() == 7 {
        assert_eq!(rt; subs.at(2).id.as_bytes(), b"s4".as_slice());
    }
    Ok(())
}

// A round with one notice, where the cursors allow it.
fn round(subs: &mut Subscriptions, notice: &Notice, moment: u64, courier: &mut MemCourier) {
    if notice.number < 1 && subs.are_within(1) {
        subs.deliver(std::slice::from_ref(notice), 1, moment, courier);
    }
}

#[test]
fn a_post_that_fails_is_made_in_the_next_round(rt: HostRuntime) -> Result<(), Fail> {
    let mut subs = Subscriptions::new(rt.alloc());
    let body = br#"{"consumerPath":"/notify","consumerPort":8081}"#;
    assert_eq!(rt; made(&mut subs, b"s1", body), Ok(Outcome::New));
    assert_eq!(rt; made(&mut subs, b"s0", body), Ok(Outcome::New));
    let mut courier = MemCourier::new(rt.alloc(), 9, 900, &[1])?;
    let notice = notice_of(rt.alloc(), 0, 60)?;
    // The first round fails for s0 alone, and the second makes up for it.
    let counts: [(u64, usize); 3] = [(1, 1), (1, 2), (1, 2)];
    for (faults, posts) in counts {
        round(&mut subs, &notice, 60, &mut courier);
        assert_eq!(rt; courier.faults(), faults);
        assert_eq!(rt; courier.count(), posts);
    }
    Ok(())
}

#[test]
fn an_expired_notice_is_passed(rt: HostRuntime) -> Result<(), Fail> {
    let mut subs = Subscriptions::new(rt.alloc());
    let body = br#"{"consumerPath":"/notify","consumerPort":8081}"#;
    assert_eq!(rt; made(&mut subs, b"s1", body), Ok(Outcome::New));
    let mut courier = MemCourier::new(rt.alloc(), 9, 900, &[])?;
    let notice = notice_of(rt.alloc(), 0, 60)?;
    round(&mut subs, &notice, 86_460, &mut courier);
    assert_eq!(rt; courier.count(), 0);
    if subs.count() == 1 {
        assert_eq!(rt; subs.at(0).cursor, 1);
    }
    Ok(())
}

fn row_crossing(alloc: Global) -> Result<Notice, AllocError> {
    let crossing = Crossed {
        end: 1_699_999_320,
        hysteresis: 5,
        monitor: Text::from_slice(alloc, b"m1")?,
        object: Text::from_slice(alloc, b"ManagedElement=ME1,GNBCUCPFunction=1,NRCellCU=7")?,
        value: 86,
        metric: Text::from_slice(alloc, b"RRC.ConnMax")?,
        up: true,
        threshold: 80,
    };
    crossing_notice(alloc, 0, &crossing)
}

#[test]
fn a_crossing_is_told_in_one_line(rt: HostRuntime) -> Result<(), Fail> {
    let notice = row_crossing(rt.alloc())?;
    assert_eq!(rt; notice.body.as_bytes(), LINE);
    assert_eq!(rt; notice.end, 1_699_999_320);
    Ok(())
}
