//! Notices: from subscriptions to posts, by `run` over a courier in memory.

use crate::runs::asked;
use crate::tally::{no_link, words};
use pm_disk::MemDisk;
use pm_outside::{MemCourier, MemSink, MemSource};
use pm_top::{Status, pmd};
use std::alloc::Global;
use std::process::Abort;
use std::test::Fail;

const ROOM: u64 = 65536;

const JOB: &str =
    "{\"granularityPeriod\":900,\"objectInstances\":[\"c7\"],\"performanceMetrics\":[\"Att\"],\"reportingPeriod\":15}";

const CONSUMER: &str = "{\"consumerPath\":\"/notify\",\"consumerPort\":8081}";

const READY: &[u8] =
    br#"{"eventTime":1700000100,"fileInfoList":[{"fileDataType":"Performance","fileExpirationTime":1700086500,"fileFormat":"JSON","fileLocation":"/files/A20231114.2200+0000-2215+0000_-job1_ME1","fileReadyTime":1700000100,"fileSize":435}],"notificationId":0,"notificationType":"notifyFileReady","objectInstance":"ManagedElement=ME1"}"#;

// `run` over these requests ends well, and this is the courier then, of whose calls those of these numbers fail.
fn posted(
    rt: &impl Abort,
    alloc: Global,
    requests: &str,
    fails: &[u64],
    replies: &str,
) -> Result<MemCourier, Fail> {
    let input = format!(in alloc; "end\n{requests}")?;
    let mut source = MemSource::new(alloc, input.as_bytes(), &[])?;
    let mut sink = MemSink::new(alloc, ROOM, &[])?;
    let mut disk = MemDisk::new(alloc, ROOM, &[])?;
    let mut courier = MemCourier::new(alloc, 8, ROOM, fails)?;
    let run = words(alloc, &["run", "--boot", "1699999100"])?;
    assert_eq!(rt;
        pmd(
            alloc,
            &run,
            &mut source,
            &mut sink,
            &mut disk,
            &mut courier,
            &mut no_link(alloc)?
        ),
        Status::Done
    );
    assert!(rt; sink.written().ends_with(replies.as_bytes()));
    Ok(courier)
}

#[test]
fn a_notice_is_posted_until_the_consumer_takes_it(rt: HostRuntime) -> Result<(), Fail> {
    let alloc = rt.alloc();
    let made = asked(alloc, "PUT /jobs/job1", "1699999190", JOB)?;
    let counted = asked(alloc, "POST /events", "1699999200", "c7 Att 2\nc7 Att 3\n")?;
    let subscribed = asked(alloc, "PUT /subscriptions/s1", "1699999260", CONSUMER)?;
    let look = "GET /jobs/none HTTP/1.1\r\nPm-Moment: 1700000100\r\n\r\n";
    let requests = format!(in alloc; "{made}{counted}{subscribed}{look}")?;
    let reply =
        "HTTP/1.1 404 Not Found\r\nContent-Type: application/json\r\nContent-Length: 14\r\nPm-Moment: 1700000100\r\n\r\n{\"code\":\"J10\"}";
    let courier = posted(&rt, alloc, requests.as_str(), &[1], reply)?;
    assert_eq!(rt; (courier.count(), courier.faults()), (0, 1));
    let again = format!(in alloc; "{requests}{look}")?;
    let courier = posted(&rt, alloc, again.as_str(), &[1], reply)?;
    assert_eq!(rt; (courier.count(), courier.faults()), (1, 1));
    let more = format!(in alloc; "{again}{look}")?;
    let courier = posted(&rt, alloc, more.as_str(), &[1], reply)?;
    assert_eq!(rt; (courier.count(), courier.faults()), (1, 1));
    if courier.count() > 0 {
        let post = courier.at(0);
        assert_eq!(rt; (post.port, post.path), (8081, b"/notify".as_slice()));
        assert_eq!(rt; post.body, READY);
    }
    Ok(())
}

#[test]
fn a_subscription_begins_at_its_cursor(rt: HostRuntime) -> Result<(), Fail> {
    let alloc = rt.alloc();
    let made = asked(alloc, "PUT /jobs/job1", "1699999190", JOB)?;
    let counted = asked(alloc, "POST /events", "1699999200", "c7 Att 2\n")?;
    let late = asked(alloc, "PUT /subscriptions/s1", "1700000100", CONSUMER)?;
    let other = asked(
        alloc,
        "PUT /subscriptions/s1",
        "1700000101",
        "{\"consumerPath\":\"/other\",\"consumerPort\":8081}",
    )?;
    let bare = asked(alloc, "PUT /subscriptions/s2", "1700000102", "{}")?;
    let gone = "DELETE /subscriptions/s1 HTTP/1.1\r\n\r\nDELETE /subscriptions/s1 HTTP/1.1\r\n\r\n";
    let requests = format!(in alloc; "{made}{counted}{late}{late}{other}{bare}{gone}")?;
    let replies =
        "HTTP/1.1 201 Created\r\nContent-Type: application/json\r\nContent-Length: 12\r\nPm-Moment: 1700000100\r\n\r\n{\"cursor\":1}HTTP/1.1 200 OK\r\nContent-Type: application/json\r\nContent-Length: 12\r\nPm-Moment: 1700000100\r\n\r\n{\"cursor\":1}HTTP/1.1 409 Conflict\r\nContent-Type: application/json\r\nContent-Length: 13\r\nPm-Moment: 1700000101\r\n\r\n{\"code\":\"P4\"}HTTP/1.1 400 Bad Request\r\nContent-Type: application/json\r\nContent-Length: 13\r\nPm-Moment: 1700000102\r\n\r\n{\"code\":\"P3\"}HTTP/1.1 204 No Content\r\nPm-Moment: 1700000102\r\n\r\nHTTP/1.1 404 Not Found\r\nContent-Type: application/json\r\nContent-Length: 13\r\nPm-Moment: 1700000102\r\n\r\n{\"code\":\"P2\"}";
    let courier = posted(&rt, alloc, requests.as_str(), &[], replies)?;
    assert_eq!(rt; courier.count(), 0);
    Ok(())
}

// The values of six minutes, one each, and a look after them.
fn sampled(alloc: Global) -> Result<String, Fail> {
    let mut requests = String::new(alloc);
    for (moment, value) in [
        (1_699_999_200, 70),
        (1_699_999_260, 86),
        (1_699_999_320, 84),
        (1_699_999_380, 88),
        (1_699_999_440, 75),
        (1_699_999_500, 85),
    ] {
        let moment = format!(in alloc; "{moment}")?;
        let line = format!(in alloc; "c7 RRC.ConnMax {value}")?;
        let batch = asked(alloc, "POST /events", moment.as_str(), line.as_str())?;
        requests.push_str(batch.as_str())?;
    }
    requests.push_str("GET /jobs/none HTTP/1.1\r\nPm-Moment: 1699999560\r\n\r\n")?;
    Ok(requests)
}

#[test]
fn crossings_are_posted_in_their_order(rt: HostRuntime) -> Result<(), Fail> {
    let alloc = rt.alloc();
    let monitor = asked(
        alloc,
        "PUT /monitors/m1",
        "1699999190",
        "{\"monitorGranularityPeriod\":60,\"objectInstances\":[\"c7\"],\"thresholdInfoList\":[{\"hysteresis\":5,\"performanceMetrics\":[\"RRC.ConnMax\"],\"thresholdDirection\":\"UP_AND_DOWN\",\"thresholdValue\":80}]}",
    )?;
    let subscribed = asked(alloc, "PUT /subscriptions/s1", "1699999190", CONSUMER)?;
    let samples = sampled(alloc)?;
    let requests = format!(in alloc; "{monitor}{subscribed}{samples}")?;
    let courier = posted(&rt, alloc, requests.as_str(), &[], "{\"code\":\"J10\"}")?;
    let mut place = 0;
    for (value, direction) in [(86, "UP"), (75, "DOWN"), (85, "UP")] {
        let told = format!(in alloc;
            "\"observedValue\":{value},\"performanceMetric\":\"RRC.ConnMax\",\"thresholdDirection\":\"{direction}\""
        )?;
        if place >= courier.count() {
            return Err("too few posts")?;
        }
        let text = str::from_utf8(courier.at(place).body)?;
        assert!(rt; text.contains(told.as_str()), "{text}");
        place += 1;
    }
    assert_eq!(rt; courier.count(), 3);
    Ok(())
}

#[test]
fn a_ninth_subscription_is_refused(rt: HostRuntime) -> Result<(), Fail> {
    let alloc = rt.alloc();
    let mut requests = String::new(alloc);
    for number in 1..10 {
        let line = format!(in alloc; "PUT /subscriptions/s{number}")?;
        let subscribed = asked(alloc, line.as_str(), "1699999190", CONSUMER)?;
        requests.push_str(subscribed.as_str())?;
    }
    let refusal =
        "HTTP/1.1 409 Conflict\r\nContent-Type: application/json\r\nContent-Length: 13\r\nPm-Moment: 1699999190\r\n\r\n{\"code\":\"P1\"}";
    let courier = posted(&rt, alloc, requests.as_str(), &[], refusal)?;
    assert_eq!(rt; courier.count(), 0);
    Ok(())
}
