//! The texts of notices.
ghost use Rattle.std.specs.Prelude.{◌≡◌, ◌++◌, true, codes, IfOk};
ghost use Rattle.std.specs.Prelude.{Ok};
ghost use Rattle.serde_json.specs.Written.{compact_text};
ghost use Rattle.pm_form.specs.Form.{text_says};
ghost use Rattle.pm_form.specs.Says.{Appends};
ghost use Rattle.pm_file.specs.ReportForm.{object_name};
ghost use Rattle.pm_notice.specs.NoticeForm.{listed_form, file_ready_form, crossing_form, direction_text};
ghost use Rattle.pm_notice.specs.Single.{single};
ghost use Rattle.pm_notice.specs.NoticeContent.{listed_of, file_ready_of, crossing_of, IsFileInfo, IsCrossed};

use crate::{Crossed, FileInfo, Notice};
use json::Writer;
use pm_base::Blob;
use pm_form::text_token;
use std::alloc::{AllocError, Global};

/// The seconds after it is ready at which a file expires.
pub(crate) const EXPIRY: u64 = 86_400;

fn direction_word(up: bool) -> &'static str
    ensures { result.now ≡ direction_text up }
{
    if up { "UP" } else { "DOWN" }
}

fn write_crossing(out: &mut Writer, number: u64, crossing: &Crossed) -> Result<(), AllocError>
    requires { IsCrossed crossing.now }
    ensures { Appends result out.old out.new (crossing_form.tree (crossing_of number crossing.now)) }
{
    out.begin_object()?;
    out.key("eventTime")?;
    out.u64(crossing.end)?;
    out.key("hysteresis")?;
    out.u64(crossing.hysteresis)?;
    out.key("monitorId")?;
    text_token(out, crossing.monitor.as_bytes())?;
    out.key("notificationId")?;
    out.u64(number)?;
    out.key("notificationType")?;
    out.string("notifyThresholdCrossing")?;
    out.key("objectInstance")?;
    text_token(out, crossing.object.as_bytes())?;
    out.key("observedValue")?;
    out.u64(crossing.value)?;
    out.key("performanceMetric")?;
    text_token(out, crossing.metric.as_bytes())?;
    out.key("thresholdDirection")?;
    out.string(direction_word(crossing.up))?;
    out.key("thresholdValue")?;
    out.u64(crossing.threshold)?;
    out.end_object()
}

fn location_of(alloc: Global, name: &[u8]) -> Result<Vec<u8>, AllocError>
    ensures { IfOk result (λ v. v.items ≡ codes "/files/" ++ name.now) }
{
    let mut location = Vec::from_slice(alloc, b"/files/")?;
    location.extend_from_slice(name)?;
    Ok(location)
}

/// Writes a file that is ready.
pub(crate) fn write_listed(
    out: &mut Writer,
    alloc: Global,
    file: &FileInfo,
) -> Result<(), AllocError>
    requires { IsFileInfo file.now }
    ensures { Appends result out.old out.new (listed_form.tree (listed_of file.now)) }
{
    let location = location_of(alloc, file.name.as_bytes())?;
    out.begin_object()?;
    out.key("fileDataType")?;
    out.string("Performance")?;
    out.key("fileExpirationTime")?;
    out.u64(file.ready + EXPIRY)?;
    out.key("fileFormat")?;
    out.string("JSON")?;
    out.key("fileLocation")?;
    text_token(out, &location)?;
    out.key("fileReadyTime")?;
    out.u64(file.ready)?;
    out.key("fileSize")?;
    out.u64(file.size)?;
    out.end_object()
}

fn write_one_listed(out: &mut Writer, alloc: Global, file: &FileInfo) -> Result<(), AllocError>
    requires { IsFileInfo file.now }
    ensures { Appends result out.old out.new ((single listed_form).tree (listed_of file.now)) }
{
    out.begin_array()?;
    write_listed(out, alloc, file)?;
    out.end_array()
}

fn write_file_ready(
    out: &mut Writer,
    alloc: Global,
    number: u64,
    file: &FileInfo,
    element: &[u8],
) -> Result<(), AllocError>
    requires file { IsFileInfo file.now }
    requires element { object_name element.now ≡ true }
    ensures { Appends result out.old out.new (file_ready_form.tree (file_ready_of number file.now element.now)) }
{
    out.begin_object()?;
    out.key("eventTime")?;
    out.u64(file.ready)?;
    out.key("fileInfoList")?;
    write_one_listed(out, alloc, file)?;
    out.key("notificationId")?;
    out.u64(number)?;
    out.key("notificationType")?;
    out.string("notifyFileReady")?;
    out.key("objectInstance")?;
    text_token(out, element)?;
    out.end_object()
}

/// The notice that a file is ready. The element is the distinguished name of the ManagedElement.
pub fn file_notice(
    alloc: Global,
    number: u64,
    file: &FileInfo,
    element: &[u8],
) -> Result<Notice, AllocError>
    requires file { IsFileInfo file.now }
    requires element { object_name element.now ≡ true }
    ensures numbered { IfOk result (λ n. (n.number ≡ number) × (n.end ≡ file.now.ready)) }
    ensures text { IfOk result (λ n. n.body ≡ compact_text (file_ready_form.tree (file_ready_of number file.now element.now))) }
    ensures back { IfOk result (λ n. text_says file_ready_form n.body ≡ Ok (file_ready_of number file.now element.now)) }
{
    let mut out = Writer::new(Vec::new(alloc));
    write_file_ready(&mut out, alloc, number, file, element)?;
    Ok(Notice {
        number,
        end: file.ready,
        body: Blob::from_vec(out.into_inner()),
    })
}

/// The notice of a crossing.
pub fn crossing_notice(alloc: Global, number: u64, crossing: &Crossed) -> Result<Notice, AllocError>
    requires { IsCrossed crossing.now }
    ensures numbered { IfOk result (λ n. (n.number ≡ number) × (n.end ≡ crossing.now.end)) }
    ensures text { IfOk result (λ n. n.body ≡ compact_text (crossing_form.tree (crossing_of number crossing.now))) }
    ensures back { IfOk result (λ n. text_says crossing_form n.body ≡ Ok (crossing_of number crossing.now)) }
{
    // The ranges of what stands behind a reference are known once it is read.
    let _hysteresis = crossing.hysteresis;
    let _value = crossing.value;
    let _threshold = crossing.threshold;
    let mut out = Writer::new(Vec::new(alloc));
    write_crossing(&mut out, number, crossing)?;
    Ok(Notice {
        number,
        end: crossing.end,
        body: Blob::from_vec(out.into_inner()),
    })
}
