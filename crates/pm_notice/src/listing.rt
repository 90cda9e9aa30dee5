//! A listing of the files that are ready, read and written.
ghost use Rattle.std.specs.Prelude.{◌≡◌, true, All, map, Ok, IfOk};
ghost use Rattle.std.specs.List.{list_any};
ghost use Rattle.std.specs.Str.{bytes_eq};
ghost use Rattle.serde_json.specs.View.{view};
ghost use Rattle.serde_json.specs.Written.{compact_text};
ghost use Rattle.pm_form.specs.Form.{text_says};
ghost use Rattle.pm_form.specs.Lists.{list_of};
ghost use Rattle.pm_form.specs.Says.{Says, Appends};
ghost use Rattle.pm_notice.specs.NoticeForm.{listed_form, are_distinct, listing_form};
ghost use Rattle.pm_notice.specs.NoticeContent.{listed_of, locations_of, IsFileInfo};
ghost use Rattle.pm_notice.specs.declared.notice.FileInfo.{FileInfo};

use crate::FileInfo;
use crate::listed::read_listed;
use crate::write::write_listed;
use json::Writer;
use pm_base::Blob;
use pm_form::{ReadError, Refusal, items_of, json_tree, values_of};
use serde_json::Value;
use std::alloc::{AllocError, Global};

fn is_among(name: &[u8], files: &[FileInfo]) -> bool
    ensures { result ≡ list_any (λ (f : FileInfo). bytes_eq name.now f.name) files.now }
{
    files.iter().any(|file| name == file.name.as_bytes())
}

/// Whether no name comes twice.
fn are_distinct(files: &[FileInfo]) -> bool
    ensures { result ≡ are_distinct (locations_of files.now) }
{
    for place in 0..files.len() {
        let name = files[place].name.as_bytes();
        let (_, behind) = files.split_at(place + 1);
        if is_among(name, behind) {
            return false;
        }
    }
    true
}

fn read_files(alloc: Global, value: &Value) -> Result<Vec<FileInfo>, ReadError>
    ensures { Says result (λ v. map listed_of v.items) ((list_of listed_form).reads (view value.now)) }
{
    let list = items_of(value)?;
    let mut files = Vec::new(alloc);
    for item in list {
        let file = read_listed(alloc, item)?;
        if files.push(file).is_err() {
            return Err(ReadError::Memory);
        }
    }
    Ok(files)
}

#[tactic(auto, unfolding(crate::specs::NoticeForm::listing_form))]
fn listing_in(alloc: Global, value: &Value) -> Result<Vec<FileInfo>, ReadError>
    ensures { Says result (λ v. map listed_of v.items) (listing_form.reads (view value.now)) }
{
    let mut values = values_of(value, &["fileInfoList"])?;
    let Some(files) = values.next() else {
        return Err(ReadError::Refused(Refusal::WrongKeys));
    };
    let files = read_files(alloc, files)?;
    if !are_distinct(&files) {
        return Err(ReadError::Refused(Refusal::Disagrees));
    }
    Ok(files)
}

/// The files that a listing says, in its order, or the first refusal.
pub fn read_listing(alloc: Global, bytes: &[u8]) -> Result<Vec<FileInfo>, ReadError>
    ensures { Says result (λ v. map listed_of v.items) (text_says listing_form bytes.now) }
{
    let tree = json_tree(alloc, bytes)?;
    listing_in(alloc, &tree)
}

fn write_files(out: &mut Writer, alloc: Global, files: &[FileInfo]) -> Result<(), AllocError>
    requires { All IsFileInfo files.now }
    ensures { Appends result out.old out.new ((list_of listed_form).tree (map listed_of files.now)) }
{
    out.begin_array()?;
    for file in files {
        write_listed(out, alloc, file)?;
    }
    out.end_array()
}

#[tactic(auto, unfolding(crate::specs::NoticeForm::listing_form))]
fn write_listing(out: &mut Writer, alloc: Global, files: &[FileInfo]) -> Result<(), AllocError>
    requires { All IsFileInfo files.now }
    ensures { Appends result out.old out.new (listing_form.tree (map listed_of files.now)) }
{
    out.begin_object()?;
    out.key("fileInfoList")?;
    write_files(out, alloc, files)?;
    out.end_object()
}

/// The text of a listing of these files, in this order.
pub fn listing_text(alloc: Global, files: &[FileInfo]) -> Result<Blob, AllocError>
    requires { All IsFileInfo files.now }
    ensures text { IfOk result (λ t. t ≡ compact_text (listing_form.tree (map listed_of files.now))) }

    // It reads back as the files, where no name comes twice.
    ensures back { IfOk result (λ t. are_distinct (locations_of files.now) ≡ true → text_says listing_form t ≡ Ok (map listed_of files.now)) }
{
    let mut out = Writer::new(Vec::new(alloc));
    write_listing(&mut out, alloc, files)?;
    Ok(Blob::from_vec(out.into_inner()))
}
