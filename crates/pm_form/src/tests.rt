//! What single values say.
use crate::{
    ReadError, Refusal, class_word_in, fixed_in, flag_in, items_of, job_id_in, json_tree,
    measure_name_in, text_token, values_of, whole_in, whole_or_null_in, whole_or_null_token,
};
use json::Writer;
use std::alloc::{AllocError, Global};

const NUMBER: ReadError = ReadError::Refused(Refusal::WrongNumber);

const KIND: ReadError = ReadError::Refused(Refusal::WrongType);

fn number_of(alloc: Global, text: &str) -> Result<u64, ReadError> {
    whole_in(&json_tree(alloc, text.as_bytes())?, 59)
}

#[test]
fn numbers_are_whole_and_in_their_range(rt: HostRuntime) {
    let cases: [(&str, Result<u64, ReadError>); 8] = [
        (" 59", Ok(59)),
        ("60", Err(NUMBER)),
        ("-1", Err(NUMBER)),
        ("1.0", Err(NUMBER)),
        ("1e1", Err(NUMBER)),
        ("\"1\"", Err(KIND)),
        ("null", Err(KIND)),
        ("[", Err(ReadError::Refused(Refusal::NotJson))),
    ];
    for (text, want) in cases {
        assert_eq!(rt; number_of(rt.alloc(), text), want, "at {text}");
    }
}

// The second key's value, through each reading that takes no number.
fn second_of(alloc: Global, text: &str) -> Result<(), ReadError> {
    let tree = json_tree(alloc, text.as_bytes())?;
    let mut values = values_of(&tree, &["class", "flag", "job", "name", "word"])?;
    for at in 0..5 {
        let Some(value) = values.next() else {
            return Ok(());
        };
        match at {
            0 => {
                let _ = class_word_in(alloc, value)?;
            }
            1 => {
                let _ = flag_in(value)?;
            }
            2 => {
                let _ = job_id_in(alloc, value)?;
            }
            3 => {
                let _ = measure_name_in(alloc, value)?;
            }
            _ => fixed_in(value, "PM1")?,
        }
    }
    Ok(())
}

#[test]
fn strings_are_names_and_flags_are_flags(rt: HostRuntime) {
    let keys = ReadError::Refused(Refusal::WrongKeys);
    let cases: [(&str, Result<(), ReadError>); 7] = [
        (
            r#"{"word":"PM1","name":"VS.Low","job":"j1","flag":true,"class":"NRCellDU"}"#,
            Ok(()),
        ),
        (
            r#"{"word":"PM2","name":"VS.Low","job":"j1","flag":true,"class":"NRCellDU"}"#,
            Err(KIND),
        ),
        (
            r#"{"word":"PM1","name":"VS.","job":"j1","flag":true,"class":"NRCellDU"}"#,
            Err(KIND),
        ),
        (
            r#"{"word":"PM1","name":"VS.Low","job":"-j","flag":true,"class":"NRCellDU"}"#,
            Err(KIND),
        ),
        (
            r#"{"word":"PM1","name":"VS.Low","job":"j1","flag":0,"class":"NRCellDU"}"#,
            Err(KIND),
        ),
        (
            r#"{"word":"PM1","name":"VS.Low","job":"j1","flag":true,"class":"NRCell"}"#,
            Err(KIND),
        ),
        (
            r#"{"name":"VS.Low","job":"j1","flag":true,"class":"NRCellDU"}"#,
            Err(keys),
        ),
    ];
    for (text, want) in cases {
        assert_eq!(rt; second_of(rt.alloc(), text), want, "at {text}");
    }
}

fn copied_list(alloc: Global, text: &str) -> Result<Vec<u8>, ReadError> {
    let tree = json_tree(alloc, text.as_bytes())?;
    let mut out = Writer::new(Vec::new(alloc));
    for item in items_of(&tree)? {
        match whole_or_null_token(&mut out, whole_or_null_in(item)?) {
            Ok(()) => {}
            Err(AllocError) => return Err(ReadError::Memory),
        }
    }
    Ok(out.into_inner())
}

#[test]
fn nulls_and_numbers_are_written_as_they_are_read(rt: HostRuntime) {
    match copied_list(rt.alloc(), "[ null , 18446744073709551615]") {
        Ok(text) => assert_eq!(rt; text.as_slice(), b"null,18446744073709551615".as_slice()),
        Err(error) => assert!(rt; false, "{error:?}"),
    }
    let over = copied_list(rt.alloc(), "[18446744073709551616]");
    assert!(rt; matches!(over, Err(NUMBER)));
}
