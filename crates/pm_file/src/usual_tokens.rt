//! Single tokens of a text, each the one that is wanted or none. None decides nothing: the text is read again by its tree.
ghost use Rattle.std.specs.Prelude.{◌≡◌, ◌≢◌, ◌∷◌, true, length, slice_index, decimal, IfSome};
ghost use Rattle.json.specs.Token.{begin_object, end_object, begin_array, key, string, number, boolean};
ghost use Rattle.pm_form.specs.Values.{or_null_tree};
ghost use Rattle.pm_file.specs.Usual.{IsFirst};

use json::{Reader, Token};

/// Takes the brace that opens an object.
pub(crate) fn take_object(reader: &mut Reader<'_>) -> Option<()>
    ensures { IfSome result (λ _. reader.old ≡ begin_object ∷ reader.new) }
{
    match reader.next() {
        Some(Token::BeginObject) => Some(()),
        _ => None,
    }
}

/// Takes the brace that closes an object.
pub(crate) fn take_end(reader: &mut Reader<'_>) -> Option<()>
    ensures { IfSome result (λ _. reader.old ≡ end_object ∷ reader.new) }
{
    match reader.next() {
        Some(Token::EndObject) => Some(()),
        _ => None,
    }
}

/// Takes the bracket that opens an array.
pub(crate) fn take_array(reader: &mut Reader<'_>) -> Option<()>
    ensures { IfSome result (λ _. reader.old ≡ begin_array ∷ reader.new) }
{
    match reader.next() {
        Some(Token::BeginArray) => Some(()),
        _ => None,
    }
}

/// Takes this key.
pub(crate) fn take_key(reader: &mut Reader<'_>, word: &str) -> Option<()>
    ensures { IfSome result (λ _. reader.old ≡ key word.now ∷ reader.new) }
{
    match reader.next() {
        Some(Token::Key(name)) if name == word => Some(()),
        _ => None,
    }
}

/// Takes this string.
pub(crate) fn take_word(reader: &mut Reader<'_>, word: &str) -> Option<()>
    ensures { IfSome result (λ _. reader.old ≡ string word.now ∷ reader.new) }
{
    match reader.next() {
        Some(Token::String(text)) if text == word => Some(()),
        _ => None,
    }
}

/// A string.
pub(crate) fn next_text<'a>(reader: &mut Reader<'a>) -> Option<&'a str>
    ensures { IfSome result (λ s. reader.old ≡ string s.now ∷ reader.new) }
{
    match reader.next() {
        Some(Token::String(text)) => Some(text),
        _ => None,
    }
}

/// True or false.
pub(crate) fn next_flag(reader: &mut Reader<'_>) -> Option<bool>
    ensures { IfSome result (λ b. reader.old ≡ boolean b ∷ reader.new) }
{
    match reader.next() {
        Some(Token::Bool(flag)) => Some(flag),
        _ => None,
    }
}

// Digits that `decimal` may have written: no sign, and no zero before others.
fn is_plain(digits: &[u8]) -> bool
    ensures { result ≡ true → (slice_index digits.now 0 ≢ 43) × (slice_index digits.now 0 ≡ 48 → length digits.now ≡ 1) }
{
    match digits.first() {
        Some(b'+') => false,
        Some(b'0') => digits.len() == 1,
        _ => true,
    }
}

// The number that stands there as it is written.
fn whole_of(text: &str) -> Option<u64>
    ensures { IfSome result (λ n. text.now ≡ decimal n) }
{
    if !is_plain(text.as_bytes()) {
        return None;
    }
    match text.parse::<u64>() {
        Ok(n) => Some(n),
        Err(_) => None,
    }
}

/// A whole number.
pub(crate) fn next_whole(reader: &mut Reader<'_>) -> Option<u64>
    ensures { IfSome result (λ n. reader.old ≡ number (decimal n) ∷ reader.new) }
{
    match reader.next() {
        Some(Token::Number(text)) => whole_of(text),
        _ => None,
    }
}

/// A whole number or null.
pub(crate) fn next_result(reader: &mut Reader<'_>) -> Option<Option<u64>>
    ensures { IfSome result (λ v. IsFirst (or_null_tree v) reader.old reader.new) }
{
    match reader.next() {
        Some(Token::Null) => Some(None),
        Some(Token::Number(text)) => match whole_of(text) {
            Some(n) => Some(Some(n)),
            None => None,
        },
        _ => None,
    }
}
