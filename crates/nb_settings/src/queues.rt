//! Names of endpoints and of queues.
ghost use Rattle.std.specs.Prelude.{◌≡◌, bytes_eq};
ghost use Rattle.std.specs.List.{list_all, list_any};
ghost use Rattle.nb_base.specs.SettingsRules.{is_name_byte, is_endpoint, is_queue, differ};

use nb_base::Text;

/// Whether each byte may stand in an endpoint's name.
fn has_name_bytes(text: &str) -> bool
    ensures { result ≡ list_all is_name_byte text.now }
{
    text.as_bytes().iter().all(
        |b| matches!(*b, b'a'..=b'z' | b'A'..=b'Z' | b'0'..=b'9' | b'.' | b'-' | b'_'),
    )
}

/// Whether the text is an endpoint's name.
pub(crate) fn is_endpoint(text: &str) -> bool
    ensures { result ≡ is_endpoint text.now }
{
    if text.is_empty() || text.len() > 100 {
        return false;
    }
    has_name_bytes(text)
}

/// Whether the text is a queue's name.
pub(crate) fn is_queue(text: &str) -> bool
    ensures { result ≡ is_queue text.now }
{
    !text.is_empty() && text.len() <= 200
}

/// Whether all are names of queues.
pub(crate) fn are_all_queues(texts: &[Text]) -> bool
    ensures { result ≡ list_all is_queue texts.now }
{
    texts.iter().all(|text| is_queue(text.as_str()))
}

/// Whether the text is among the texts.
fn is_among(text: &Text, texts: &[Text]) -> bool
    ensures { result ≡ list_any (bytes_eq text.now) texts.now }
{
    texts.iter().any(|other| text == other)
}

/// Whether no text stands there twice.
pub(crate) fn differ(texts: &[Text]) -> bool
    ensures { result ≡ differ texts.now }
{
    let mut rest = texts;
    while let Some((text, more)) = rest.split_first() {
        if is_among(text, more) {
            return false;
        }
        rest = more;
    }
    true
}
