//! Texts that the arguments give to `serve`: the name of a field of a request's head, the name of the desk and the page's language.
ghost use Rattle.std.specs.Prelude.{◌≡◌};
ghost use Rattle.std.specs.List.{list_all};
ghost use Rattle.plant_base.specs.{only};
ghost use Rattle.desk_cli.specs.FieldNames.{is_field_byte, is_field_name, is_language, is_shown_name};

use crate::hosts::is_letter_or_digit;
use plant_base::Text;

fn is_field_byte(b: u8) -> bool
    ensures { result ≡ is_field_byte b }
{
    is_letter_or_digit(b) || b.is_ascii_uppercase() || b == b'-'
}

fn all_field_bytes(text: &[u8]) -> bool
    ensures { result ≡ list_all is_field_byte text.now }
{
    text.iter().all(|&b| is_field_byte(b))
}

/// The name that a text is: 1 to 60 letters, digits and hyphens. `None` where it is none.
pub(crate) fn read_field_name(text: &str) -> Option<Text>
    ensures { result ≡ only is_field_name text.now }
{
    let bytes = text.as_bytes();
    let name = Text::read(bytes)?;
    if !bytes.is_empty() && all_field_bytes(bytes) {
        Some(name)
    } else {
        None
    }
}

/// The name of a desk that a text is: one of 1 to 60 characters. `None` where it is none.
pub(crate) fn read_shown_name(text: &str) -> Option<Text>
    ensures { result ≡ only is_shown_name text.now }
{
    let bytes = text.as_bytes();
    let name = Text::read(bytes)?;
    if bytes.is_empty() { None } else { Some(name) }
}

/// The language of the page that a text names. `None` where it names none.
pub(crate) fn read_language(text: &str) -> Option<Text>
    ensures { result ≡ only is_language text.now }
{
    let language = Text::read(text.as_bytes())?;
    if text == "en" || text == "de" {
        Some(language)
    } else {
        None
    }
}
