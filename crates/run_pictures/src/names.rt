//! Names, endings and colours.

ghost use Rattle.std.specs.Prelude.{◌≡◌, ◌++◌, flat_map, OnOk, string_bytes};
ghost use Rattle.std.specs.List.{list_all};
ghost use Rattle.run_pictures.specs.PictureTexts.{colour, escaped, escaped_byte, is_plain, mark_path};

use scale_base::End;
use scale_report::EndWords;
use std::alloc::AllocError;
use std::fmt;

/// Whether a byte of a name may stand as it is in the text of an XML element.
fn is_plain(b: u8) -> bool
    ensures { result ≡ is_plain b }
{
    b != b'&' && b != b'<' && b != b'>' && b >= 32
}

/// Whether all bytes are so.
fn are_plain(bytes: &[u8]) -> bool
    ensures { result ≡ list_all is_plain bytes.now }
{
    for b in bytes {
        if !is_plain(*b) {
            return false;
        }
    }
    true
}

// Adds a byte of a name.
fn push_byte(text: &mut String, b: u8) -> Result<(), AllocError>
    ensures { OnOk result (string_bytes text.new ≡ string_bytes text.old ++ escaped_byte b) }
{
    match b {
        b'&' => text.push_str("&amp;"),
        b'<' => text.push_str("&lt;"),
        b'>' => text.push_str("&gt;"),
        32..=126 => text.push(char::from(b)),
        _ => text.push_str("?"),
    }
}

// Adds the bytes of a name, one after another.
fn push_bytes(text: &mut String, bytes: &[u8]) -> Result<(), AllocError>
    ensures { OnOk result (string_bytes text.new ≡ string_bytes text.old ++ flat_map escaped_byte bytes.now) }
{
    for b in bytes {
        push_byte(text, *b)?;
    }
    Ok(())
}

/// Adds a name as the text of an XML element.
#[tactic(auto, unfolding(crate::specs::PictureTexts::escaped))]
pub fn push_escaped(text: &mut String, name: &str) -> Result<(), AllocError>
    ensures { OnOk result (string_bytes text.new ≡ string_bytes text.old ++ escaped name.now) }
{
    if are_plain(name.as_bytes()) {
        text.push_str(name)
    } else {
        push_bytes(text, name.as_bytes())
    }
}

/// How a run ended.
#[derive(Clone, Copy)]
pub struct EndPhrase(pub End);

impl fmt::Display for EndPhrase {
    ghost use Rattle.std.specs.Prelude.{Some};
    ghost use Rattle.run_pictures.specs.PictureTexts.{end_phrase};

    ghost output = { λ phrase. Some (end_phrase phrase.0) };

    fn fmt<W: fmt::Write>(&self, f: &mut fmt::Formatter<W>) -> fmt::Result {
        match self.0 {
            End::Exited(status) => write!(f, "{}", EndWords(End::Exited(status))),
            End::Trapped(trap) => write!(f, "{}", EndWords(End::Trapped(trap))),
            End::OutOfSteps => write!(f, "out of steps"),
        }
    }
}

/// What is drawn at the end of a run: a line, with a cross on it where it trapped, and an arrow where it would go on.
pub fn mark_path(end: End) -> &'static str
    ensures { result.now ≡ mark_path end }
{
    match end {
        End::Exited(_) => "M0 0V-500",
        End::Trapped(_) => "M0 0V-500M-60 -310L60 -190M60 -310L-60 -190",
        End::OutOfSteps => "M0 0V-500M0 -250H130M70 -310L130 -250L70 -190",
    }
}

/// The colours of shades, from light to dark.
pub fn colour(shade: u16) -> &'static str
    ensures { result.now ≡ colour shade }
{
    match shade {
        0 => "#abcbe5",
        1 => "#8fbadc",
        2 => "#73a8d1",
        3 => "#5895c5",
        4 => "#3f81b5",
        5 => "#2a6ca3",
        6 => "#18568d",
        _ => "#0a4072",
    }
}
