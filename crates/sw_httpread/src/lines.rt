//! Where lines end, and what is made of them.

ghost use Rattle.std.specs.Prelude.{◌≡◌, ◌++◌, ◌∷◌, MatchOption, true, false};
ghost use Rattle.sw_httpread.specs.Ends.{HasNoWhole, HasWhole};
ghost use Rattle.sw_httpread.specs.Lines.{IsEmptyLine, IsLine, IsWholeHead, IsWholeLine, IsWholeSection};

use crate::ending::Form;

// What stands before the first line feed, and what after it.
fn cut_line(text: &[u8]) -> Option<(&[u8], &[u8])>
    ensures { MatchOption result (IsLine text.now)
        (λ parts. (text.now ≡ parts.0.now ++ 10 ∷ parts.1.now) × (IsLine parts.0.now)) }
{
    for (place, byte) in text.iter().enumerate() {
        if *byte == 10 {
            return Some((&text[..place], &text[place + 1..text.len()]));
        }
    }
    None
}

fn is_empty_line(line: &[u8]) -> bool
    ensures yes { result ≡ true → IsEmptyLine line.now }
    ensures no { result ≡ false → ¬ IsEmptyLine line.now }
{
    line.is_empty() || line == [13].as_slice()
}

/// A head, which reaches to the first empty line behind a line that isn't empty.
pub(crate) struct HeadForm;

impl Form for HeadForm {
    ghost whole = { IsWholeHead };

    fn length(bytes: &[u8]) -> Option<usize>
        ensures { MatchOption result (HasNoWhole IsWholeHead bytes.now) (HasWhole IsWholeHead bytes.now) }
    {
        let mut rest = bytes;
        let mut seen = false;
        while let Some((line, tail)) = cut_line(rest) {
            if !is_empty_line(line) {
                seen = true;
            } else if seen {
                return Some(bytes.len() - tail.len());
            }
            rest = tail;
        }
        None
    }
}

/// A chunk line, which reaches to the first line feed.
pub(crate) struct LineForm;

impl Form for LineForm {
    ghost whole = { IsWholeLine };

    fn length(bytes: &[u8]) -> Option<usize>
        ensures { MatchOption result (HasNoWhole IsWholeLine bytes.now) (HasWhole IsWholeLine bytes.now) }
    {
        let (line, _) = cut_line(bytes)?;
        Some(line.len() + 1)
    }
}

/// A trailer section, which reaches to the first empty line.
pub(crate) struct SectionForm;

impl Form for SectionForm {
    ghost whole = { IsWholeSection };

    fn length(bytes: &[u8]) -> Option<usize>
        ensures { MatchOption result (HasNoWhole IsWholeSection bytes.now) (HasWhole IsWholeSection bytes.now) }
    {
        let mut rest = bytes;
        while let Some((line, tail)) = cut_line(rest) {
            if is_empty_line(line) {
                return Some(bytes.len() - tail.len());
            }
            rest = tail;
        }
        None
    }
}
