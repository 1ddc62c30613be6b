//! The words of a line.

ghost use Rattle.sw_script.specs.Line.{words_of};
ghost use Rattle.sw_script.specs.Words.{AreWords};

use crate::cut_at;

/// The words of a text, in their order. No form has more than four.
#[derive(Clone, Copy, Debug)]
pub(crate) enum Words<'a> {
    One(&'a [u8]),
    Two(&'a [u8], &'a [u8]),
    Three(&'a [u8], &'a [u8], &'a [u8]),
    Four(&'a [u8], &'a [u8], &'a [u8], &'a [u8]),
    More,
}

/// The words of a text, which are separated by one space. It takes no memory.
pub(crate) fn words_in(text: &[u8]) -> Words<'_>
    ensures { AreWords (words_of text.now) result }
{
    let (first, rest) = cut_at(b' ', text);
    let Some(rest) = rest else {
        return Words::One(first);
    };
    let (second, rest) = cut_at(b' ', rest);
    let Some(rest) = rest else {
        return Words::Two(first, second);
    };
    let (third, rest) = cut_at(b' ', rest);
    let Some(rest) = rest else {
        return Words::Three(first, second, third);
    };
    let (fourth, rest) = cut_at(b' ', rest);
    match rest {
        Some(_) => Words::More,
        None => Words::Four(first, second, third, fourth),
    }
}
