//! Where a head, a chunk line or a trailer section ends.

ghost use Rattle.std.specs.Prelude.{List, ℕ, MatchOption};
ghost use Rattle.sw_httpread.specs.Ends.{HasNoWhole, HasWhole, IsEnding};

// The greatest number of bytes of a head, of a chunk line and of a trailer section.
const LIMIT: usize = 8192;

/// Where something ends within bytes that came.
#[derive(Debug)]
pub(crate) enum Ending {
    /// Behind the first so many bytes.
    Whole(usize),
    /// Not within the limit, which has come.
    Nowhere,
    /// Not within what has come, which is less than the limit.
    Unended,
}

/// Something that ends where its bytes tell.
pub(crate) trait Form {
    /// Whether bytes are a whole one, that is reach to its end and not beyond.
    ghost whole: { List ℕ → Type 0 };

    /// The length of the whole one at the front of the bytes.
    fn length(bytes: &[u8]) -> Option<usize>
        ensures { MatchOption result (HasNoWhole whole bytes.now) (HasWhole whole bytes.now) };
}

/// Where it ends.
pub(crate) fn ending_of<F: Form>(bytes: &[u8]) -> Ending
    ensures { IsEnding F.whole bytes.now result }
{
    match F::length(&bytes[..bytes.len().min(LIMIT)]) {
        Some(length) => Ending::Whole(length),
        None => {
            if bytes.len() < LIMIT {
                Ending::Unended
            } else {
                Ending::Nowhere
            }
        }
    }
}
