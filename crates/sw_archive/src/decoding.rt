//! Bodies and payloads are decoded from archives, segment by segment.

ghost use Rattle.std.specs.Prelude.{◌≡◌, ◌+◌, ◌*◌, ◌<◌, ◌≤◌, ◌++◌, List, ℕ, IfOk, IsTrue, OnOk, length, map, take};
ghost use Rattle.std.specs.List.{All};
ghost use Rattle.sw_words.specs.Bytes.{IsBytes};
ghost use Rattle.sw_types.specs.Object.{greatest_body};
ghost use Rattle.sw_types.specs.Policy.{greatest_total};
ghost use Rattle.sw_cauchy.specs.Stripe.{fragment, fragment_width};
ghost use Rattle.sw_archive.specs.Assemble.{AreEnough, AreTogether};
ghost use Rattle.sw_archive.specs.Decoding.{AreDataFrom, AreLaidOut, HasCode, HavePieces, IsRebuilt, laid_length, share_at};
ghost use Rattle.sw_archive.specs.Pieces.{IsDecoded};

use crate::archive::Archive;
use std::alloc::Global;
use sw_cauchy::{Code, Gather};
use sw_types::{Bytes, NoMemory};

/// How the payloads of some archives are laid out: by their code, the size of a segment and the length of the body.
#[derive(Clone, Copy, Debug)]
pub(crate) struct Layout {
    code: Code,
    size: usize,
    total: usize,
}

/// The body of k archives.
pub(crate) fn decode_body(alloc: Global, archives: &[Archive]) -> Result<Bytes, NoMemory>
    requires enough { AreEnough archives.now }
    requires together { AreTogether archives.now }
    ensures length { IfOk result (λ body. All (λ archive. length body ≡ archive.body_length) archives.now) }
    ensures bound { IfOk result (λ body. length body ≤ greatest_body) }
    ensures decoded { IfOk result (IsDecoded archives.now) }
{
    let layout = layout_of(archives);
    let mut gather = Gather::new(alloc, layout.code, 0)?;
    // The zeros behind the last segment stand in the body until that segment is cut.
    let room = layout.total + layout.code.k as usize;
    let mut body = Vec::with_capacity(alloc, room)?;
    let mut offset = 0;
    'segments: while body.len() < layout.total {
        let count = layout.size.min(layout.total - body.len());
        push_segment(&mut body, &mut gather, archives, layout, offset, count)?;
        offset += layout.code.fragment_width(count);
    }
    Ok(Bytes::from(body))
}

/// Adds the payload of an index, from k archives.
pub(crate) fn rebuild_payload(
    alloc: Global,
    out: &mut Vec<u8>,
    archives: &[Archive],
    index: u32,
) -> Result<(), NoMemory>
    requires enough { AreEnough archives.now }
    requires together { AreTogether archives.now }
    requires index { All (λ archive. index < archive.k + archive.m) archives.now }
    ensures { OnOk result (IsRebuilt archives.now index out.old.items out.new.items) }
{
    let layout = layout_of(archives);
    let mut gather = Gather::new(alloc, layout.code, 0)?;
    let mut done = 0;
    let mut offset = 0;
    'segments: while done < layout.total {
        let count = layout.size.min(layout.total - done);
        let fragment = rebuild_fragment(
            alloc,
            &mut gather,
            archives,
            layout,
            offset,
            count,
            index,
        )?;
        out.extend_from_slice(fragment.as_slice())?;
        offset += fragment.len();
        done += count;
    }
    Ok(())
}

// How the payloads of k archives are laid out.
fn layout_of(archives: &[Archive]) -> Layout
    requires enough { AreEnough archives.now }
    requires together { AreTogether archives.now }
    ensures { AreLaidOut result archives.now }
{
    let first = &archives[0];
    Layout {
        code: first.code(),
        size: first.segment() as usize,
        total: first.body_length() as usize,
    }
}

// Adds the segment of so many bytes whose fragments stand there in the payloads.
fn push_segment(
    out: &mut Vec<u8>,
    gather: &mut Gather,
    archives: &[Archive],
    layout: Layout,
    offset: usize,
    count: usize,
) -> Result<(), NoMemory>
    requires laid_out { AreLaidOut layout archives.now }
    requires code { HasCode layout gather.old }
    requires reach { offset + fragment_width layout.code.k count ≤ laid_length layout }
    ensures code { OnOk result (HasCode layout gather.new) }
    ensures length { OnOk result (length out.new.items ≡ length out.old.items + count) }
    ensures decoded { let width = fragment_width layout.code.k count in
        (pieces : List ℕ) → IsBytes pieces → length pieces ≡ layout.code.k * width → HavePieces layout.code.k offset width pieces archives.now →
        OnOk result (out.new.items ≡ out.old.items ++ take count pieces) }
{
    if are_data(archives, 0) {
        return push_pieces(out, archives, layout, offset, count);
    }
    gather_fragments(gather, archives, layout, offset, count)?;
    gather.push_segment(out, count)
}

// Whether these are archives of the data fragments from an index on, in their order.
fn are_data(archives: &[Archive], index: u32) -> bool
    requires { index + length archives.now ≤ greatest_total }
    ensures { IsTrue result → AreDataFrom index archives.now }
{
    match archives.split_first() {
        Some((first, others)) => first.index() == index && are_data(others, index + 1),
        None => true,
    }
}

// Adds the segment of so many bytes whose pieces stand there in the payloads of all data fragments.
fn push_pieces(
    out: &mut Vec<u8>,
    archives: &[Archive],
    layout: Layout,
    offset: usize,
    count: usize,
) -> Result<(), NoMemory>
    requires laid_out { AreLaidOut layout archives.now }
    requires data { AreDataFrom 0 archives.now }
    requires reach { offset + fragment_width layout.code.k count ≤ laid_length layout }
    ensures length { OnOk result (length out.new.items ≡ length out.old.items + count) }
    ensures decoded { let width = fragment_width layout.code.k count in
        (pieces : List ℕ) → IsBytes pieces → length pieces ≡ layout.code.k * width → HavePieces layout.code.k offset width pieces archives.now →
        OnOk result (out.new.items ≡ out.old.items ++ take count pieces) }
{
    let start = out.len();
    let width = layout.code.fragment_width(count);
    for archive in archives {
        out.extend_from_slice(&archive.payload()[offset..offset + width])?;
    }
    out.truncate(start + count);
    Ok(())
}

// The fragment of an index of that segment.
fn rebuild_fragment(
    alloc: Global,
    gather: &mut Gather,
    archives: &[Archive],
    layout: Layout,
    offset: usize,
    count: usize,
    index: u32,
) -> Result<Bytes, NoMemory>
    requires laid_out { AreLaidOut layout archives.now }
    requires code { HasCode layout gather.old }
    requires reach { offset + fragment_width layout.code.k count ≤ laid_length layout }
    requires index { index < layout.code.k + layout.code.m }
    ensures code { OnOk result (HasCode layout gather.new) }
    ensures length { IfOk result (λ fragment. length fragment ≡ fragment_width layout.code.k count) }
    ensures decoded { let width = fragment_width layout.code.k count in
        (pieces : List ℕ) → IsBytes pieces → length pieces ≡ layout.code.k * width → HavePieces layout.code.k offset width pieces archives.now →
        IfOk result (λ bytes. bytes ≡ fragment layout.code.k width pieces index) }
{
    gather_fragments(gather, archives, layout, offset, count)?;
    gather.rebuild(alloc, index)
}

// Gathers the fragments of a segment of so many bytes, which stand there in the payloads, anew. The indices and their order
// are the same for each segment, so that the gather inverts their rows once.
fn gather_fragments(
    gather: &mut Gather,
    archives: &[Archive],
    layout: Layout,
    offset: usize,
    count: usize,
) -> Result<(), NoMemory>
    requires laid_out { AreLaidOut layout archives.now }
    requires code { HasCode layout gather.old }
    requires reach { offset + fragment_width layout.code.k count ≤ laid_length layout }
    ensures { let width = fragment_width layout.code.k count in
        OnOk result (gather.new ≡ record { k = layout.code.k; m = layout.code.m; width = width; shares = map (share_at offset width) archives.now }) }
{
    let width = layout.code.fragment_width(count);
    gather.again(width)?;
    for archive in archives {
        gather.add(archive.index(), &archive.payload()[offset..offset + width]);
    }
    Ok(())
}
