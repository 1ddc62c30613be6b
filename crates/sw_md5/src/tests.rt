ghost use Rattle.std.specs.Prelude.{◌≡◌, length};
ghost use Rattle.sw_md5.specs.Side.{HaveOneLength};

use crate::{Digests, Piece, digests_of};
use md5::{Digest, Md5};
use std::alloc::Global;
use std::process::Abort;
use std::test::Fail;
use sw_types::Bytes;

// Lengths around the ends of blocks and of paddings.
const LENGTHS: [usize; 10] = [0, 1, 55, 56, 63, 64, 65, 119, 120, 128];

// Counts around the widths of vectors, and more than go side by side.
const COUNTS: [usize; 8] = [1, 3, 4, 5, 8, 9, 14, 35];

fn expect_alike(rt: &impl Abort, messages: &[Bytes])
    ensures { HaveOneLength messages.now }
{
    for index in 0..messages.len() {
        assert_eq!(rt; messages[index].len(), messages[0].len());
    }
}

// So many messages of so many bytes, no two of them the same.
fn messages_of(alloc: Global, count: usize, bytes: usize) -> Result<Vec<Bytes>, Fail> {
    let mut messages = Vec::new(alloc);
    for message in 0..count {
        let mut content = Vec::new(alloc);
        for index in 0..bytes {
            content.push((index % 251) as u8 ^ (message % 256) as u8)?;
        }
        messages.push(Bytes::from(content))?;
    }
    Ok(messages)
}

fn expect_digests(rt: &impl Abort, digests: &[[u8; 16]], messages: &[Bytes]) {
    assert_eq!(rt; digests.len(), messages.len());
    for (digest, message) in digests.iter().zip(messages) {
        assert_eq!(rt;
            digest.as_slice(),
            Md5::digest(message.as_slice()).as_slice()
        );
    }
}

// The test suite of RFC 1321, appendix A.5, each text beside others of its length.
#[test]
fn known_digests(rt: HostRuntime) -> Result<(), Fail> {
    let suite: [(&[u8], u128); 7] = [
        (b"", 0xd41d8cd98f00b204e9800998ecf8427e),
        (b"a", 0x0cc175b9c0f1b6a831c399e269772661),
        (b"abc", 0x900150983cd24fb0d6963f7d28e17f72),
        (b"message digest", 0xf96b697d7cb7938d525a2f31aaf161d0),
        (
            b"abcdefghijklmnopqrstuvwxyz",
            0xc3fcd3d76192e4007dfb496cca67e13b,
        ),
        (
            b"ABCDEFGHIJKLMNOPQRSTUVWXYZabcdefghijklmnopqrstuvwxyz0123456789",
            0xd174ab98d277d9f5a5611c2c9f419d9f,
        ),
        (
            b"12345678901234567890123456789012345678901234567890123456789012345678901234567890",
            0x57edf4a22be3c955ac49da2e2107b67a,
        ),
    ];
    for (text, digest) in suite {
        let mut messages = messages_of(rt.alloc(), 4, text.len())?;
        messages.push(Bytes::from_slice(rt.alloc(), text)?)?;
        expect_alike(&rt, &messages);
        let digests = digests_of(rt.alloc(), &messages)?;
        expect_digests(&rt, &digests, &messages);
        assert_eq!(rt; digests.last(), Some(&digest.to_be_bytes()));
    }
    Ok(())
}

#[test]
fn digests_of_lists(rt: HostRuntime) -> Result<(), Fail> {
    for bytes in LENGTHS {
        for count in COUNTS {
            let messages = messages_of(rt.alloc(), count, bytes)?;
            expect_alike(&rt, &messages);
            expect_digests(&rt, &digests_of(rt.alloc(), &messages)?, &messages);
        }
    }
    Ok(())
}

// Messages cut into pieces of 1, 62, 2, 64, 130 and 61 bytes, with one byte for all between them.
#[test]
fn pieces(rt: HostRuntime) -> Result<(), Fail> {
    for count in [1, 4, 14, 32] {
        let mut under_way = Digests::new(count);
        let mut whole = messages_of(rt.alloc(), count, 0)?;
        for bytes in [1, 62, 2, 64, 130, 61] {
            let pieces = messages_of(rt.alloc(), count, bytes)?;
            expect_alike(&rt, &pieces);
            assert_eq!(rt; pieces.len(), under_way.count());
            under_way.update(&pieces);
            under_way.update_all(&[bytes as u8]);
            for (message, piece) in whole.iter_mut().zip(&pieces) {
                message.extend_from_slice(piece.bytes())?;
                message.extend_from_slice(&[bytes as u8])?;
            }
        }
        expect_digests(&rt, &under_way.finish()[..count], &whole);
    }
    Ok(())
}
