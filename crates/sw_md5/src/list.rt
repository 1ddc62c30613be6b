//! The digests of a list of messages.

ghost use Rattle.std.specs.Prelude.{◌≡◌, ◌<◌, ◌≤◌, length, take, map, IfOk};
ghost use Rattle.md5.specs.Md5.{md5};
ghost use Rattle.sw_md5.specs.Side.{HaveOneLength};

use crate::digests::Digests;
use std::alloc::Global;
use sw_types::{Bytes, NoMemory};

// The digests of up to 32 messages, and any bytes behind them.
fn digests_of_some(messages: &[Bytes]) -> [[u8; 16]; 32]
    requires some { 0 < length messages.now }
    requires most { length messages.now ≤ 32 }
    requires alike { HaveOneLength messages.now }
    ensures { take (length messages.now) result ≡ map md5 messages.now }
{
    let mut digests = Digests::new(messages.len());
    digests.update(messages);
    digests.finish()
}

/// The MD5s of any number of messages of one length, in order.
pub fn digests_of(alloc: Global, messages: &[Bytes]) -> Result<Vec<[u8; 16]>, NoMemory>
    requires { HaveOneLength messages.now }
    ensures { IfOk result (λ digests. digests.items ≡ map md5 messages.now) }
{
    let mut digests = Vec::with_capacity(alloc, messages.len())?;
    for group in 0..messages.len().div_ceil(32) {
        let end = messages.len().min(32 * (group + 1));
        let some = &messages[32 * group..end];
        digests.extend_from_slice(&digests_of_some(some)[..some.len()])?;
    }
    Ok(digests)
}
