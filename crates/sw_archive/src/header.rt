//! The first 52 bytes of an archive.

ghost use Rattle.std.specs.Prelude.{◌≡◌, ◌+◌, ◌≤◌, ◌++◌, [], length, OnOk};
ghost use Rattle.std.specs.Int.{w16, w32, w64, to_be_bytes};
ghost use Rattle.sw_archive.specs.Header.{opening, told_length};

use std::marker::Model;
use sw_cauchy::Code;
use sw_types::NoMemory;

/// The fields before the path.
#[derive(Debug, Drop)]
pub(crate) struct Header {
    pub(crate) magic: [u8; 4],
    pub(crate) version: u8,
    pub(crate) k: u8,
    pub(crate) m: u8,
    pub(crate) index: u8,
    pub(crate) segment: u32,
    pub(crate) stamp: u64,
    pub(crate) body_length: u64,
    pub(crate) body_md5: [u8; 16],
    pub(crate) path_length: u16,
    pub(crate) head_length: u16,
    pub(crate) payload_length: u32,
}

impl Model for Header {
    ghost use Rattle.sw_archive.specs.Header.{HeaderModel, IsHeader};

    ghost Value = { HeaderModel };

    ghost view = { λ h. record {
      magic = h.magic;
      version = h.version;
      k = h.k;
      m = h.m;
      index = h.index;
      segment = h.segment;
      stamp = h.stamp;
      body_length = h.body_length;
      body_md5 = h.body_md5;
      path_length = h.path_length;
      head_length = h.head_length;
      payload_length = h.payload_length;
    } };

    ghost invariant = { λ h. IsHeader (record {
      magic = h.magic;
      version = h.version;
      k = h.k;
      m = h.m;
      index = h.index;
      segment = h.segment;
      stamp = h.stamp;
      body_length = h.body_length;
      body_md5 = h.body_md5;
      path_length = h.path_length;
      head_length = h.head_length;
      payload_length = h.payload_length;
    }) };
}

impl Header {
    ghost use Rattle.sw_archive.specs.Fault.{Opens};
    ghost use Rattle.sw_archive.specs.Reading.{AreNumbers};

    /// The header at the front of the bytes, and the bytes behind it.
    pub(crate) fn read(bytes: &[u8]) -> (Header, &[u8])
        requires { 52 ≤ length bytes.now }
        ensures opens { Opens bytes.now result.0 result.1.now }
        ensures rest { length result.1.now + 52 ≡ length bytes.now }
    {
        let (magic, rest) = front_of(bytes, 4);
        let (small, rest) = front_of(rest, 4);
        let (segment, rest) = u32_at(rest);
        let (stamp, rest) = u64_at(rest);
        let (body_length, rest) = u64_at(rest);
        let (body_md5, rest) = front_of(rest, 16);
        let (path_length, rest) = u16_at(rest);
        let (head_length, rest) = u16_at(rest);
        let (payload_length, rest) = u32_at(rest);
        let header = Header {
            magic: four(magic),
            version: small[0],
            k: small[1],
            m: small[2],
            index: small[3],
            segment,
            stamp,
            body_length,
            body_md5: sixteen(body_md5),
            path_length,
            head_length,
            payload_length,
        };
        (header, rest)
    }

    /// How many bytes the whole archive has.
    pub(crate) fn told_length(&self) -> usize
        ensures { result ≡ told_length self.now }
    {
        68 + usize::from(self.path_length)
            + usize::from(self.head_length)
            + self.payload_length as usize
    }

    /// The code of a header whose numbers are within their bounds.
    pub(crate) fn code(&self) -> Code
        requires { AreNumbers self.now }
        ensures k { result.k ≡ self.now.k }
        ensures m { result.m ≡ self.now.m }
    {
        Code::new(u32::from(self.k), u32::from(self.m))
    }

    /// Adds the header's bytes.
    #[tactic(auto, unfolding(crate::specs::Header::opening))]
    pub(crate) fn write(&self, out: &mut Vec<u8>) -> Result<(), NoMemory>
        ensures { OnOk result (out.new.items ≡ out.old.items ++ opening self.now []) }
    {
        out.extend_from_slice(&self.magic)?;
        out.extend_from_slice(&[self.version, self.k, self.m, self.index])?;
        out.extend_from_slice(&self.segment.to_be_bytes())?;
        out.extend_from_slice(&self.stamp.to_be_bytes())?;
        out.extend_from_slice(&self.body_length.to_be_bytes())?;
        out.extend_from_slice(&self.body_md5)?;
        out.extend_from_slice(&self.path_length.to_be_bytes())?;
        out.extend_from_slice(&self.head_length.to_be_bytes())?;
        out.extend_from_slice(&self.payload_length.to_be_bytes())?;
        Ok(())
    }
}

/// A number of two bytes, and what is behind it.
pub(crate) fn u16_at(bytes: &[u8]) -> (u16, &[u8])
    requires { 2 ≤ length bytes.now }
    ensures split { bytes.now ≡ to_be_bytes w16 result.0 ++ result.1.now }
    ensures rest { length result.1.now + 2 ≡ length bytes.now }
{
    let (front, rest) = bytes.split_at(2);
    (u16::from_be_bytes([front[0], front[1]]), rest)
}

fn u32_at(bytes: &[u8]) -> (u32, &[u8])
    requires { 4 ≤ length bytes.now }
    ensures split { bytes.now ≡ to_be_bytes w32 result.0 ++ result.1.now }
    ensures rest { length result.1.now + 4 ≡ length bytes.now }
{
    let (front, rest) = bytes.split_at(4);
    (u32::from_be_bytes(four(front)), rest)
}

fn u64_at(bytes: &[u8]) -> (u64, &[u8])
    requires { 8 ≤ length bytes.now }
    ensures split { bytes.now ≡ to_be_bytes w64 result.0 ++ result.1.now }
    ensures rest { length result.1.now + 8 ≡ length bytes.now }
{
    let (front, rest) = bytes.split_at(8);
    (
        u64::from_be_bytes([
            front[0], front[1], front[2], front[3], front[4], front[5], front[6], front[7],
        ]),
        rest,
    )
}

/// So many bytes, and what is behind them.
pub(crate) fn front_of(bytes: &[u8], count: usize) -> (&[u8], &[u8])
    requires { count ≤ length bytes.now }
    ensures split { bytes.now ≡ result.0.now ++ result.1.now }
    ensures front { length result.0.now ≡ count }
    ensures rest { length result.1.now + count ≡ length bytes.now }
{
    bytes.split_at(count)
}

fn four(bytes: &[u8]) -> [u8; 4]
    requires { length bytes.now ≡ 4 }
    ensures { result ≡ bytes.now }
{
    let mut four = [0; 4];
    four.copy_from_slice(bytes);
    four
}

/// An MD5, from its bytes.
pub(crate) fn sixteen(bytes: &[u8]) -> [u8; 16]
    requires { length bytes.now ≡ 16 }
    ensures { result ≡ bytes.now }
{
    let mut sixteen = [0; 16];
    sixteen.copy_from_slice(bytes);
    sixteen
}
