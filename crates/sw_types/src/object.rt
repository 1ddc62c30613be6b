//! Objects.

ghost use Rattle.std.specs.Prelude.{◌≡◌, ◌<◌, ◌≤◌, length, MatchResult};
ghost use Rattle.md5.specs.Md5.{md5};
ghost use Rattle.sw_types.specs.Object.{IsObject, greatest_body, object_of};

use crate::{Bytes, Head};
use md5::{Digest, Md5};
use std::alloc::AllocError;
use std::marker::Model;

/// A head, and a body of at most 16,777,216 bytes, with the body's MD5 (RFC 1321), which is computed once.
#[derive(Debug, Drop)]
pub struct Object {
    head: Head,
    body: Bytes,
    body_md5: [u8; 16],
}

impl Model for Object {
    ghost use Rattle.sw_types.specs.Object.{IsObject, ObjectModel};

    ghost Value = { ObjectModel };

    ghost view = { λ object. record { head = object.head; body = object.body; body_md5 = object.body_md5 } };

    ghost invariant = { λ object. IsObject (record { head = object.head; body = object.body; body_md5 = object.body_md5 }) };
}

impl Object {
    /// The greatest number of bytes of a body.
    pub const GREATEST_BODY: usize = 16_777_216;

    /// The object of a head and a body. Where the body is too long, both are handed back. It takes no memory.
    pub fn make(head: Head, body: Bytes) -> Result<Object, (Head, Bytes)>
        ensures { MatchResult result
            (λ object. (length body ≤ greatest_body) × (object ≡ object_of head body))
            (λ back. (greatest_body < length body) × (back.0 ≡ head) × (back.1 ≡ body)) }
    {
        if body.len() > Object::GREATEST_BODY {
            return Err((head, body));
        }
        let body_md5 = Md5::digest(body.as_slice());
        Ok(Object {
            head,
            body,
            body_md5,
        })
    }

    /// The head.
    pub fn head(&self) -> &Head
        ensures { result.now ≡ self.now.head }
    {
        &self.head
    }

    /// The body.
    pub fn body(&self) -> &Bytes
        ensures body { result.now ≡ self.now.body }
        ensures sound { IsObject self.now }
    {
        &self.body
    }

    /// The MD5 of the body.
    pub fn body_md5(&self) -> [u8; 16]
        ensures kept { result ≡ self.now.body_md5 }
        ensures value { result ≡ md5 self.now.body }
    {
        self.body_md5
    }

    /// The head and the body.
    pub fn into_parts(self) -> (Head, Bytes)
        ensures head { result.0 ≡ self.head }
        ensures body { result.1 ≡ self.body }
    {
        let Object {
            head,
            body,
            body_md5: _,
        } = self;
        (head, body)
    }
}

impl Clone for Object {
    ghost is_clone = { λ object copy. copy ≡ object };

    fn clone(&self) -> Result<Object, AllocError> {
        let head = self.head.clone()?;
        let body = self.body.clone()?;
        Ok(Object {
            head,
            body,
            body_md5: self.body_md5,
        })
    }
}
