//! Requests whole.

ghost use Rattle.std.specs.Prelude.{◌≡◌, ◌↔◌, IfOk, IsTrue, Some, true};
ghost use Rattle.sw_types.specs.Object.{object_of};
ghost use Rattle.sw_request.specs.Body.{IsSound, has_other_tag};
ghost use Rattle.sw_request.specs.Fields.{AsksToClose};
ghost use Rattle.sw_request.specs.Metadata.{head_in};
ghost use Rattle.sw_request.specs.Refusal.{is_put, method_of, name_in};

use crate::closing;
use crate::fields::last_value;
use crate::metadata::{content_type_in, pairs_in};
use crate::method::{Method, is_put};
use crate::tag::is_other;
use crate::target::{decoded, parts_in, path_in};
use std::alloc::Global;
use std::marker::Model;
use sw_httpread::RequestHead;
use sw_types::{Bytes, Head, Name, NoMemory, Object};

/// A request: its head and its body.
#[derive(Debug, Drop)]
pub struct Request {
    head: RequestHead,
    body: Bytes,
}

impl Model for Request {
    ghost use Rattle.sw_request.specs.Body.{RequestModel};

    ghost Value = { RequestModel };

    ghost view = { λ request. record { head = request.head; body = request.body } };
}

impl Request {
    /// The request of a head and a body.
    pub fn new(head: RequestHead, body: Bytes) -> Request
        ensures { result ≡ record { head = head; body = body } }
    {
        Request { head, body }
    }

    /// The head.
    pub fn head(&self) -> &RequestHead
        ensures { result.now ≡ self.now.head }
    {
        &self.head
    }

    /// The body.
    pub fn body(&self) -> &[u8]
        ensures { result.now ≡ self.now.body }
    {
        self.body.as_slice()
    }

    /// What it asks for.
    pub fn method(&self) -> Method
        requires { IsSound self.now }
        ensures { method_of self.now.head.method ≡ Some result }
    {
        match Method::read(self.head.method()) {
            Some(method) => method,
            None => unreachable!(),
        }
    }

    /// The name of the object that it speaks of.
    pub fn name(&self, alloc: Global) -> Result<Name, NoMemory>
        requires { IsSound self.now }
        ensures { IfOk result (λ name. name_in self.now.head ≡ Some name) }
    {
        let path = decoded(alloc, path_in(self.head.target()))?;
        match parts_in(path.as_slice()) {
            Some(parts) => Name::make(alloc, parts.account, parts.container, parts.object).map_err(
                |_| NoMemory,
            ),
            None => unreachable!(),
        }
    }

    /// The object that a PUT puts. The body is copied.
    pub fn object(&self, alloc: Global) -> Result<Object, NoMemory>
        requires sound { IsSound self.now }
        requires put { is_put self.now.head ≡ true }
        ensures { IfOk result (λ object. object ≡ object_of (head_in self.now.head.fields) self.now.body) }
    {
        let fields = self.head.fields();
        let content_type = Bytes::from_slice(alloc, content_type_in(fields))?;
        let head = Head::from_parts(content_type, pairs_in(alloc, fields)?);
        match Object::make(head, self.body.clone()?) {
            Ok(object) => Ok(object),
            Err(_) => unreachable!(),
        }
    }

    /// Whether it is a PUT that tells an ETag, the last one, that isn't the MD5 of its body. It takes no memory.
    pub fn has_other_tag(&self) -> bool
        ensures { result ≡ has_other_tag self.now }
    {
        if !is_put(&self.head) {
            return false;
        }
        match last_value(b"etag", self.head.fields()) {
            Some(value) => is_other(self.body.as_slice(), value),
            None => false,
        }
    }

    /// Whether the connection ends behind it (RFC 9112, section 9.6).
    pub fn asks_to_close(&self) -> bool
        ensures { IsTrue result ↔ AsksToClose self.now.head }
    {
        closing::asks_to_close(&self.head)
    }
}
