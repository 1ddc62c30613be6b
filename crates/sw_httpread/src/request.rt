//! Heads of requests, as they are read.

ghost use Rattle.std.specs.Prelude.{◌≡◌};

use std::marker::Model;
use sw_types::Bytes;

/// The head of a request: its method, its target, the minor version of its HTTP/1 and its fields.
#[derive(Debug, Drop)]
pub struct RequestHead {
    pub(crate) method: Bytes,
    pub(crate) target: Bytes,
    pub(crate) minor: u8,
    pub(crate) fields: Vec<(Bytes, Bytes)>,
}

impl Model for RequestHead {
    ghost use Rattle.sw_httpread.specs.Request.{RequestHeadModel};

    ghost Value = { RequestHeadModel };

    ghost view = { λ head. record { method = head.method; target = head.target; minor = head.minor; fields = head.fields.items } };
}

impl RequestHead {
    /// The method, as it was sent.
    pub fn method(&self) -> &[u8]
        ensures { result.now ≡ self.now.method }
    {
        self.method.as_slice()
    }

    /// The target, as it was sent.
    pub fn target(&self) -> &[u8]
        ensures { result.now ≡ self.now.target }
    {
        self.target.as_slice()
    }

    /// 0 for HTTP/1.0, 1 for HTTP/1.1.
    pub fn minor(&self) -> u8
        ensures { result ≡ self.now.minor }
    {
        self.minor
    }

    /// The fields in order, each a name and a value without white space around it.
    pub fn fields(&self) -> &[(Bytes, Bytes)]
        ensures { result.now ≡ self.now.fields }
    {
        &self.fields
    }
}
