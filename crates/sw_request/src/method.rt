//! Methods of requests.

ghost use Rattle.std.specs.Prelude.{◌≡◌};
ghost use Rattle.sw_request.specs.Refusal.{is_put, method_of};
ghost use Rattle.sw_request.specs.Response.{is_head};

use sw_httpread::RequestHead;

/// What a request asks for (RFC 9110, section 9.3).
#[derive(Clone, Copy, Debug, PartialEq, Eq)]
pub enum Method {
    Delete,
    Get,
    Head,
    Put,
}

impl Method {
    /// The method of this name, whose case counts (RFC 9110, section 9.1).
    pub fn read(text: &[u8]) -> Option<Method>
        ensures { result ≡ method_of text.now }
    {
        if text == b"DELETE".as_slice() {
            Some(Method::Delete)
        } else if text == b"GET".as_slice() {
            Some(Method::Get)
        } else if text == b"HEAD".as_slice() {
            Some(Method::Head)
        } else if text == b"PUT".as_slice() {
            Some(Method::Put)
        } else {
            None
        }
    }
}

/// Whether a request puts an object.
pub(crate) fn is_put(head: &RequestHead) -> bool
    ensures { result ≡ is_put head.now }
{
    head.method() == b"PUT".as_slice()
}

/// Whether a request asks for the head of an answer alone.
pub fn is_head(head: &RequestHead) -> bool
    ensures { result ≡ is_head head.now }
{
    head.method() == b"HEAD".as_slice()
}
