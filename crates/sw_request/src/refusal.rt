//! What requests are refused for.

ghost use Rattle.std.specs.Prelude.{◌≡◌};
ghost use Rattle.sw_httpwrite.specs.Answer.{HasPhrase};
ghost use Rattle.sw_request.specs.Refusal.{refusal_of};
ghost use Rattle.sw_request.specs.Response.{is_closing, refusal_status, refusal_word};

/// What a request is refused for.
#[derive(Clone, Copy, Debug, PartialEq, Eq)]
pub enum Refusal {
    /// The bytes of the head are none by the grammar (RFC 9112, sections 2 to 5).
    BadHead,
    /// The head doesn't end within 8,192 bytes (RFC 6585, section 5).
    HeadTooLarge,
    /// A head of HTTP/1.1 has no Host field, or several (RFC 9112, section 3.2).
    BadHost,
    /// The fields don't tell where the body ends: Content-Length isn't one field of 1 to 18 digits, or Transfer-Encoding isn't
    /// one field `chunked` of HTTP/1.1, or both are there (RFC 9112, section 6.3).
    BadFraming,
    /// The method is none of DELETE, GET, HEAD and PUT (RFC 9110, section 15.5.6).
    Method,
    /// A percent sign in the path isn't followed by two hexadecimal digits (RFC 3986, section 2.1).
    BadEscape,
    /// The decoded path isn't `/v1/`, an account, `/`, a container, `/` and an object, or one of these is empty.
    NoObjectPath,
    /// A part of the name isn't UTF-8.
    NotUtf8,
    /// A part of the name has a NUL.
    Nul,
    /// The account or the container has more than 256 bytes, or the object more than 1,024.
    NameTooLong,
    /// A PUT tells no length of its body (RFC 9110, section 15.5.12).
    LengthRequired,
    /// The body has, or would have, more than 16,777,216 bytes (RFC 9110, section 15.5.14).
    TooLarge,
    /// The content type and the metadata that a PUT tells break a rule of heads of objects.
    BadMeta,
    /// A chunk line, a chunk's end or a trailer section is out of form or too long (RFC 9112, section 7.1).
    BadChunk,
    /// The ETag that a PUT tells isn't that of its body (RFC 9110, section 15.5.21).
    ETagDiffers,
}

impl Refusal {
    /// Its status code.
    pub(crate) fn status(self) -> u16
        ensures value { result ≡ refusal_status self }
        ensures phrase { HasPhrase result }
    {
        match self {
            Refusal::BadHead
            | Refusal::BadHost
            | Refusal::BadFraming
            | Refusal::NameTooLong
            | Refusal::BadMeta
            | Refusal::BadChunk => 400,
            Refusal::NoObjectPath => 404,
            Refusal::Method => 405,
            Refusal::LengthRequired => 411,
            Refusal::BadEscape | Refusal::NotUtf8 | Refusal::Nul => 412,
            Refusal::TooLarge => 413,
            Refusal::ETagDiffers => 422,
            Refusal::HeadTooLarge => 431,
        }
    }

    /// Its name.
    pub(crate) fn word(self) -> &'static str
        ensures { result.now ≡ refusal_word self }
    {
        match self {
            Refusal::BadHead => "BadHead",
            Refusal::HeadTooLarge => "HeadTooLarge",
            Refusal::BadHost => "BadHost",
            Refusal::BadFraming => "BadFraming",
            Refusal::Method => "Method",
            Refusal::BadEscape => "BadEscape",
            Refusal::NoObjectPath => "NoObjectPath",
            Refusal::NotUtf8 => "NotUtf8",
            Refusal::Nul => "Nul",
            Refusal::NameTooLong => "NameTooLong",
            Refusal::LengthRequired => "LengthRequired",
            Refusal::TooLarge => "TooLarge",
            Refusal::BadMeta => "BadMeta",
            Refusal::BadChunk => "BadChunk",
            Refusal::ETagDiffers => "ETagDiffers",
        }
    }

    /// Whether the connection is closed behind the answer, since what the client may still send stays unread.
    pub(crate) fn is_closing(self) -> bool
        ensures { result ≡ is_closing self }
    {
        self != Refusal::ETagDiffers
    }
}

/// What is refused before there is a head, or before there is a body.
#[derive(Clone, Copy, Debug, PartialEq, Eq)]
pub enum BadInput {
    BadHead,
    HeadTooLarge,
    BadChunk,
    /// A chunked body of more than 16,777,216 bytes.
    TooLarge,
}

impl From<BadInput> for Refusal {
    ghost from_gives = { λ input refusal. refusal ≡ refusal_of input };

    fn from(input: BadInput) -> Refusal {
        match input {
            BadInput::BadHead => Refusal::BadHead,
            BadInput::HeadTooLarge => Refusal::HeadTooLarge,
            BadInput::BadChunk => Refusal::BadChunk,
            BadInput::TooLarge => Refusal::TooLarge,
        }
    }
}
