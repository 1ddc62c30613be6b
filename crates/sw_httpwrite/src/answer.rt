//! Answers to requests.

ghost use Rattle.std.specs.Prelude.{◌≡◌, true};
ghost use Rattle.sw_httpwrite.specs.Answer.{AreInLines, HasPhrase};

use http::StatusCode;
use std::marker::Model;
use sw_types::Bytes;

/// What a response says: a status that has a phrase, fields, a body, and whether the connection is closed behind it.
#[derive(Debug, Drop)]
pub struct Answer {
    pub(crate) status: StatusCode,
    pub(crate) fields: Vec<(Bytes, Bytes)>,
    pub(crate) body: Bytes,
    pub(crate) close: bool,
}

impl Model for Answer {
    ghost use Rattle.sw_httpwrite.specs.Answer.{AnswerModel, AreInLines, HasPhrase};

    ghost Value = { AnswerModel };

    ghost view = { λ answer. record { status = answer.status; fields = answer.fields.items; body = answer.body; close = answer.close } };

    ghost invariant = { λ answer. HasPhrase answer.status × AreInLines answer.fields.items };
}

impl Answer {
    /// An answer of these fields, each a name and a value, without the one that says that the connection is closed. It
    /// takes no memory.
    pub fn new(status: u16, fields: Vec<(Bytes, Bytes)>, body: Bytes, close: bool) -> Answer
        requires phrase { HasPhrase status }
        requires lines { AreInLines fields.items }
        ensures { result ≡ record { status = status; fields = fields.items; body = body; close = close } }
    {
        Answer {
            status: StatusCode::from_u16(status).unwrap(),
            fields,
            body,
            close,
        }
    }

    /// The status code.
    pub fn status(&self) -> u16
        ensures value { result ≡ self.now.status }
        ensures phrase { HasPhrase result }
    {
        self.status.as_u16()
    }

    /// The fields in order, each a name and a value.
    pub fn fields(&self) -> &[(Bytes, Bytes)]
        ensures value { result.now ≡ self.now.fields }
        ensures lines { AreInLines result.now }
    {
        &self.fields
    }

    /// The body.
    pub fn body(&self) -> &[u8]
        ensures { result.now ≡ self.now.body }
    {
        self.body.as_slice()
    }

    /// Whether the connection is closed behind it.
    pub fn close(&self) -> bool
        ensures { result ≡ self.now.close }
    {
        self.close
    }

    /// The same answer, behind which the connection is closed.
    pub fn closing(self) -> Answer
        ensures { result ≡ record self { close = true } }
    {
        Answer {
            close: true,
            ..self
        }
    }
}
