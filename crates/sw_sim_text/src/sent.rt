//! The lines of messages and replies that were made.

ghost use Rattle.std.specs.Prelude.{Some};
ghost use Rattle.sw_sim_text.specs.Text.{answer_text, request_text, sent_line};

use crate::lines::Line;
use std::alloc::Global;
use std::fmt;
use sw_sim_exchange::{AnswerKind, RequestKind, SentLine};
use sw_types::{Bytes, NoMemory};

// What a message asks, as a line says it.
#[derive(Clone, Copy)]
struct RequestWords {
    kind: RequestKind,
}

impl fmt::Display for RequestWords {
    ghost output = { λ words. Some (request_text words.kind) };

    fn fmt<W: fmt::Write>(&self, f: &mut fmt::Formatter<W>) -> fmt::Result {
        match &self.kind {
            RequestKind::Put { index } => write!(f, "put {index}"),
            RequestKind::Commit { index } => write!(f, "commit {index}"),
            RequestKind::Delete => f.write_str("delete"),
            RequestKind::Ask => f.write_str("ask"),
            RequestKind::Fetch { index } => write!(f, "fetch {index}"),
            RequestKind::Remove { index } => write!(f, "remove {index}"),
        }
    }
}

// What a reply says, as a line says it.
#[derive(Clone, Copy)]
struct AnswerWords {
    kind: AnswerKind,
}

impl fmt::Display for AnswerWords {
    ghost output = { λ words. Some (answer_text words.kind) };

    fn fmt<W: fmt::Write>(&self, f: &mut fmt::Formatter<W>) -> fmt::Result {
        match &self.kind {
            AnswerKind::Synced => f.write_str("synced"),
            AnswerKind::Committed => f.write_str("committed"),
            AnswerKind::Deleted { existed: true } => f.write_str("deleted yes"),
            AnswerKind::Deleted { existed: false } => f.write_str("deleted no"),
            AnswerKind::Superseded { stamp } => write!(f, "superseded {stamp}"),
            AnswerKind::Missing => f.write_str("missing"),
            AnswerKind::Held => f.write_str("held"),
            AnswerKind::Fragment => f.write_str("fragment"),
            AnswerKind::Gone => f.write_str("gone"),
            AnswerKind::Removed => f.write_str("removed"),
            AnswerKind::Kept => f.write_str("kept"),
            AnswerKind::NoSpace { need, free } => write!(f, "no-space {need} {free}"),
            AnswerKind::Spoiled => f.write_str("spoiled"),
        }
    }
}

impl Line for SentLine {
    ghost text = { sent_line };

    fn line(&self, alloc: Global) -> Result<Bytes, NoMemory> {
        let line = match self {
            SentLine::Started { operation } => format!(in alloc; "o {operation}\n")?,
            SentLine::Request {
                message,
                operation,
                device,
                kind,
            } => {
                let words = RequestWords { kind: *kind };
                format!(in alloc; "m {message} {operation} {device} {words}\n")?
            }
            SentLine::Answered {
                message,
                operation,
                device,
                kind,
            } => {
                let words = AnswerWords { kind: *kind };
                format!(in alloc; "r {message} {operation} {device} {words}\n")?
            }
        };
        Ok(Bytes::from(line.into_bytes()))
    }
}
