//! What is known of puts, deletes and replies, as copies of them.

ghost use Rattle.std.specs.Prelude.{◌≡◌, OnErr, OnOk, option_copied};
ghost use Rattle.sw_telling.specs.Telling.{nothing_known, with_own, with_reply};

use crate::copying::{copy_message, copy_reply};
use std::alloc::Global;
use std::marker::Model;
use sw_message::{Msg, Reply};
use sw_types::{Name, NoMemory, Object, Stamp};

// A put that was started.
#[derive(Drop)]
struct Booked {
    stamp: Stamp,
    name: Name,
    object: Object,
}

impl Model for Booked {
    ghost use Rattle.sw_message.specs.Learnt as learnt;

    ghost Value = { learnt.Booked };

    ghost view = { λ booked. record { stamp = booked.stamp; name = booked.name; object = booked.object } };
}

// A delete that was started.
#[derive(Drop)]
struct Marked {
    stamp: Stamp,
    name: Name,
}

impl Model for Marked {
    ghost use Rattle.sw_message.specs.Learnt as learnt;

    ghost Value = { learnt.Marked };

    ghost view = { λ marked. record { stamp = marked.stamp; name = marked.name } };
}

// A reply, with the device that gave it and the message that it answers.
#[derive(Drop)]
struct Heard {
    device: u16,
    msg: Msg,
    reply: Reply,
}

impl Model for Heard {
    ghost use Rattle.sw_message.specs.Learnt as learnt;

    ghost Value = { learnt.Heard };

    ghost view = { λ heard. record { device = heard.device; msg = heard.msg; reply = heard.reply } };
}

/// Puts and deletes that were started, and replies that were given.
#[derive(Drop)]
pub(crate) struct Known {
    book: Vec<Booked>,
    marks: Vec<Marked>,
    heard: Vec<Heard>,
}

impl Model for Known {
    ghost use Rattle.sw_message.specs.Learnt.{Learnt};

    ghost Value = { Learnt };

    ghost view = { λ known. record { book = known.book.items; marks = known.marks.items; heard = known.heard.items } };
}

impl Known {
    /// Nothing. It takes no memory.
    pub(crate) fn new(alloc: Global) -> Known
        ensures { result ≡ nothing_known }
    {
        Known {
            book: Vec::new(alloc),
            marks: Vec::new(alloc),
            heard: Vec::new(alloc),
        }
    }

    /// Notes a put of an object, or a delete where there is none.
    pub(crate) fn note(
        &mut self,
        stamp: Stamp,
        name: &Name,
        object: Option<&Object>,
    ) -> Result<(), NoMemory>
        ensures notes { OnOk result (self.new ≡ with_own self.old stamp name.now (option_copied object.entry)) }
        ensures refused { OnErr result (self.new ≡ self.old) }
    {
        let name = name.clone()?;
        match object {
            Some(object) => {
                let object = object.clone()?;
                self.book.push(Booked {
                    stamp,
                    name,
                    object,
                })?;
            }
            None => self.marks.push(Marked { stamp, name })?,
        }
        Ok(())
    }

    /// Notes the answer to a message, if there is one.
    pub(crate) fn hear(
        &mut self,
        alloc: Global,
        device: u16,
        msg: &Msg,
        answer: Option<&Reply>,
    ) -> Result<(), NoMemory>
        ensures hears { OnOk result (self.new ≡ with_reply self.old device msg.now (option_copied answer.entry)) }
        ensures refused { OnErr result (self.new ≡ self.old) }
    {
        if let Some(reply) = answer {
            let msg = copy_message(msg)?;
            let reply = copy_reply(alloc, reply)?;
            self.heard.push(Heard { device, msg, reply })?;
        }
        Ok(())
    }
}
