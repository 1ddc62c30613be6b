//! Draws of stamps.

ghost use Rattle.std.specs.Prelude.{◌≡◌, ◌≤◌, ℕ, IfOk, IfSome, None, OnErr, OnOk, Option, Result, option_copied};
ghost use Rattle.sw_words.specs.Counts.{Rose};
ghost use Rattle.sw_types.specs.Name.{NameModel, name_fault};
ghost use Rattle.sw_types.specs.Object.{IsObject, ObjectModel};
ghost use Rattle.sw_message.specs.Running.{Draws, StillTells};
ghost use Rattle.sw_message.specs.declared.draw.DrawFault.{DrawFault as AFault};

use crate::link::Link;
use sw_types::{Name, Object, Stamp};
use thiserror::Error;

/// Why no stamp was drawn.
#[derive(Clone, Copy, Debug, PartialEq, Eq, Error)]
pub enum DrawFault {
    /// The last stamp was drawn before.
    #[error("stamps spent")]
    StampsSpent,
}

/// A link that draws the stamps of puts and deletes.
pub trait Draw: Link {
    /// What a draw for a put of an object, or for a delete where there is none, may answer, and leave.
    ghost draws: { Self → NameModel → Option ObjectModel → Result ℕ AFault → Self → Type 0 };

    /// How many draws were refused.
    ghost refusals: { Self → ℕ };

    /// Draws the stamp of a put of an object, or of a delete where there is none. It answers no want of memory. Where the link tells still, it has
    /// learnt of the put or the delete.
    fn draw(&mut self, name: &Name, object: Option<&Object>) -> Result<Stamp, DrawFault>
        requires name { name_fault name.now ≡ None }
        requires object { IfSome (option_copied object) IsObject }
        ensures draws { draws self.old name.now (option_copied object.entry) result self.new }
        ensures tells { StillTells (Self.may_be_silent self.new) (Self.learnt self.old) (Self.learnt self.new) }
        ensures silence { Self.may_be_silent self.old → Self.may_be_silent self.new }
        ensures learns { IfOk result (Draws (Self.learnt self.new) name.now (option_copied object.entry)) }
        ensures cluster { Self.cluster self.new ≡ Self.cluster self.old }
        ensures losses { Self.losses self.new ≡ Self.losses self.old }
        ensures never_falls { refusals self.old ≤ refusals self.new }
        ensures spent { OnErr result (Rose (refusals self.old) (refusals self.new)) }
        ensures quiet { OnOk result (refusals self.new ≡ refusals self.old) };
}
