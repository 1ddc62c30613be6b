//! What a step adds to what its seat knows, named to the contracts alone.

use std::marker::Brand;

/// What happened to a device.
pub trait Happening {
    ghost use Rattle.sw_view.specs.declared.event.Event.{Event};

    ghost event: { Event };
}

impl Happening for Brand {
    ghost use Rattle.sw_view.specs.declared.event.Event.TheVariants.{Mounted};

    ghost event = { Mounted };
}

/// For what a stamp is drawn: a put of this name and object, or a delete of this name.
pub trait Cause {
    ghost use Rattle.std.specs.Prelude.{Option};
    ghost use Rattle.sw_types.specs.Name.{NameModel};
    ghost use Rattle.sw_types.specs.Object.{ObjectModel};

    ghost name: { NameModel };

    ghost object: { Option ObjectModel };
}

impl Cause for Brand {
    ghost use Rattle.std.specs.Prelude.{[], None};

    ghost name = { record { account = []; container = []; object = [] } };

    ghost object = { None };
}

/// How many passes one may be split into that comes of another.
pub trait Share {
    ghost use Rattle.std.specs.Prelude.{ℕ};

    ghost passes: { ℕ };
}

impl Share for Brand {
    ghost passes = { 0 };
}
