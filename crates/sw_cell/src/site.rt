//! Which stamp table the locks of a cluster belong to.

use std::marker::Brand;

/// Which stamp table it is. Each call of a program picks it: of what stands behind a lock nothing is known but what its type says.
pub trait Site {
    ghost use Rattle.atomic_table.specs.Seated.{TableId};

    ghost table: { TableId };
}

impl Site for Brand {
    ghost use Rattle.sw_cell.specs.Locked.{no_table};

    ghost table = { no_table };
}
