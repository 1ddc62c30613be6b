//! The numbers of a step.

ghost use Rattle.std.specs.Prelude.{◌≡◌};
ghost use Rattle.sw_lab.specs.Workload.{draw_behind, number_behind};

/// The three numbers of a step.
#[derive(Clone, Copy, Debug)]
pub(crate) struct Draw {
    pub(crate) kind: u32,
    pub(crate) name: u32,
    pub(crate) body: u32,
}

impl Draw {
    /// The three numbers behind another.
    pub(crate) fn behind(number: u32) -> Draw
        ensures { result ≡ draw_behind number }
    {
        let kind = number_behind(number);
        let name = number_behind(kind);
        let body = number_behind(name);
        Draw { kind, name, body }
    }
}

// The number behind another.
fn number_behind(number: u32) -> u32
    ensures { result ≡ number_behind number }
{
    (48_271 * u64::from(number) % 2_147_483_647) as u32
}
