//! Commands.

/// A command of the program.
#[derive(Clone, Copy, Debug, PartialEq, Eq)]
pub enum Command {
    /// `play`: the input is a ring and a script, which is done over nodes in memory.
    Play,
    /// `serve PORT WORKERS`: the input is a ring, over whose devices' disks connections are served that come to the port.
    Serve { port: u16, workers: u16 },
    /// `load N`: the input is a ring, over whose devices' nodes in memory a workload of so many steps runs.
    Load { steps: u32 },
}
