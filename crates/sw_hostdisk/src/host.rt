//! What a disk of the host stands on.

use std::fs::File;
use std::rt::Files;

/// The host's files, as the program's runtime gives them.
pub trait Host: Files<File = File> + AllocGlobal + Clone + Drop {}

impl<R: Files<File = File> + AllocGlobal + Clone + Drop> Host for R {}
