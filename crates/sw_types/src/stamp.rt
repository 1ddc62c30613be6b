//! Timestamps.

ghost use Rattle.std.specs.Prelude.{◌≡◌, ◌≤◌, ℕ, IfSome, Some, SomeIff};
ghost use Rattle.sw_types.specs.Stamp.{greatest_stamp, stamp_text};

use crate::decimal::{read_digits, write_digits};
use std::fmt;
use std::marker::Model;

/// A timestamp: a number of units of 10 microseconds, from 0 to 999,999,999,999,999.
///
/// It is printed as ten digits of seconds, a point and five digits, as `1000000000.00000`.
#[derive(Clone, Copy, Debug, PartialEq, Eq, PartialOrd, Ord)]
pub struct Stamp {
    units: u64,
}

impl Model for Stamp {
    ghost Value = { ℕ };

    ghost view = { λ stamp. stamp.units };

    ghost invariant = { λ stamp. stamp.units ≤ greatest_stamp };

    ghost inverse = { λ units. record { units = units } };
}

impl Stamp {
    /// The greatest number of units.
    pub const GREATEST_UNITS: u64 = 999_999_999_999_999;

    /// The timestamp of so many units, or `None` where there are too many.
    pub fn make(units: u64) -> Option<Stamp>
        ensures { SomeIff result (units ≤ greatest_stamp) units }
    {
        if units <= Stamp::GREATEST_UNITS {
            Some(Stamp { units })
        } else {
            None
        }
    }

    /// How many units of 10 microseconds it has.
    pub fn units(self) -> u64
        ensures value { result ≡ self }
        ensures bound { result ≤ greatest_stamp }
    {
        self.units
    }

    /// Its text.
    pub fn print(self) -> [u8; 16]
        ensures { result ≡ stamp_text self }
    {
        let mut text = [b'.'; 16];
        write_digits(&mut text[..10], self.units / 100_000);
        write_digits(&mut text[11..], self.units % 100_000);
        text
    }

    /// The timestamp whose text this is, if it is one: exactly what `print` gives is read, and gives the timestamp back.
    pub fn read(text: &[u8]) -> Option<Stamp>
        ensures found { IfSome result (λ stamp. text.now ≡ stamp_text stamp) }
        ensures reads { (stamp : ℕ) → stamp ≤ greatest_stamp → text.now ≡ stamp_text stamp → result ≡ Some stamp }
    {
        if text.len() != 16 || text[10] != b'.' {
            return None;
        }
        let seconds = read_digits(&text[..10])?;
        let fraction = read_digits(&text[11..16])?;
        Stamp::make(seconds * 100_000 + fraction)
    }
}

impl fmt::Display for Stamp {
    ghost output = { λ stamp. Some (stamp_text stamp) };

    fn fmt<W: fmt::Write>(&self, f: &mut fmt::Formatter<W>) -> fmt::Result {
        let text = self.print();
        match str::from_utf8(&text) {
            Ok(text) => f.write_str(text),
            Err(_) => Err(fmt::Error),
        }
    }
}
