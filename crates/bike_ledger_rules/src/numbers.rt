//! Values by number.

ghost use Rattle.std.specs.Prelude.{◌≡◌, [], OnOk};
ghost use Rattle.bike_ledger_rules.specs.Known.{value_at, with_value};

use std::alloc::{AllocError, Global};
use std::marker::Model;

/// A value, or none, of each number.
#[derive(Debug, Drop)]
pub(crate) struct ByNumber<V: Copy> {
    /// Those of the numbers below its length; beyond its end there are none.
    values: Vec<Option<V>>,
}

impl<V: Copy> Model for ByNumber<V> {
    ghost use Rattle.std.specs.Prelude.{List, Option};

    ghost Value = { List (Option V) };

    ghost view = { λ s. s.values.items };
}

impl<V: Copy> ByNumber<V> {
    /// No values.
    pub(crate) fn new(alloc: Global) -> ByNumber<V>
        ensures { result ≡ [] }
    {
        ByNumber {
            values: Vec::new(alloc),
        }
    }

    /// The value of the number, if it has one.
    pub(crate) fn at(&self, number: u32) -> Option<V>
        ensures { result ≡ value_at self.now number }
    {
        match self.values.get(number as usize) {
            Some(value) => *value,
            None => None,
        }
    }

    /// Sets the value of the number. It takes memory for all numbers up to it; it is an error where that is refused.
    pub(crate) fn set(&mut self, number: u32, value: V) -> Result<(), AllocError>
        ensures { OnOk result (self.new ≡ with_value self.old number value) }
    {
        let number = number as usize;
        if self.values.len() <= number {
            self.values.resize(number + 1, None)?;
        }
        self.values[number] = Some(value);
        Ok(())
    }
}
