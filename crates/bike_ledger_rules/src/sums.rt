//! Sums by number.

ghost use Rattle.std.specs.Prelude.{◌≡◌, ℤ, pos, ◌+ℤ◌, List, replicate, FitsSigned, IfOk, OnOk, IfErr, OnErr};
ghost use Rattle.std.specs.Int.{w64};
ghost use Rattle.bike_schema.specs.declared.fault.StatementFault.TheVariants.{StoreFailed};
ghost use Rattle.bike_ledger_rules.specs.Sums.{sum_at, with_added};

use bike_schema::StatementFault;
use std::alloc::{AllocError, Global};
use std::marker::Model;

/// A sum for each number below a length, in hundredths or as a count.
#[derive(Debug, Drop)]
pub(crate) struct NumberedSums {
    sums: Vec<i64>,
}

impl Model for NumberedSums {
    ghost Value = { List ℤ };

    ghost view = { λ s. s.sums.items };
}

impl NumberedSums {
    /// So many sums of nothing. It is an error where memory is refused.
    pub(crate) fn zeros(alloc: Global, length: usize) -> Result<NumberedSums, AllocError>
        ensures { IfOk result (λ sums. sums ≡ replicate length (pos 0)) }
    {
        Ok(NumberedSums {
            sums: vec![in alloc; 0; length]?,
        })
    }

    /// The sum of the number, and 0 beyond the end.
    pub(crate) fn at(&self, number: usize) -> i64
        ensures { result ≡ sum_at self.now number }
    {
        match self.sums.get(number) {
            Some(sum) => *sum,
            None => 0,
        }
    }

    /// Adds the amount to the number's sum; beyond the end it changes nothing. `StoreFailed` where the sum passes 64
    /// bits; the sums are then as they were.
    pub(crate) fn add(&mut self, number: usize, amount: i64) -> Result<(), StatementFault>
        ensures added { OnOk result (self.new ≡ with_added self.old number amount) }
        ensures fault { IfErr result (λ fault. fault ≡ StoreFailed) }
        ensures beyond { OnErr result (¬ FitsSigned w64 (sum_at self.old number +ℤ amount)) }
        ensures same { OnErr result (self.new ≡ self.old) }
    {
        let Some(sum) = self.sums.get_mut(number) else {
            return Ok(());
        };
        *sum = sum.checked_add(amount).ok_or(StatementFault::StoreFailed)?;
        Ok(())
    }
}
