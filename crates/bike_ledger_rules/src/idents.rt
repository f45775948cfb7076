//! Sets of identifiers.

ghost use Rattle.std.specs.Prelude.{◌≡◌, OnOk};
ghost use Rattle.std.specs.FinSet as set;

use std::alloc::{AllocError, Global};
use std::collections::HashSet;
use std::marker::Model;

/// A set of identifiers.
#[derive(Debug, Drop)]
pub(crate) struct Idents {
    alloc: Global,
    idents: HashSet<String>,
}

impl Model for Idents {
    ghost use Rattle.std.specs.Prelude.{ℕ, List, map};
    ghost use Rattle.std.specs.Ordering.{nat_cmp};
    ghost use Rattle.std.specs.Cmp.Lexicographic.{slice_cmp};
    ghost use Rattle.std.specs.Coded.{coded_ℕ, coded_list};
    ghost use Rattle.std.specs.FinSet as set;
    ghost use Rattle.std.specs.String.{string_bytes};

    ghost Value = { set.FinSet (slice_cmp nat_cmp) };

    ghost coded = { set.code (coded_list coded_ℕ) };

    ghost view = { λ s. set.from_list (map string_bytes s.idents.keys) };
}

impl Idents {
    /// No identifiers.
    pub(crate) fn new(alloc: Global) -> Idents
        ensures { result ≡ set.empty }
    {
        Idents {
            alloc,
            idents: HashSet::new(alloc),
        }
    }

    /// Whether it has the identifier.
    pub(crate) fn contains(&self, ident: &str) -> bool
        ensures { result ≡ set.contains self.now ident.now }
    {
        self.idents.contains(ident)
    }

    /// Adds the identifier. It is an error where memory is refused.
    pub(crate) fn insert(&mut self, ident: &str) -> Result<(), AllocError>
        ensures { OnOk result (self.new ≡ set.insert self.old ident.now) }
    {
        let ident = String::from_str(self.alloc, ident)?;
        self.idents.insert(ident)?;
        Ok(())
    }
}
