//! How nodes differ from what their records led to.
ghost use Rattle.std.specs.Prelude.{◌≡◌, IfOk};
ghost use Rattle.gather_command.specs.Damage.{no_damage, with_difference, with_field, with_fields};

use record_gathering::Field;
use std::alloc::{AllocError, Global};
use std::marker::Model;

/// A field of a node that differs from what its record led to.
#[derive(Clone, Copy)]
pub struct Difference {
    /// The node.
    pub node: u16,
    /// The instant of the entry that says so, in microseconds of the node's clock.
    pub instant: u64,
    /// The field.
    pub field: Field,
}

/// The most differences that are kept, so that long records take no more memory.
const MOST_SHOWN: usize = 64;

/// The first differences that were found, and how many there are.
#[derive(Drop)]
pub struct Damage {
    /// The first differences, 64 at most.
    shown: Vec<Difference>,
    count: u64,
}

impl Model for Damage {
    ghost use Rattle.std.specs.Prelude.{◌≤◌};
    ghost use Rattle.std.specs.Vec.{vec_capacity};
    ghost use Rattle.gather_command.specs.Damage.{DamageView};

    ghost Value = { DamageView };

    ghost view = { λ d. record { shown = d.shown.items; count = d.count } };

    ghost invariant = { λ d. 64 ≤ vec_capacity d.shown };
}

impl Damage {
    /// No difference is found yet. All memory is reserved here.
    pub fn new(alloc: Global) -> Result<Damage, AllocError>
        ensures { IfOk result (λ damage. damage ≡ no_damage) }
    {
        Ok(Damage {
            shown: Vec::with_capacity(alloc, MOST_SHOWN)?,
            count: 0,
        })
    }

    /// These fields of a node differ too, at an instant.
    pub fn add(&mut self, node: u16, instant: u64, fields: &[Option<Field>])
        ensures { self.new ≡ with_fields self.old node instant fields.now }
    {
        for field in fields {
            self.add_field(node, instant, *field);
        }
    }

    /// A field of a node differs too, if there is one.
    fn add_field(&mut self, node: u16, instant: u64, field: Option<Field>)
        ensures { self.new ≡ with_field node instant self.old field }
    {
        if let Some(field) = field {
            self.add_one(Difference {
                node,
                instant,
                field,
            });
        }
    }

    /// Adds a difference. Only the first 64 are kept.
    fn add_one(&mut self, difference: Difference)
        ensures { self.new ≡ with_difference self.old difference }
    {
        self.count = self.count.saturating_add(1);
        if self.shown.len() < MOST_SHOWN {
            self.shown.push_reserved(difference);
        }
    }

    /// Forgets all differences.
    pub fn begins_again(&mut self)
        ensures { self.new ≡ no_damage }
    {
        self.shown.clear();
        self.count = 0;
    }

    /// How many differences there are.
    pub fn count(&self) -> u64
        ensures { result ≡ self.now.count }
    {
        self.count
    }

    /// The first differences, 64 at most.
    pub fn shown(&self, alloc: Global) -> Result<Vec<Difference>, AllocError>
        ensures { IfOk result (λ shown. shown.items ≡ self.now.shown) }
    {
        Vec::from_slice(alloc, self.shown.as_slice())
    }
}
