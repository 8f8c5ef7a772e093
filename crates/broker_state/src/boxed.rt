//! A snapshot that is being made, in memory of its own.
ghost use Rattle.std.specs.Prelude.{◌≡◌, IfOk};

use geo_base::Memory;
use replicated_subs::SnapshotBuilder;
use std::alloc::Global;
use std::boxed::Box;
use std::marker::Model;

/// A snapshot that is being made, in memory of its own, so that a change is not as large as the largest of all. It is the snapshot.
#[derive(Drop)]
pub struct BoxedBuilder {
    builder: Box<SnapshotBuilder>,
}

impl Model for BoxedBuilder {
    ghost use Rattle.geo_base.specs.declared.snapshot.SnapshotBuilder.{SnapshotBuilder};

    ghost Value = { SnapshotBuilder };

    ghost view = { λ b. b.builder.value };
}

impl BoxedBuilder {
    /// A snapshot in memory of its own; an `Err` is want of it.
    pub fn new(alloc: Global, builder: SnapshotBuilder) -> Result<BoxedBuilder, Memory>
        ensures { IfOk result (λ b. b ≡ builder) }
    {
        let builder = Box::new(alloc, builder)?;
        Ok(BoxedBuilder { builder })
    }

    /// The snapshot itself; gives the memory back.
    pub fn into_inner(self) -> SnapshotBuilder
        ensures { result ≡ self }
    {
        Box::into_inner(self.builder)
    }
}
