//! The cell of published counts, who publishes them, and the passes of those who load them.
ghost use Rattle.std.specs.Prelude.{◌≡◌, [], ◌∷◌, List, IfOk};
ghost use Rattle.moka_guards.specs.Counts.{CountPass as PassValue, Publisher as PublisherValue};
ghost use Rattle.moka_guards.specs.Log.{IsChain, IsSuffix, number_after};
ghost use Rattle.moka_sync_model.specs.Published.{opening};

use crate::in_memory::InMemory;
use crate::published_rule::{Growing, Known, Publishes, Sees, Tells};
use crossbeam_utils::atomic::seq_cell::{Pass, RuledSeqCell};
use moka_sync_model::published::Published;
use std::alloc::{AllocError, Allocator, Global};
use std::marker::Model;
use std::sync::{Arc, Wait};

/// The cell with the newest counts.
type Cell<A> = RuledSeqCell<Published, Known, Growing, 3, A>;

/// The counts, for all who load them. Its clones are the same counts.
pub struct Counts<A: Allocator + Drop = Global> {
    cell: Arc<Cell<A>, A>,
    size: InMemory<Cell<A>>,
}

// By hand, and not derived: the end of a cell asks for its size too.
impl<A: Allocator + Drop> Drop for Counts<A> {
    fn drop(self) {
        let Counts { cell, size } = self;
        size.tell();
        drop(cell);
    }
}

impl<A: Allocator + Drop> Model for Counts<A> {
    ghost use Rattle.atomic_table.specs.Seated.{TableId};
    ghost use Rattle.std.specs.Arc.{arc_value};

    ghost Value = { TableId };

    ghost view = { λ c. (arc_value c.cell).table.shared.table_id };
}

/// The view of one who loads counts.
#[derive(Drop)]
pub struct CountPass {
    pass: Pass<Published, Known>,
}

impl Model for CountPass {
    ghost use Rattle.crossbeam_utils.specs.Seq.{cell_view};
    ghost use Rattle.moka_guards.specs.Counts.{CountPass as PassValue};

    ghost Value = { PassValue };

    ghost view = { λ p. record { counts = p.pass.table_id; seen = (cell_view p.pass).seen } };
}

/// The one who publishes.
pub struct Publisher<A: Allocator + Drop = Global> {
    cell: Arc<Cell<A>, A>,
    size: InMemory<Cell<A>>,
    pass: Pass<Published, Known>,
}

// By hand, as that of the counts.
impl<A: Allocator + Drop> Drop for Publisher<A> {
    fn drop(self) {
        let Publisher {
            cell,
            size,
            pass: _,
        } = self;
        size.tell();
        drop(cell);
    }
}

impl<A: Allocator + Drop> Model for Publisher<A> {
    ghost use Rattle.std.specs.Prelude.{◌≡◌, true};
    ghost use Rattle.std.specs.Arc.{arc_value};
    ghost use Rattle.crossbeam_utils.specs.Seq.{cell_view};
    ghost use Rattle.moka_guards.specs.Counts.{Publisher as PublisherValue};

    ghost Value = { PublisherValue };

    ghost view = { λ p. record { counts = (arc_value p.cell).table.shared.table_id; published = (cell_view p.pass).seen } };

    ghost invariant = { λ p. (p.pass.table_id ≡ (arc_value p.cell).table.shared.table_id) × ((cell_view p.pass).publishes ≡ true) };
}

impl<A: Allocator + Clone + Drop> Publisher<A> {
    /// Makes a publisher of counts, with nothing published but the opening ones.
    pub fn new(alloc: &A) -> Result<Self, AllocError>
        ensures { IfOk result (λ publisher. publisher.published ≡ opening ∷ []) }
    {
        let size = InMemory::<Cell<A>>::new()?;
        let (cell, pass) = Cell::ruled(alloc.clone()?, Published::opening())?;
        let Ok(cell) = Arc::new(alloc.clone()?, cell) else {
            return Err(AllocError);
        };
        Ok(Publisher { cell, size, pass })
    }
}

impl<A: Allocator + Drop> Publisher<A> {
    /// Returns the counts, for others to load.
    pub fn counts(&self) -> Result<Counts<A>, AllocError>
        ensures { IfOk result (λ counts. counts ≡ self.now.counts) }
    {
        Ok(Counts {
            cell: Arc::try_clone(&self.cell)?,
            size: self.size.again(),
        })
    }

    /// Returns a pass that has seen all that was published.
    pub fn pass(&mut self) -> CountPass
        ensures publisher { self.new ≡ self.old }
        ensures pass { result ≡ record { counts = self.old.counts; seen = self.old.published } }
    {
        self.size.tell();
        CountPass {
            pass: self.cell.split_pass::<Tells>(&mut self.pass),
        }
    }

    /// Publishes the next counts. Their number must be one more, at most `u64::MAX`.
    pub fn publish<R: Wait>(&mut self, rt: &R, next: Published)
        requires { next.number ≡ number_after self.old.published }
        ensures { self.new ≡ record self.old { published = next ∷ self.old.published } }
    {
        self.size.tell();
        self.cell.swap_as::<Publishes, R>(rt, &mut self.pass, next);
    }
}

impl<A: Allocator + Drop> Counts<A> {
    /// Loads the newest counts, which the pass has then seen. They are no older than what it had seen.
    pub fn load<R: Wait>(&self, rt: &R, pass: &mut CountPass) -> Published
        requires { pass.old.counts ≡ self.now }
        ensures counts { pass.new.counts ≡ pass.old.counts }
        ensures newest { (older : List _) × (pass.new.seen ≡ result ∷ older) }
        ensures seen { IsSuffix pass.old.seen pass.new.seen }

        // It is numbered, from the opening counts on.
        ensures chain { IsChain pass.new.seen }
    {
        self.size.tell();
        self.cell.load_as::<Sees, R>(rt, &mut pass.pass)
    }

    /// Returns one more pass, which has seen what this one has.
    pub fn split(&self, pass: &mut CountPass) -> CountPass
        requires { pass.old.counts ≡ self.now }
        ensures { (pass.new ≡ pass.old) × (result ≡ pass.old) }
    {
        self.size.tell();
        CountPass {
            pass: self.cell.split_pass::<Tells>(&mut pass.pass),
        }
    }
}
