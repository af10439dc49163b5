//! A node with its history.

ghost use Rattle.std.specs.Prelude.{◌≡◌, ◌≢◌, ◌<◌, true, false, [], ◌∷◌, Err, All, IfOk, IsOk, IsErr, OnOk, OnErr};
ghost use Rattle.sheep_node.specs.May.{May};
ghost use Rattle.live_cells.specs.declared.act_fault.ActFault.TheVariants as faults;
ghost use Rattle.live_cells.specs.Opening.{IsOpening};
ghost use Rattle.live_cells.specs.History.{Replays};
ghost use Rattle.live_cells.specs.Cell.{new_cell, opening_of, cell_after};
ghost use Rattle.sheep_node.specs.PuttableEntries.{IsPuttable};
ghost use Rattle.live_cells.specs.Brought.{takes_brought};
ghost use Rattle.live_cells.specs.Seats.{HasDrawn};

use crate::act_fault::ActFault;
use crate::carry::{Carry, draw_above, join_all};
use crate::draft::{Draft, add_step, draft_of};
use crate::step::Step;
use object_id::NoMemory;
use sheep_node::{Event, Input, Node};
use stamp_clock::{Clock, ClockName, ClockSpent, Seat};
use std::alloc::Global;
use std::marker::Model;

/// A node, and each step that it made from its opening on. A call of `act` that answers out of memory spends it; no other call does, and a
/// spent cell makes no other call. Contracts see the record `CellState` of `specs/Cell.antt`.
pub struct NodeCell {
    node: Node,
    /// Whether the opening node had read the log's first entry.
    has_read: bool,
    steps: Vec<Step>,
    spent: bool,
}

/// Written out, so that letting a cell go is one call wherever it is done.
impl Drop for NodeCell {
    fn drop(self) {
        let NodeCell {
            node,
            has_read: _,
            steps,
            spent: _,
        } = self;
        drop(node);
        drop(steps);
    }
}

impl Model for NodeCell {
    ghost use Rattle.std.specs.Prelude.{◌≡◌, false, List};
    ghost use Rattle.std.specs.Coded.{codes, coded_ℕ};
    ghost use Rattle.std.specs.FinMap as tree;
    ghost use Rattle.std.specs.FinSet as set;
    ghost use Rattle.std.specs.Ordering.{nat_cmp};
    ghost use Rattle.object_store.specs.Store.{SeenRow};
    ghost use Rattle.gateway.specs.State.{Work};
    ghost use Rattle.sheep_node.specs.declared.course.Request.{Request};
    ghost use Rattle.sheep_node.specs.declared.session.Session.{Session};
    ghost use Rattle.live_cells.specs.Cell.{CellState, IsCell};

    ghost Value = { CellState };

    ghost coded = { Prim.hlevel (
      codes,
      tree.code {X = List SeenRow} {R = nat_cmp} coded_ℕ (Prim.hlevel codes),
      tree.code {X = Work} {R = nat_cmp} coded_ℕ (Prim.hlevel codes),
      set.code {R = nat_cmp} coded_ℕ,
      tree.code {X = Session} {R = nat_cmp} coded_ℕ (Prim.hlevel codes),
      tree.code {X = Request} {R = nat_cmp} coded_ℕ (Prim.hlevel codes),
    ) };

    ghost view = { λ cell. record {
      spent = cell.spent;
      has_read = cell.has_read;
      node = cell.node.node;
      steps = cell.steps.items;
    } };

    ghost invariant = { λ cell. cell.spent ≡ false
        → (cell.node.spent ≡ false) × IsCell cell.has_read cell.node.node cell.steps.items };
}

/// No step yet, with room for a first one.
fn no_steps(alloc: Global) -> Result<Vec<Step>, NoMemory>
    ensures { IfOk result (λ steps. steps.items ≡ []) }
{
    Ok(Vec::with_capacity(alloc, 1)?)
}

impl NodeCell {
    /// The cell of a node that has made no step, or one step on the log's first entry. It has room for a first step.
    pub fn new(alloc: Global, node: Node) -> Result<NodeCell, NoMemory>
        requires live { node.spent ≡ false }
        requires opening { IsOpening node.node }
        ensures { IfOk result (λ cell. cell ≡ new_cell node.node) }
    {
        let steps = no_steps(alloc)?;
        let has_read = 0 < node.read_len();
        Ok(NodeCell {
            node,
            has_read,
            steps,
            spent: false,
        })
    }

    /// Whether a call answered that it is out of memory. Takes no memory.
    pub fn spent(&self) -> bool
        ensures { result ≡ self.now.spent }
    {
        self.spent
    }

    /// The steps, in the order in which they were made. Takes no memory.
    pub fn steps(&self) -> &[Step]
        requires { self.now.spent ≡ false }
        ensures value { result.now ≡ self.now.steps }
        // Replaying their inputs from the opening node gives the node and each step's outputs.
        ensures history { Replays (opening_of self.now) self.now.steps self.now.node }
        ensures opening { IsOpening (opening_of self.now) }
    {
        self.steps.as_slice()
    }

    /// The node as it is now. Takes no memory.
    pub fn node(&self) -> &Node
        requires { self.now.spent ≡ false }
        ensures value { result.now ≡ record { spent = false; node = self.now.node } }
        // Each entry that it has to put may stand in a log that has room for one.
        ensures puts { All IsPuttable self.now.node.outbox }
    {
        &self.node
    }

    /// Makes room for a step. Without memory the cell is spent.
    fn draft<N: ClockName>(
        &mut self,
        event: Event,
        input: Input,
        brought: &[Carry<N>],
    ) -> Result<Draft, NoMemory>
        ensures ok { OnOk result (self.new ≡ self.old) }
        ensures draft { IfOk result (λ draft.
            draft ≡ record { event = event; input = input; kept = input; used = brought.now }) }
        ensures err { OnErr result (self.new.spent ≡ true) }
    {
        match draft_of(&mut self.steps, event, input, brought) {
            Ok(draft) => Ok(draft),
            Err(NoMemory) => {
                self.spent = true;
                Err(NoMemory)
            }
        }
    }

    /// Makes the step of a draft. Without memory the cell is spent.
    fn make(&mut self, stamp: u64, draft: Draft) -> Result<(), NoMemory>
        requires live { self.old.spent ≡ false }
        requires may { May draft.input self.old.node }
        requires kept { draft.kept ≡ draft.input }
        requires above { All (λ used. used < stamp) draft.used }
        ensures step { OnOk result (self.new ≡ cell_after stamp draft.event draft.input draft.used self.old) }
        ensures opening { OnOk result (opening_of self.new ≡ opening_of self.old) }
        ensures spent { OnErr result (self.new.spent ≡ true) }
    {
        match add_step(self.has_read, &mut self.node, &mut self.steps, stamp, draft) {
            Ok(()) => Ok(()),
            Err(NoMemory) => {
                self.spent = true;
                Err(NoMemory)
            }
        }
    }

    /// Draws a stamp above all that was brought, and makes the step of a draft.
    fn act_by<N: ClockName>(
        &mut self,
        draft: Draft,
        brought: &mut Vec<Carry<N>>,
        clock: &Clock,
        seat: &mut Seat,
    ) -> Result<u64, ActFault>
        requires clock { clock.now.id ≡ N.clock }
        requires seat { seat.old.clock ≡ clock.now.id }
        requires live { self.old.spent ≡ false }
        requires may { May draft.input self.old.node }
        requires kept { draft.kept ≡ draft.input }
        requires used { draft.used ≡ brought.old.items }
        ensures step { IfOk result (λ stamp. self.new ≡ cell_after stamp draft.event draft.input draft.used self.old) }
        ensures opening { OnOk result (opening_of self.new ≡ opening_of self.old) }
        ensures above { IfOk result (λ stamp. All (λ used. used < stamp) brought.old.items) }
        ensures drawn { IfOk result (λ stamp. HasDrawn clock.now.last stamp seat.old seat.new) }
        ensures below { IfOk result (λ stamp. stamp < seat.new.seen) }
        ensures unchanged { result ≡ Err faults.ClockSpent → self.new ≡ self.old }
        ensures no_stamp { result ≡ Err faults.ClockSpent → seat.new.spent ≡ true }
        ensures spent { result ≡ Err faults.NoMemory → self.new.spent ≡ true }
        ensures empty { brought.new.items ≡ [] }
        ensures clock { seat.new.clock ≡ seat.old.clock }
    {
        match draw_above(brought, clock, seat) {
            Ok(stamp) => match self.make(stamp, draft) {
                Ok(()) => Ok(stamp),
                Err(NoMemory) => Err(ActFault::NoMemory),
            },
            Err(ClockSpent) => Err(ActFault::ClockSpent),
        }
    }

    /// Makes one step of the node, of this event and on this input, and answers its stamp. What the worker brought is joined into its seat
    /// before the stamp is drawn; what the event takes from elsewhere, a message, the mark of a loss or an entry of the log, must be among
    /// it. Costs the step, and copies of its input and of the stamps brought.
    pub fn act<N: ClockName>(
        &mut self,
        event: Event,
        input: Input,
        brought: &mut Vec<Carry<N>>,
        clock: &Clock,
        seat: &mut Seat,
    ) -> Result<u64, ActFault>
        requires clock { clock.now.id ≡ N.clock }
        requires seat { seat.old.clock ≡ clock.now.id }
        requires live { self.old.spent ≡ false }
        requires may { May input self.old.node }
        requires brought { takes_brought event ≡ true → brought.old.items ≢ [] }

        // One step more, with these outputs and the stamps that were brought.
        ensures step { IfOk result (λ stamp. self.new ≡ cell_after stamp event input brought.old.items self.old) }
        ensures opening { OnOk result (opening_of self.new ≡ opening_of self.old) }
        // The stamp is above each that was brought, and the seat drew it.
        ensures above { IfOk result (λ stamp. All (λ used. used < stamp) brought.old.items) }
        ensures drawn { IfOk result (λ stamp. HasDrawn clock.now.last stamp seat.old seat.new) }
        ensures below { IfOk result (λ stamp. stamp < seat.new.seen) }

        ensures unchanged { result ≡ Err faults.ClockSpent → self.new ≡ self.old }
        ensures no_stamp { result ≡ Err faults.ClockSpent → seat.new.spent ≡ true }
        ensures spent { result ≡ Err faults.NoMemory → self.new.spent ≡ true }

        ensures empty { brought.new.items ≡ [] }
        ensures clock { seat.new.clock ≡ seat.old.clock }
    {
        match self.draft(event, input, brought.as_slice()) {
            Ok(draft) => self.act_by(draft, brought, clock, seat),
            Err(NoMemory) => {
                join_all(brought, clock, seat);
                Err(ActFault::NoMemory)
            }
        }
    }
}
