//! The host of a node.

ghost use Rattle.std.specs.Prelude.{◌≡◌, false, ◌&&◌, IfOk};
ghost use Rattle.sheep_node.specs.MayTests.{meets};
ghost use Rattle.sheep_node.specs.Step.{node_step};
ghost use Rattle.sheep_world.specs.World.{is_host_up};
ghost use Rattle.sheep_world.specs.Opening.{initial_host};
ghost use Rattle.sheep_world.specs.MembershipChanges.{lost_host, revived_host};

use object_id::NoMemory;
use sheep_node::{Input, Node, Outputs, conditions_are_tests};
use std::marker::Model;

/// A node of the cluster: the node, whether it is lost, and which of its incarnations it is in, from 1 on. Contracts see the record
/// `Host` of `specs/World.antt`; the node is never spent: a step that is out of memory takes its host with it.
pub(crate) struct Host {
    node: Node,
    is_lost: bool,
    incarnation: u32,
}

/// Written out, so that letting one go is one call wherever it is done, and no cases there.
impl Drop for Host {
    fn drop(self) {
        let Host {
            node,
            is_lost: _,
            incarnation: _,
        } = self;
        drop(node);
    }
}

impl Model for Host {
    ghost use Rattle.std.specs.Prelude.{◌≡◌, false, List};
    ghost use Rattle.std.specs.Coded.{codes, coded_ℕ};
    ghost use Rattle.std.specs.FinMap as tree;
    ghost use Rattle.std.specs.FinSet as set;
    ghost use Rattle.std.specs.Ordering.{nat_cmp};
    ghost use Rattle.object_store.specs.Store.{SeenRow};
    ghost use Rattle.gateway.specs.State.{Work};
    ghost use Rattle.sheep_node.specs.declared.course.Request.{Request};
    ghost use Rattle.sheep_node.specs.declared.session.Session.{Session};
    ghost use Rattle.sheep_world.specs.World.{Host};

    ghost Value = { Host };

    ghost coded = { Prim.hlevel (
      codes,
      tree.code {X = List SeenRow} {R = nat_cmp} coded_ℕ (Prim.hlevel codes),
      tree.code {X = Work} {R = nat_cmp} coded_ℕ (Prim.hlevel codes),
      set.code {R = nat_cmp} coded_ℕ,
      tree.code {X = Session} {R = nat_cmp} coded_ℕ (Prim.hlevel codes),
      tree.code {X = Request} {R = nat_cmp} coded_ℕ (Prim.hlevel codes),
    ) };

    ghost view = { λ host. record { node = host.node.node; is_lost = host.is_lost; incarnation = host.incarnation } };

    ghost invariant = { λ host. host.node.spent ≡ false };
}

impl Host {
    /// The host of a node in its first incarnation. Takes no memory.
    pub fn new(node: Node) -> Host
        requires { node.spent ≡ false }
        ensures { result ≡ initial_host node.node }
    {
        Host {
            node,
            is_lost: false,
            incarnation: 1,
        }
    }

    pub fn node(&self) -> &Node
        ensures { result.now ≡ record { spent = false; node = self.now.node } }
    {
        &self.node
    }

    pub fn is_lost(&self) -> bool
        ensures { result ≡ self.now.is_lost }
    {
        self.is_lost
    }

    pub fn incarnation(&self) -> u32
        ensures { result ≡ self.now.incarnation }
    {
        self.incarnation
    }

    /// Whether the node is up: it isn't lost, and has numbers left for the sends of a step.
    pub fn is_up(&self) -> bool
        ensures { result ≡ is_host_up self.now }
    {
        !self.is_lost && self.node.has_numbers()
    }

    /// Whether the node is up, and an input meets its condition there.
    pub fn may(&self, input: &Input) -> bool
        ensures { result ≡ (is_host_up self.now && meets input.now self.now.node) }
    {
        self.is_up() && self.node().may(input)
    }

    /// The node is lost.
    pub fn lose(self) -> Host
        ensures { result ≡ lost_host self }
    {
        let Host {
            node,
            is_lost: _,
            incarnation,
        } = self;
        Host {
            node,
            is_lost: true,
            incarnation,
        }
    }

    /// The lost node begins its next incarnation. A count that doesn't fit is told as want of memory: a script hasn't so many lines.
    pub fn revive(self) -> Result<Host, NoMemory>
        ensures { IfOk result (λ host. host ≡ revived_host self) }
    {
        let Host {
            node,
            is_lost: _,
            incarnation,
        } = self;
        let Some(incarnation) = incarnation.checked_add(1) else {
            return Err(NoMemory);
        };
        Ok(Host {
            node,
            is_lost: false,
            incarnation,
        })
    }

    /// The node steps on an input. An input on which it may not step is told as want of memory: in the worlds that a script reaches
    /// there is none.
    pub fn step(self, input: Input) -> Result<(Host, Outputs), NoMemory>
        ensures host { IfOk result (λ made. made.0 ≡ record self { node = (node_step input self.node).node }) }
        ensures outputs { IfOk result (λ made. made.1 ≡ (node_step input self.node).outputs) }
    {
        let Host {
            mut node,
            is_lost,
            incarnation,
        } = self;
        if !node.may(&input) {
            return Err(NoMemory);
        }
        // The test is the condition of a step.
        conditions_are_tests();
        let outputs = node.step(input)?;
        let host = Host {
            node,
            is_lost,
            incarnation,
        };
        Ok((host, outputs))
    }
}
