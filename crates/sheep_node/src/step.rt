//! The step of a node: one clause for each input, and `Recovered` last.

ghost use Rattle.std.specs.Prelude.{◌≡◌, IfOk, IsTrue, OnOk};
ghost use Rattle.gateway.specs.State.{MaySend, gateway_awaits, fits_gateway};
ghost use Rattle.gateway.specs.Step.{gateway_on_reply, gateway_on_loss, retry_step};
ghost use Rattle.gateway.specs.Outcomes.{GivesItsBytes};
ghost use Rattle.peer_service.specs.LogReading.{decision_on};
ghost use Rattle.peer_service.specs.Serve.{peer_step, reply_to, MayServe};
ghost use Rattle.recovery.specs.Fits.{fits_recovery};
ghost use Rattle.recovery.specs.State.{MayTick, recovery_awaits};
ghost use Rattle.recovery.specs.Step.{MayStep};
ghost use Rattle.recovery.specs.Steps.{recovery_on_reply, recovery_on_loss};
ghost use Rattle.recovery.specs.Tick.{state_after_tick, tick_sends};
ghost use Rattle.sheep_node.specs.declared.input.Input.TheVariants as inputs;
ghost use Rattle.sheep_node.specs.RecoveryView.{recovery_state_of, with_state};
ghost use Rattle.sheep_node.specs.StepState.{at_first, with_node};
ghost use Rattle.sheep_node.specs.LogReading.{with_peer, entry_read};
ghost use Rattle.sheep_node.specs.KeptLog.{asker_among};
ghost use Rattle.sheep_node.specs.May.{May};
ghost use Rattle.sheep_node.specs.NodeInvariant.{IsSoundNode};
ghost use Rattle.sheep_node.specs.Waiting.{after_gateway_step};
ghost use Rattle.sheep_node.specs.Step.{on_request, on_reply, on_loss, on_put, on_recover_tick, on_retry_tick, on_input};
ghost use Rattle.sheep_node.specs.Step.{is_due, recovered_put, node_step};

use crate::input::Input;
use crate::node_rows::NodeRows;
use crate::state::NodeState;
use crate::step_state::StepState;
use gateway::Act;
use object_id::{Entry, NoMemory};
use object_store::ObjStore;
use peer_proto::{PeerReq, PeerRsp};
use recovery::RecoverSends;
use vdi_directory::Decision;

impl<O: ObjStore> NodeRows<O> {
    /// The peer serves a request.
    fn serve(&mut self, request: &PeerReq) -> Result<PeerRsp, NoMemory>
        requires { MayServe self.old.peer request.now.ask }
        ensures reply { IfOk result (λ reply. reply ≡ reply_to self.old.peer request.now) }
        ensures peer { OnOk result (self.new ≡ record self.old { peer = (peer_step self.old.peer request.now).peer }) }
    {
        self.peer.serve(request)
    }
}

impl NodeState {
    /// The peer serves a request.
    fn serve(&mut self, request: &PeerReq) -> Result<PeerRsp, NoMemory>
        requires { MayServe self.old.peer request.now.ask }
        ensures reply { IfOk result (λ reply. reply ≡ reply_to self.old.peer request.now) }
        ensures node { OnOk result (self.new ≡ with_peer (peer_step self.old.peer request.now).peer self.old) }
    {
        self.rows.serve(request)
    }

    /// A reply comes to the gateway.
    fn reply_to_gateway(&mut self, rsp: &PeerRsp) -> Result<Act, NoMemory>
        requires { IsTrue (fits_gateway rsp.now self.old.gateway) }
        ensures step { IfOk result (λ act. gateway_on_reply self.old.gateway rsp.now
            ≡ record { gateway = self.new.gateway; act = act }) }
        ensures given { IfOk result GivesItsBytes }
        ensures node { OnOk result (self.new ≡ record self.old { gateway = self.new.gateway }) }
    {
        self.gateway.on_reply(rsp)
    }

    /// A message of the gateway was lost.
    fn loss_to_gateway(&mut self, number: u32) -> Result<Act, NoMemory>
        requires { IsTrue (gateway_awaits number self.old.gateway) }
        ensures step { IfOk result (λ act. gateway_on_loss self.old.gateway number
            ≡ record { gateway = self.new.gateway; act = act }) }
        ensures given { IfOk result GivesItsBytes }
        ensures node { OnOk result (self.new ≡ record self.old { gateway = self.new.gateway }) }
    {
        self.gateway.on_lost(number)
    }

    /// The gateway tries a work again, in the node's epoch.
    fn retry(&mut self) -> Result<Act, NoMemory>
        requires { MaySend self.old.gateway self.old.epochs self.old.sends (record { 0 = self.old.peer.epoch }) }
        ensures step { IfOk result (λ act. retry_step self.old.epochs self.old.gateway self.old.sends (record { 0 = self.old.peer.epoch })
            ≡ record { gateway = self.new.gateway; act = act }) }
        ensures node { OnOk result (self.new ≡ record self.old { gateway = self.new.gateway }) }
    {
        let epoch = self.rows.peer.epoch();
        self.gateway.retry(self.sends, epoch, &self.rows.place)
    }

    /// A reply comes to the recovery.
    fn reply_to_recovery(&mut self, rsp: &PeerRsp) -> Result<(), NoMemory>
        requires fits { IsTrue (fits_recovery rsp.now (recovery_state_of self.old)) }
        requires step { MayStep (recovery_state_of self.old) }
        ensures { OnOk result (self.new ≡ with_state (recovery_on_reply rsp.now (recovery_state_of self.old)) self.old) }
    {
        self.recovery.on_reply(rsp, &mut self.rows)
    }

    /// A message of the recovery was lost.
    fn loss_to_recovery(&mut self, number: u32) -> Result<(), NoMemory>
        requires waits { IsTrue (recovery_awaits number self.old.recovery) }
        requires step { MayStep (recovery_state_of self.old) }
        ensures { OnOk result (self.new ≡ with_state (recovery_on_loss number (recovery_state_of self.old)) self.old) }
    {
        self.recovery.on_lost(number, &mut self.rows)
    }

    /// The recovery ticks.
    fn tick(&mut self) -> Result<RecoverSends, NoMemory>
        requires may { MayTick self.old.sends (recovery_state_of self.old) }
        requires step { MayStep (recovery_state_of self.old) }
        ensures sends { IfOk result (λ sends. sends.list ≡ tick_sends self.old.sends (recovery_state_of self.old)) }
        ensures node { OnOk result (self.new ≡ with_state (state_after_tick self.old.sends (recovery_state_of self.old)) self.old) }
    {
        self.recovery.tick(self.sends, &mut self.rows)
    }

    /// Whether the recovery is finished, and its `Recovered` wasn't put.
    fn is_due(&self) -> bool
        ensures { result ≡ is_due self.now }
    {
        self.recovery.finished(&self.rows) && !self.recovered
    }
}

impl StepState {
    /// Another node's request is served.
    pub fn on_request(&mut self, request: &PeerReq) -> Result<(), NoMemory>
        requires { MayServe self.old.node.peer request.now.ask }
        ensures { OnOk result (self.new ≡ on_request request.now self.old) }
    {
        self.say = Some(self.node.serve(request)?);
        Ok(())
    }

    /// A reply comes to the gateway, and a request may go on by it.
    fn reply_awaited(&mut self, rsp: &PeerRsp) -> Result<(), NoMemory>
        requires start { self.old ≡ at_first self.old.node }
        requires may { May (inputs.Reply rsp.now) self.old.node }
        requires sound { IsSoundNode self.old.node }
        requires waits { IsTrue (gateway_awaits rsp.now.number self.old.node.gateway) }
        ensures { OnOk result (self.new ≡ after_gateway_step (gateway_on_reply self.old.node.gateway rsp.now) self.old) }
    {
        let act = self.node.reply_to_gateway(rsp)?;
        self.after_act(act)
    }

    /// A reply goes to what waits for its number: the gateway, or else the recovery.
    #[tactic(auto, unfolding(crate::specs::Step::on_reply))]
    pub fn on_reply(&mut self, rsp: &PeerRsp) -> Result<(), NoMemory>
        requires start { self.old ≡ at_first self.old.node }
        requires may { May (inputs.Reply rsp.now) self.old.node }
        requires sound { IsSoundNode self.old.node }
        ensures { OnOk result (self.new ≡ on_reply rsp.now self.old) }
    {
        if self.node.gateway.waits_for(rsp.number) {
            self.reply_awaited(rsp)
        } else {
            self.node.reply_to_recovery(rsp)
        }
    }

    /// A message of the gateway was lost, and a request may go on by that.
    fn loss_awaited(&mut self, number: u32) -> Result<(), NoMemory>
        requires start { self.old ≡ at_first self.old.node }
        requires may { May (inputs.Lost number) self.old.node }
        requires sound { IsSoundNode self.old.node }
        requires waits { IsTrue (gateway_awaits number self.old.node.gateway) }
        ensures { OnOk result (self.new ≡ after_gateway_step (gateway_on_loss self.old.node.gateway number) self.old) }
    {
        let act = self.node.loss_to_gateway(number)?;
        self.after_act(act)
    }

    /// A loss goes there too.
    #[tactic(auto, unfolding(crate::specs::Step::on_loss))]
    pub fn on_loss(&mut self, number: u32) -> Result<(), NoMemory>
        requires start { self.old ≡ at_first self.old.node }
        requires may { May (inputs.Lost number) self.old.node }
        requires sound { IsSoundNode self.old.node }
        ensures { OnOk result (self.new ≡ on_loss number self.old) }
    {
        if self.node.gateway.waits_for(number) {
            self.loss_awaited(number)
        } else {
            self.node.loss_to_recovery(number)
        }
    }

    /// The request that waits for an entry. Costs what [`crate::requests::Requests::find_by_entry`] does.
    pub fn asker(&self, entry: &Entry) -> Option<u32>
        ensures { result ≡ asker_among entry.now self.now.node.requests }
    {
        self.node.requests.find_by_entry(entry)
    }

    /// The next entry of the log is read, and decided by the entries before it.
    pub fn read_entry(&mut self, entry: &Entry) -> Result<Decision, NoMemory>
        requires may { May (inputs.LogEntry entry.now) self.old.node }
        requires sound { IsSoundNode self.old.node }
        ensures decision { IfOk result (λ decision. decision ≡ decision_on entry.now self.old.node.peer) }
        ensures step { OnOk result (self.new ≡ with_node (entry_read entry.now self.old.node) self.old) }
    {
        self.node.read(entry)
    }

    /// The first entry of the outbox goes into the log.
    pub fn on_put(&mut self)
        requires { self.old ≡ at_first self.old.node }
        ensures { self.new ≡ on_put self.old.node.outbox self.old }
    {
        self.put = self.node.outbox.pop_front();
    }

    /// A tick of the recovery sends its messages.
    pub fn on_recover_tick(&mut self) -> Result<(), NoMemory>
        requires may { May inputs.RecoverTick self.old.node }
        requires sound { IsSoundNode self.old.node }
        ensures { OnOk result (self.new ≡ on_recover_tick self.old) }
    {
        let sends = self.node.tick()?;
        self.send(sends.list)
    }

    /// Of the works that wait for their next attempt that of the smallest request is tried again.
    pub fn on_retry_tick(&mut self) -> Result<(), NoMemory>
        requires start { self.old ≡ at_first self.old.node }
        requires may { May inputs.RetryTick self.old.node }
        requires sound { IsSoundNode self.old.node }
        ensures { OnOk result (self.new ≡ on_retry_tick self.old) }
    {
        let act = self.node.retry()?;
        self.after_act(act)
    }

    /// A lost node comes back, and has read all these entries.
    #[tactic(auto, unfolding(crate::specs::Step::on_input))]
    pub fn on_back(&mut self, entries: &[Entry]) -> Result<(), NoMemory>
        requires may { May (inputs.Back entries.now) self.old.node }
        requires sound { IsSoundNode self.old.node }
        ensures { OnOk result (self.new ≡ on_input (inputs.Back entries.now) self.old) }
    {
        self.node.back(entries)
    }

    /// `Recovered` of the epoch that is recovered stands in the outbox, where it is due.
    #[tactic(auto, unfolding(crate::specs::Step::recovered_put))]
    fn put_recovered(&mut self) -> Result<(), NoMemory>
        ensures { OnOk result (self.new ≡ recovered_put self.old) }
    {
        if !self.node.is_due() {
            return Ok(());
        }
        self.node.recovered = true;
        let recovered = Entry::Recovered {
            node: self.node.me,
            epoch: self.node.recovery.epoch(),
        };
        self.put_later(recovered)
    }

    /// A node's step on an input.
    #[tactic(auto, unfolding(crate::specs::Step::node_step))]
    pub fn step(&mut self, input: Input) -> Result<(), NoMemory>
        requires start { self.old ≡ at_first self.old.node }
        requires may { May input self.old.node }
        requires sound { IsSoundNode self.old.node }
        ensures { OnOk result (self.new ≡ node_step input self.old.node) }
    {
        input.act_on(self)?;
        self.put_recovered()
    }
}
