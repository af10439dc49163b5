//! The answer to a request of another node.

ghost use Rattle.std.specs.Prelude.{◌≡◌, ◌+◌, length, true, false, IfOk, OnOk, OnErr};
ghost use Rattle.object_store.specs.Store.{copy_at, open_row, read_at, write_at};
ghost use Rattle.peer_proto.specs.declared.ask.PeerAsk.TheVariants as asks;
ghost use Rattle.peer_service.specs.Serve.{MayServe, EndsInside, ends_inside, may_serve, own_epoch_step, peer_write_step};
ghost use Rattle.peer_service.specs.Serve.{piece_or_refusal, peer_step, reply_to};
ghost use Rattle.peer_service.specs.Serve.{row_or_none, tells_refusal};

use crate::peer_state::PeerState;
use object_id::{Bytes, Epoch, NoMemory, Oid};
use object_store::{Key, ObjStore};
use peer_proto::{PeerAsk, PeerReq, PeerRsp, PeerSay, Refusal};

/// Where a piece from an offset on ends.
fn end_of(offset: u32, piece: &[u8]) -> u64
    ensures { result ≡ offset + length piece.now }
{
    u64::from(offset) + piece.len() as u64
}

impl<O: ObjStore> PeerState<O> {
    /// Whether bytes up to this end are inside the open row of a key, if there is one.
    #[tactic(auto, using(crate::proofs::InsideLemmas::inside_by_length, crate::proofs::InsideLemmas::inside_without_row))]
    fn ends_inside(&self, key: Key, end: u64) -> bool
        ensures { result ≡ ends_inside end (open_row self.now.rows key) }
    {
        match self.store.open_length(key) {
            Some(length) => end <= u64::from(length),
            None => true,
        }
    }

    /// Whether a request may be served: the piece of a created row ends inside it, and that of a read or write inside the open row. Costs
    /// a look-up, and takes no memory.
    pub fn may_serve(&self, ask: &PeerAsk) -> bool
        ensures { result ≡ may_serve self.now ask.now }
    {
        match ask {
            PeerAsk::Create {
                length,
                offset,
                bytes,
                ..
            } => end_of(*offset, bytes.as_slice()) <= u64::from(*length),
            PeerAsk::Write { key, offset, bytes } => {
                self.ends_inside(*key, end_of(*offset, bytes.as_slice()))
            }
            PeerAsk::Read {
                key,
                offset,
                length,
            } => self.ends_inside(*key, u64::from(*offset) + u64::from(*length)),
            PeerAsk::List => true,
            PeerAsk::RecoverRead { .. } => true,
        }
    }

    /// Answers a request, first by its epoch and then by what it asks. A refusal changes nothing. Nor does want of memory, which is
    /// never answered in a refusal's place. Costs a look-up in the store and among what is pending, and the bytes of the piece; a Create
    /// also the bytes up to the piece's end, a List the ids of the objects, and a RecoverRead a look at each row of the object.
    pub fn serve(&mut self, req: &PeerReq) -> Result<PeerRsp, NoMemory>
        requires { MayServe self.old req.now.ask }
        ensures reply { IfOk result (λ reply. reply ≡ reply_to self.old req.now) }
        ensures peer { OnOk result (self.new ≡ (peer_step self.old req.now).peer) }
        ensures refused { tells_refusal (peer_step self.old req.now).say ≡ true → self.new ≡ self.old }
        ensures err { OnErr result (self.new ≡ self.old) }
        ensures memory { OnErr result (tells_refusal (peer_step self.old req.now).say ≡ false) }
    {
        let epoch = self.epoch;
        let say = self.answer(req)?;
        Ok(PeerRsp {
            number: req.number,
            epoch,
            say,
        })
    }

    /// Answers a request, first by its epoch.
    #[tactic(auto, unfolding(crate::specs::Serve::peer_step))]
    fn answer(&mut self, req: &PeerReq) -> Result<PeerSay, NoMemory>
        requires { MayServe self.old req.now.ask }
        ensures say { IfOk result (λ say. say ≡ (peer_step self.old req.now).say) }
        ensures peer { OnOk result (self.new ≡ (peer_step self.old req.now).peer) }
        ensures err { OnErr result (self.new ≡ self.old) }
        ensures memory { OnErr result (tells_refusal (peer_step self.old req.now).say ≡ false) }
    {
        match self.admits(req.epoch) {
            Ok(()) => self.own_answer(&req.ask),
            Err(refusal) => Ok(PeerSay::Refused(refusal)),
        }
    }

    /// Answers what is asked in the node's own epoch.
    #[tactic(auto, unfolding(crate::specs::Serve::own_epoch_step))]
    fn own_answer(&mut self, ask: &PeerAsk) -> Result<PeerSay, NoMemory>
        requires { MayServe self.old ask.now }
        ensures say { IfOk result (λ say. say ≡ (own_epoch_step ask.now self.old).say) }
        ensures peer { OnOk result (self.new ≡ (own_epoch_step ask.now self.old).peer) }
        ensures err { OnErr result (self.new ≡ self.old) }
        ensures memory { OnErr result (tells_refusal (own_epoch_step ask.now self.old).say ≡ false) }
    {
        match ask {
            PeerAsk::Create {
                key,
                length,
                offset,
                bytes,
            } => {
                self.make_row(key, *length, *offset, bytes.as_slice())?;
                Ok(PeerSay::Success)
            }
            PeerAsk::Write { key, offset, bytes } => self.write(key, *offset, bytes.as_slice()),
            PeerAsk::Read {
                key,
                offset,
                length,
            } => self.read(key, *offset, *length),
            PeerAsk::List => Ok(PeerSay::Objects(self.store.list()?)),
            PeerAsk::RecoverRead { oid, level } => self.row_told(*oid, *level),
        }
    }

    /// Lays a piece over the open row of the key, if the object is recovered.
    #[tactic(auto, unfolding(crate::specs::Serve::own_epoch_step))]
    fn write(&mut self, key: &Key, offset: u32, bytes: &[u8]) -> Result<PeerSay, NoMemory>
        requires { EndsInside (offset + length bytes.now) (open_row self.old.rows key.now) }
        ensures say { IfOk result (λ say. say ≡ (own_epoch_step (asks.Write key.now offset bytes.now) self.old).say) }
        ensures peer { OnOk result (self.new ≡ (own_epoch_step (asks.Write key.now offset bytes.now) self.old).peer) }
        ensures err { OnErr result (self.new ≡ self.old) }
        ensures memory { OnErr result (tells_refusal (own_epoch_step (asks.Write key.now offset bytes.now) self.old).say ≡ false) }
    {
        if self.is_waiting(key.oid) {
            Ok(PeerSay::Refused(Refusal::Recovery))
        } else {
            self.lay(key, offset, bytes)
        }
    }

    /// Lays a piece over the open row of the key, if there is one. Room comes first, so that the write itself takes no memory.
    fn lay(&mut self, key: &Key, offset: u32, bytes: &[u8]) -> Result<PeerSay, NoMemory>
        requires { EndsInside (offset + length bytes.now) (open_row self.old.rows key.now) }
        ensures say { IfOk result (λ say. say ≡ (peer_write_step (write_at self.old.rows key.now offset bytes.now) self.old).say) }
        ensures peer { OnOk result (self.new ≡ (peer_write_step (write_at self.old.rows key.now offset bytes.now) self.old).peer) }
        ensures err { OnErr result (self.new ≡ self.old) }
        ensures memory { OnErr result (tells_refusal (peer_write_step (write_at self.old.rows key.now offset bytes.now) self.old).say
            ≡ false) }
    {
        if !self.has_open(key) {
            return Ok(PeerSay::Refused(Refusal::NoObj));
        }
        // A piece longer than any row is answered as out of memory.
        if bytes.len() > u32::MAX as usize {
            return Err(NoMemory);
        }
        let room = self.store.reserve_write(*key, offset, bytes.len() as u32);
        if room.is_err() {
            return Err(NoMemory);
        }
        match self.store.write(*key, offset, bytes) {
            Ok(()) => Ok(PeerSay::Success),
            Err(_) => Ok(PeerSay::Refused(Refusal::NoObj)),
        }
    }

    /// The piece of the open row of the key, if the object is recovered.
    #[tactic(auto, unfolding(crate::specs::Serve::own_epoch_step))]
    fn read(&self, key: &Key, offset: u32, size: u32) -> Result<PeerSay, NoMemory>
        requires { EndsInside (offset + size) (open_row self.now.rows key.now) }
        ensures say { IfOk result (λ say. say ≡ (own_epoch_step (asks.Read key.now offset size) self.now).say) }
        ensures memory { OnErr result (tells_refusal (own_epoch_step (asks.Read key.now offset size) self.now).say ≡ false) }
    {
        if self.is_waiting(key.oid) {
            Ok(PeerSay::Refused(Refusal::Recovery))
        } else {
            self.piece(key, offset, size)
        }
    }

    /// The piece of the open row of the key, if there is one: that is found out before memory is taken.
    fn piece(&self, key: &Key, offset: u32, size: u32) -> Result<PeerSay, NoMemory>
        requires { EndsInside (offset + size) (open_row self.now.rows key.now) }
        ensures say { IfOk result (λ say. say ≡ piece_or_refusal (read_at self.now.rows key.now offset size)) }
        ensures memory { OnErr result (tells_refusal (piece_or_refusal (read_at self.now.rows key.now offset size)) ≡ false) }
    {
        if !self.has_open(key) {
            return Ok(PeerSay::Refused(Refusal::NoObj));
        }
        let mut bytes = Vec::new(self.alloc);
        bytes.resize(size as usize, 0)?;
        match self.store.read(*key, offset, bytes.as_mut_slice()) {
            Ok(()) => Ok(PeerSay::Piece(Bytes::from_vec(bytes))),
            Err(_) => Ok(PeerSay::Refused(Refusal::NoObj)),
        }
    }

    /// The object's row that holds the level, or that there is none.
    fn row_told(&self, oid: Oid, level: Epoch) -> Result<PeerSay, NoMemory>
        ensures { IfOk result (λ say. say ≡ row_or_none (copy_at self.now.rows oid level.0)) }
    {
        match self.store.row_at(oid, level)? {
            Some(row) => Ok(PeerSay::Row(row)),
            None => Ok(PeerSay::NoRow),
        }
    }
}
