//! The lines of a client without a script in a case: what it asks of a node, and how many events are to bring its reply.

ghost use Rattle.std.specs.Prelude.{◌≡◌, true, false, IfOk, OnOk, IsErrOf};
ghost use Rattle.sheep_node.specs.declared.input.Input.TheVariants as inputs;
ghost use Rattle.sheep_node.specs.MayTests.{may};
ghost use Rattle.step_text.specs.Traces.{may_step_on_ask, IsAsked, IsDriven, IsMadeByClient};

use crate::case_fault::CaseFault;
use crate::fault::Fault;
use crate::input_words::read_ask;
use crate::output_words::write_reply;
use crate::words::Words;
use crate::world_words::write_replies;
use cluster_script::Script;
use object_id::{NoMemory, NodeId};
use sheep_node::{Ask, Input, Node};
use sheep_world::{ApplyFault, World};
use std::alloc::Global;
use std::str::from_utf8;

/// A number that no request has.
const FREE_NUMBER: u32 = 20_000;

/// What a client does.
#[derive(Drop)]
enum ClientLine {
    /// It asks something of a node.
    Ask { node: NodeId, ask: Ask },
    /// It waits for its reply, for so many events.
    Drive { turns: u32 },
}

/// What a line has a client do: `ask`, a node and what is asked of it, in the words of an input; or `drive` and the number of events.
fn client_line(alloc: Global, line: &[u8]) -> Result<ClientLine, Fault> {
    let Ok(text) = from_utf8(line) else {
        return Err(Fault::Word);
    };
    let mut words = Words::new(alloc, text);
    match words.word()? {
        "ask" => Ok(ClientLine::Ask {
            node: words.node()?,
            ask: read_ask(&mut words)?,
        }),
        "drive" => Ok(ClientLine::Drive {
            turns: words.number()?,
        }),
        _ => Err(Fault::Word),
    }
}

/// Makes what a line has a client do, and tells what comes of it.
pub(crate) fn make_client_line(
    alloc: Global,
    out: &mut String,
    script: &Script,
    world: &mut World,
    line: &[u8],
) -> Result<(), CaseFault>
    requires { world.old.spent ≡ false }
    ensures taken { OnOk result (IsMadeByClient script.now world.old world.new) }
    ensures live { OnOk result (world.new.spent ≡ false) }
    ensures script { IsErrOf result CaseFault.Script → ⊥ }
{
    match client_line(alloc, line) {
        Ok(ClientLine::Ask { node, ask }) => make_ask(alloc, out, world, node, ask),
        Ok(ClientLine::Drive { turns }) => drive(out, script, world, turns),
        Err(Fault::NoMemory) => Err(CaseFault::NoMemory),
        Err(_) => Err(CaseFault::Event),
    }
}

/// Whether a node may step on a client's ask.
fn may_step(alloc: Global, node: &Node, ask: &Ask) -> Result<bool, NoMemory>
    requires { node.now.spent ≡ false }
    ensures { IfOk result (λ steps. steps ≡ may (inputs.Guest 20000 0 ask.now) node.now.node) }
{
    let ask = ask.copy(alloc)?;
    let input = Input::Guest {
        req: FREE_NUMBER,
        session: 0,
        ask,
    };
    Ok(node.may(&input))
}

/// Whether a node is there and may step on a client's ask.
fn may_be_asked(alloc: Global, world: &World, node: NodeId, ask: &Ask) -> Result<bool, NoMemory>
    requires { world.now.spent ≡ false }
    ensures { IfOk result (λ steps. steps ≡ may_step_on_ask node ask.now world.now.world) }
{
    match world.node(node) {
        Some(node) => may_step(alloc, node, ask),
        None => Ok(false),
    }
}

/// A client asks something of a node, if it may be asked so. Tells the replies that the node gives at once, or that no ask is taken.
fn make_ask(
    alloc: Global,
    out: &mut String,
    world: &mut World,
    node: NodeId,
    ask: Ask,
) -> Result<(), CaseFault>
    requires { world.old.spent ≡ false }
    ensures taken { OnOk result (IsAsked node ask world.old world.new) }
    ensures live { OnOk result (world.new.spent ≡ false) }
    ensures memory { (IsErrOf result CaseFault.Script → ⊥) × (IsErrOf result CaseFault.Event → ⊥) }
{
    if !may_be_asked(alloc, world, node, &ask)? {
        out.push_str("may not ask\n")?;
        return Ok(());
    }
    match world.ask(node, ask) {
        Ok(()) => Ok(write_replies(out, world.outputs())?),
        Err(ApplyFault::NotEnabled) => Ok(out.push_str("may not ask\n")?),
        Err(ApplyFault::NoMemory) => Err(CaseFault::NoMemory),
    }
}

/// Makes the events that bring the client's reply, and tells the reply, or that there is none.
fn drive(out: &mut String, script: &Script, world: &mut World, turns: u32) -> Result<(), CaseFault>
    requires { world.old.spent ≡ false }
    ensures taken { OnOk result (IsDriven script.now turns world.old world.new) }
    ensures live { OnOk result (world.new.spent ≡ false) }
    ensures memory { (IsErrOf result CaseFault.Script → ⊥) × (IsErrOf result CaseFault.Event → ⊥) }
{
    world.drive(script, turns)?;
    write_answer(out, world)?;
    Ok(())
}

/// Writes the reply to the client's last ask as a line, or that there is none.
fn write_answer(out: &mut String, world: &World) -> Result<(), NoMemory>
    requires { world.now.spent ≡ false }
{
    match world.answer() {
        Some(answer) => {
            out.push_str("answer ")?;
            write_reply(out, answer)?;
            out.push('\n')?;
        }
        None => out.push_str("no answer\n")?,
    }
    Ok(())
}
