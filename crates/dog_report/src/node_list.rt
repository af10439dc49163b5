//! `node list`: a line for each member.

ghost use Rattle.std.specs.Prelude.{◌≡◌, false, [], ◌∷◌, ◌++◌, codes, decimal, OnOk};
ghost use Rattle.std.specs.Option.{option_copied, option_map_or};
ghost use Rattle.sheep_world.specs.World.{host_at};
ghost use Rattle.dog_report.specs.Words.{spaced_words, following_words};
ghost use Rattle.dog_report.specs.Lists.{pending_word, host_words, node_list};
ghost use Rattle.dog_report.specs.ListParts.{lines_text, member_words, peer_words};

use crate::words::{end_line, push_decimal_word, push_named, push_word};
use itoa::Buffer;
use object_id::{Member, NoMemory};
use object_store::{ObjStore, OidList};
use peer_service::PeerState;
use sheep_node::Node;
use sheep_world::World;

/// Adds how many rows there are, behind another word.
fn push_row_count(text: &mut Vec<u8>, count: u128) -> Result<(), NoMemory>
    ensures { OnOk result (text.new.items ≡ text.old.items ++ following_words (decimal count ∷ [])) }
{
    let mut buffer = Buffer::new();
    push_word(text, buffer.format(count).as_bytes())
}

/// Adds how many objects are pending, behind another word: a dash while the list is unfinished.
fn push_pending(text: &mut Vec<u8>, pending: Option<&OidList>) -> Result<(), NoMemory>
    ensures { OnOk result (text.new.items ≡ text.old.items ++ following_words (pending_word (option_copied pending.entry) ∷ [])) }
{
    match pending {
        None => push_word(text, b"-"),
        Some(oids) => push_decimal_word(text, oids.len() as u64),
    }
}

/// Adds what is told of a node that isn't lost, behind its number. Costs a look at each of its objects.
pub fn push_peer<O: ObjStore>(
    text: &mut Vec<u8>,
    vnodes: u16,
    peer: &PeerState<O>,
) -> Result<(), NoMemory>
    ensures { OnOk result (text.new.items ≡ text.old.items ++ following_words (peer_words vnodes peer.now)) }
{
    push_named(text, b"vnodes", u64::from(vnodes))?;
    push_named(text, b"epoch", u64::from(peer.epoch().0))?;
    push_word(text, b"rows")?;
    push_row_count(text, peer.store().row_count())?;
    push_word(text, b"pending")?;
    push_pending(text, peer.pending())
}

/// Adds what is told of a member behind its number: that its node is lost, or what it has.
fn push_state(text: &mut Vec<u8>, vnodes: u16, lost: bool, node: &Node) -> Result<(), NoMemory>
    requires { node.now.spent ≡ false }
    ensures { OnOk result (text.new.items ≡ text.old.items ++ following_words (member_words lost vnodes node.now.node.peer)) }
{
    if lost {
        push_word(text, b"lost")
    } else {
        push_peer(text, vnodes, node.peer())
    }
}

/// Adds a member's number and what is told of it, behind the line's first word.
fn push_details(
    text: &mut Vec<u8>,
    member: &Member,
    lost: bool,
    node: &Node,
) -> Result<(), NoMemory>
    requires { node.now.spent ≡ false }
    ensures { OnOk result (text.new.items ≡ text.old.items
        ++ following_words (decimal member.now.node.0 ∷ member_words lost member.now.vnodes node.now.node.peer)) }
{
    push_decimal_word(text, u64::from(member.node.0))?;
    push_state(text, member.vnodes, lost, node)
}

/// Adds the line of a member; one without a node, as no member is, has an empty line.
fn push_member(text: &mut Vec<u8>, world: &World, member: &Member) -> Result<(), NoMemory>
    requires { world.now.spent ≡ false }
    ensures { OnOk result (text.new.items ≡ text.old.items
        ++ spaced_words (option_map_or (host_words member.now) (host_at member.now.node.0 world.now.world) []) ++ codes "\n") }
{
    let Some(node) = world.node(member.node) else {
        end_line(text)?;
        return Ok(());
    };
    text.extend_from_slice(b"node")?;
    push_details(text, member, world.lost(member.node), node)?;
    end_line(text)?;
    Ok(())
}

/// Adds a line for each member by the whole log. Costs a look at each object of each.
pub fn push_members(text: &mut Vec<u8>, world: &World) -> Result<(), NoMemory>
    requires { world.now.spent ≡ false }
    ensures { OnOk result (text.new.items ≡ text.old.items ++ lines_text (node_list world.now.world)) }
{
    let members = world.newest_members();
    for member in members {
        push_member(text, world, member)?;
    }
    Ok(())
}
