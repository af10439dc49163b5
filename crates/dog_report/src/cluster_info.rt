//! `cluster info`: the newest epoch, the settled one, and the members.

ghost use Rattle.std.specs.Prelude.{◌≡◌, ◌∷◌, ◌++◌, codes, decimal, map, OnOk};
ghost use Rattle.epoch_log.specs.Members.{node_numbers};
ghost use Rattle.dog_report.specs.Words.{spaced_words, following_words};
ghost use Rattle.dog_report.specs.ListParts.{cluster_details};

use crate::words::{end_line, push_decimal_word, push_named, push_word};
use object_id::{Epoch, Member, NoMemory};

/// Adds the numbers of members behind another word.
fn push_numbers(text: &mut Vec<u8>, members: &[Member]) -> Result<(), NoMemory>
    ensures { OnOk result (text.new.items ≡ text.old.items ++ following_words (map decimal (node_numbers members.now))) }
{
    for member in members {
        push_decimal_word(text, u64::from(member.node.0))?;
    }
    Ok(())
}

/// Adds what these epochs and members are, behind the line's first word.
fn push_details(
    text: &mut Vec<u8>,
    newest: Epoch,
    settled: Epoch,
    members: &[Member],
) -> Result<(), NoMemory>
    ensures { OnOk result (text.new.items ≡ text.old.items ++ following_words (cluster_details newest.0 settled.0 members.now)) }
{
    push_named(text, b"epoch", u64::from(newest.0))?;
    push_named(text, b"settled", u64::from(settled.0))?;
    push_word(text, b"members")?;
    push_numbers(text, members)
}

/// Adds the line of these epochs and members. Costs the members.
pub fn push_cluster(
    text: &mut Vec<u8>,
    newest: Epoch,
    settled: Epoch,
    members: &[Member],
) -> Result<(), NoMemory>
    ensures { OnOk result (text.new.items ≡ text.old.items
        ++ spaced_words (codes "cluster" ∷ cluster_details newest.0 settled.0 members.now) ++ codes "\n") }
{
    text.extend_from_slice(b"cluster")?;
    push_details(text, newest, settled, members)?;
    end_line(text)?;
    Ok(())
}
