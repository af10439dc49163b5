//! Worked rows on a cluster of one node: what the node sends comes to itself, and what it puts is the next entry of its log.

use std::alloc::Global;
use std::collections::VecDeque;
use std::fmt::Write;
use std::test::Fail;
use step_text::{Fault, Life};

/// More steps than a request of these rows takes.
const STEPS_MAX: u32 = 64;

/// The node, what is on its way to it, the kinds of its steps, and what it has replied.
#[derive(Drop)]
struct OneNode {
    alloc: Global,
    life: Life,
    inputs: VecDeque<String>,
    kinds: String,
    replies: String,
}

impl OneNode {
    /// The node has read the entry that opens the log.
    fn new(alloc: Global) -> Result<OneNode, Fault> {
        let mut life = Life::new(alloc);
        life.step("new 0 3")?;
        life.step("log format 1 0 0 64")?;
        Ok(OneNode {
            alloc,
            life,
            inputs: VecDeque::new(alloc),
            kinds: String::new(alloc),
            replies: String::new(alloc),
        })
    }

    /// A request of session 1, and all steps that it leads to.
    fn ask(&mut self, req: u32, ask: &str) -> Result<(), Fault> {
        let alloc = self.alloc;
        self.push("guest", format!(in alloc; "{req} 1 {ask}")?.as_str())?;
        for _ in 0..STEPS_MAX {
            if !self.go_on()? {
                return Ok(());
            }
        }
        Ok(())
    }

    /// Makes the next step: on what is on its way, or else a put. Whether there is one.
    fn go_on(&mut self) -> Result<bool, Fault> {
        match self.inputs.pop_front() {
            Some(input) => {
                let outputs = self.life.step(input.as_str())?;
                self.hand_on(outputs.as_str())?;
                Ok(true)
            }
            None => self.put(),
        }
    }

    /// Whether the node puts an entry.
    fn put(&mut self) -> Result<bool, Fault> {
        match self.life.step("put") {
            Ok(outputs) => {
                self.kinds.push_str("put ")?;
                self.hand_on(outputs.as_str())?;
                Ok(true)
            }
            Err(_) => Ok(false),
        }
    }

    fn push(&mut self, kind: &str, words: &str) -> Result<(), Fault> {
        let alloc = self.alloc;
        write!(self.kinds, "{kind} ")?;
        self.inputs.push_back(format!(in alloc; "{kind} {words}")?)?;
        Ok(())
    }

    /// Gives outputs back as inputs, and keeps replies.
    fn hand_on(&mut self, outputs: &str) -> Result<(), Fault> {
        for output in outputs.split(';') {
            self.hand_one_on(output)?;
        }
        Ok(())
    }

    fn hand_one_on(&mut self, output: &str) -> Result<(), Fault> {
        match output.split_once(' ') {
            Some(("send", request)) => match request.split_once(' ') {
                Some((_, bytes)) => self.push("request", bytes)?,
                None => return Err(Fault::Word),
            },
            Some(("say", bytes)) => self.push("reply", bytes)?,
            Some(("put", entry)) => self.push("log", entry)?,
            Some(("reply", reply)) => write!(self.replies, "{reply};")?,
            _ => {}
        }
        Ok(())
    }
}

/// The replies to the requests of a session, one after the other.
fn replies_to(alloc: Global, asks: &[(u32, &str)]) -> Result<String, Fault> {
    let mut node = OneNode::new(alloc)?;
    for (req, ask) in asks {
        node.ask(*req, ask)?;
    }
    Ok(node.replies)
}

#[test]
fn a_disk_has_what_was_written(rt: HostRuntime) -> Result<(), Fail> {
    let replies = replies_to(
        rt.alloc(),
        &[
            (1, "vdi create 61 1048576 1 22"),
            (2, "vdi open 61 ."),
            (3, "disk write 0 07*512."),
            (4, "disk read 0 1024"),
            (5, "vdi close"),
        ],
    )?;
    assert_eq!(rt;
        replies.as_str(),
        "1 done;2 done;3 done;4 piece 07*512.00*512.;5 done;"
    );
    Ok(())
}

#[test]
fn a_disk_has_an_end(rt: HostRuntime) -> Result<(), Fail> {
    let replies = replies_to(
        rt.alloc(),
        &[
            (1, "vdi create 61 1536 1 22"),
            (2, "vdi open 61 ."),
            (3, "disk read 0 512"),
            (4, "disk write 1024 ff*512."),
            (5, "disk read 512 1024"),
            (6, "disk read 1536 512"),
        ],
    )?;
    assert_eq!(rt;
        replies.as_str(),
        "1 done;2 done;3 piece 00*512.;4 done;5 piece 00*512.ff*512.;6 refused INVALID_PARMS;"
    );
    Ok(())
}

#[test]
fn a_disk_is_reserved_made_and_published(rt: HostRuntime) -> Result<(), Fail> {
    let mut node = OneNode::new(rt.alloc())?;
    node.ask(1, "vdi create 61 512 1 22")?;
    assert_eq!(rt; node.kinds.as_str(), "guest put log request reply put log ");
    assert_eq!(rt; node.replies.as_str(), "1 done;");
    Ok(())
}
