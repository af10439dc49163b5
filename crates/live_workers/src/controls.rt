//! The controls of a script that aren't taken.

use cluster_script::{Script, Statement};
use object_id::NoMemory;
use std::collections::VecDeque;

/// A statement that changes the nodes of the cluster.
#[derive(Clone, Copy)]
pub(crate) enum Control {
    Fail(u32),
    Join(u32),
    Reweight(u32, u16),
    Back(u32),
}

/// The control that a statement is, if it is one.
fn control_of(statement: &Statement) -> Option<Control> {
    match statement {
        Statement::Fail { node } => Some(Control::Fail(*node)),
        Statement::Join { node } => Some(Control::Join(*node)),
        Statement::Reweight { node, vnodes } => Some(Control::Reweight(*node, *vnodes)),
        Statement::Back { node } => Some(Control::Back(*node)),
        _ => None,
    }
}

/// The controls of the phase at a place stand behind those that are left.
pub(crate) fn add_controls_of(
    controls: &mut VecDeque<Control>,
    script: &Script,
    phase: usize,
) -> Result<(), NoMemory> {
    let Some(found) = script.phase(phase) else {
        return Ok(());
    };
    for place in 0..found.controls as usize {
        if let Some(statement) = script.control(phase, place) {
            if let Some(control) = control_of(statement) {
                controls.push_back(control)?;
            }
        }
    }
    Ok(())
}
