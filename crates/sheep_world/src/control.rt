//! The controls of a script that aren't taken.

ghost use Rattle.std.specs.Prelude.{◌≡◌, ◌++◌, map, Some, None, IfOk, if◌then◌else◌};
ghost use Rattle.std.specs.Option.{option_map, option_to_list};
ghost use Rattle.cluster_script.specs.Index.{control_at};
ghost use Rattle.cluster_script.specs.Phases.{is_control};
ghost use Rattle.sheep_world.specs.Controls.{control_statement};
ghost use Rattle.sheep_world.specs.Opening.{controls_at};

use cluster_script::{Script, Statement};
use object_id::NoMemory;
use std::collections::VecDeque;

/// A statement that changes the nodes of the cluster (`control_statement` of `specs/Controls.antt`).
#[derive(Clone, Copy, Debug, PartialEq, Eq)]
pub(crate) enum Control {
    Fail(u32),
    Join(u32),
    Reweight(u32, u16),
    Back(u32),
}

/// The control that a statement is, if it is one. Takes no memory.
fn control_of(statement: &Statement) -> Option<Control>
    ensures { option_map control_statement result ≡ (if is_control statement.now then Some statement.now else None) }
{
    match statement {
        Statement::Fail { node } => Some(Control::Fail(*node)),
        Statement::Join { node } => Some(Control::Join(*node)),
        Statement::Reweight { node, vnodes } => Some(Control::Reweight(*node, *vnodes)),
        Statement::Back { node } => Some(Control::Back(*node)),
        _ => None,
    }
}

/// A phase's control at a place.
fn control_at(script: &Script, phase: usize, place: usize) -> Option<Control>
    ensures { option_map control_statement result ≡ control_at script.now phase place }
{
    match script.control(phase, place) {
        Some(statement) => control_of(statement),
        None => None,
    }
}

/// A phase's control at a place, if there is one, stands behind those that are left.
fn with_control_at(
    controls: VecDeque<Control>,
    script: &Script,
    phase: usize,
    place: usize,
) -> Result<VecDeque<Control>, NoMemory>
    ensures { IfOk result (λ after. map control_statement after.items
        ≡ map control_statement controls.items ++ option_to_list (control_at script.now phase place)) }
{
    let mut controls = controls;
    if let Some(control) = control_at(script, phase, place) {
        controls.push_back(control)?;
    }
    Ok(controls)
}

/// The controls of the phase at a place stand behind those that are left.
pub(crate) fn with_controls_of(
    controls: VecDeque<Control>,
    script: &Script,
    phase: usize,
) -> Result<VecDeque<Control>, NoMemory>
    ensures { IfOk result (λ after.
        map control_statement after.items ≡ map control_statement controls.items ++ controls_at script.now phase) }
{
    let mut controls = controls;
    let Some(found) = script.phase(phase) else {
        return Ok(controls);
    };
    for place in 0..found.controls as usize {
        controls = with_control_at(controls, script, phase, place)?;
    }
    Ok(controls)
}
