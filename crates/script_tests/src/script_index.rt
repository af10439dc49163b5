use cluster_script::{Script, Statement, parse};
use std::alloc::Global;
use std::test::*;

/// Three phases: a list ends the first and a settling the second, and the third has no barrier. Node 1 fails and comes back.
const THREE_PHASES: &[u8] = b"cluster 2
vnodes 8
zone 1 0
session 2 node 1
2 vdi create -c 1 a 1M
2 vdi open a
2 vdi close
node list
lose 2
fail 1
join 2
lose 3
settle
back 1
session 1 node 1
1 vdi open a
1 vdi read 0 512
";

fn three_phases(alloc: Global) -> Result<Script, Fail> {
    match parse(alloc, THREE_PHASES) {
        Ok(script) => Ok(script),
        Err(_fault) => Err(Fail::from("the text is a script")),
    }
}

/// How many nodes, virtual nodes, attempts, events, statements and phases a script says.
fn settings_text(alloc: Global, script: &Script) -> Result<String, Fail> {
    let (nodes, vnodes) = (script.nodes(), script.vnodes());
    let (tries, limit) = (script.tries(), script.limit());
    let statements = script.statements().len();
    let phases = script.phase_count();
    Ok(format!(in alloc; "{nodes} {vnodes} {tries} {limit} {statements} {phases}")?)
}

/// The zones of nodes 0, 1, 2 and 63.
fn zones_of(script: &Script) -> [u32; 4] {
    [
        script.zone(0),
        script.zone(1),
        script.zone(2),
        script.zone(63),
    ]
}

#[test]
fn has_settings_and_zones(rt: HostRuntime) -> Result<(), Fail> {
    let script = three_phases(rt.alloc())?;
    let text = settings_text(rt.alloc(), &script)?;
    assert_eq!(rt; text.as_str(), "2 8 8 1000000 17 3");
    assert_eq!(rt; zones_of(&script), [0, 0, 2, 63]);
    Ok(())
}

#[test]
fn has_the_defaults_where_nothing_is_said(rt: HostRuntime) -> Result<(), Fail> {
    let script = parse(rt.alloc(), b"").ok().ok_or("nothing is a script")?;
    let text = settings_text(rt.alloc(), &script)?;
    assert_eq!(rt; text.as_str(), "1 64 8 1000000 0 0");
    assert_eq!(rt; zones_of(&script), [0, 1, 2, 63]);
    assert!(rt; script.session(1).is_none());
    Ok(())
}

#[test]
fn has_no_phase_without_a_session(rt: HostRuntime) -> Result<(), Fail> {
    let script = parse(rt.alloc(), b"cluster 1\n")
        .ok()
        .ok_or("a setting is a script")?;
    assert_eq!(rt; script.phase_count(), 0);
    assert!(rt; script.session(1).is_none());
    Ok(())
}

/// The session of a request by its number, and the place of its phase.
fn places_of(script: &Script, number: u32) -> Option<(u32, u32)> {
    match script.request(number) {
        Some(request) => Some((request.session, request.phase)),
        None => None,
    }
}

/// Whether the request of a number is a read of 512 bytes.
fn is_read(script: &Script, number: u32) -> bool {
    match script.request(number) {
        Some(request) => matches!(request.statement, Statement::Read { length: 512, .. }),
        None => false,
    }
}

/// The places of the first seven numbers, a line each.
fn requests_text(alloc: Global, script: &Script) -> Result<String, Fail> {
    let mut text = String::new(alloc);
    for number in 0..7 {
        let places = places_of(script, number);
        text.push_str(format!(in alloc; "{places:?}\n")?.as_str())?;
    }
    Ok(text)
}

/// Each request by its number, with its session and the place of its phase.
const REQUESTS: &str = "None\n\
Some((2, 0))\n\
Some((2, 0))\n\
Some((2, 0))\n\
Some((1, 2))\n\
Some((1, 2))\n\
None\n";

#[test]
fn finds_requests_by_their_numbers(rt: HostRuntime) -> Result<(), Fail> {
    let script = three_phases(rt.alloc())?;
    let text = requests_text(rt.alloc(), &script)?;
    assert_eq!(rt; text.as_str(), REQUESTS);
    assert!(rt; is_read(&script, 5));
    Ok(())
}

/// The numbers at the first three places of sessions, a line each.
fn sessions_text(alloc: Global, script: &Script) -> Result<String, Fail> {
    let mut text = String::new(alloc);
    for session in [0, 1, 2, 64, 65] {
        let first = script.request_of_session(session, 0);
        let second = script.request_of_session(session, 1);
        let third = script.request_of_session(session, 2);
        let line = format!(in alloc; "{session}: {first:?} {second:?} {third:?}\n")?;
        text.push_str(line.as_str())?;
    }
    Ok(text)
}

/// Sessions, and the numbers at the first places among their requests.
const SESSIONS: &str = "0: None None None\n\
1: Some(4) Some(5) None\n\
2: Some(1) Some(2) Some(3)\n\
64: None None None\n\
65: None None None\n";

#[test]
fn finds_requests_of_sessions(rt: HostRuntime) -> Result<(), Fail> {
    let script = three_phases(rt.alloc())?;
    let text = sessions_text(rt.alloc(), &script)?;
    assert_eq!(rt; text.as_str(), SESSIONS);
    Ok(())
}

/// A session by its number: its number, node and incarnation.
fn session_of(script: &Script, number: u32) -> Option<(u32, u32, u32)> {
    match script.session(number) {
        Some(session) => Some((session.number, session.node, session.incarnation)),
        None => None,
    }
}

/// Session 1 is declared behind `back 1`, and session 2 before it.
#[test]
fn finds_sessions_with_their_incarnations(rt: HostRuntime) -> Result<(), Fail> {
    let script = three_phases(rt.alloc())?;
    assert_eq!(rt; session_of(&script, 1), Some((1, 1, 2)));
    assert_eq!(rt; session_of(&script, 2), Some((2, 1, 1)));
    for number in [0, 3, 64, 65] {
        assert!(rt; script.session(number).is_none());
    }
    Ok(())
}

/// The counts of a phase: controls, losses and requests.
fn counts_of(script: &Script, place: usize) -> Option<(u32, u32, u32)> {
    match script.phase(place) {
        Some(phase) => Some((phase.controls, phase.losses, phase.requests)),
        None => None,
    }
}

/// What ends a phase: a list of nodes, a settling or something else.
#[derive(Debug, Clone, Copy, PartialEq, Eq)]
enum Barrier {
    List,
    Settling,
    Other,
}

fn barrier_of(script: &Script, place: usize) -> Option<Barrier> {
    match &script.barrier(place) {
        Some(Statement::ListNodes) => Some(Barrier::List),
        Some(Statement::Settle) => Some(Barrier::Settling),
        Some(_) => Some(Barrier::Other),
        None => None,
    }
}

/// The first four phases, a line each.
fn phases_text(alloc: Global, script: &Script) -> Result<String, Fail> {
    let mut text = String::new(alloc);
    for place in 0..4 {
        let counts = counts_of(script, place);
        let barrier = barrier_of(script, place);
        text.push_str(format!(in alloc; "{counts:?} {barrier:?}\n")?.as_str())?;
    }
    Ok(text)
}

/// Each phase with its counts, and with what ends it.
const PHASES: &str = "Some((0, 0, 3)) Some(List)\n\
Some((2, 5, 0)) Some(Settling)\n\
Some((1, 0, 2)) Some(Settling)\n\
None None\n";

#[test]
fn finds_phases(rt: HostRuntime) -> Result<(), Fail> {
    let script = three_phases(rt.alloc())?;
    assert_eq!(rt; script.phase_count(), 3);
    let text = phases_text(rt.alloc(), &script)?;
    assert_eq!(rt; text.as_str(), PHASES);
    Ok(())
}

/// The numbers of the requests at the first four places of each phase, a line each.
fn numbers_text(alloc: Global, script: &Script) -> Result<String, Fail> {
    let mut text = String::new(alloc);
    for phase in 0..4 {
        let front = (
            script.request_of_phase(phase, 0),
            script.request_of_phase(phase, 1),
        );
        let back = (
            script.request_of_phase(phase, 2),
            script.request_of_phase(phase, 3),
        );
        text.push_str(format!(in alloc; "{front:?} {back:?}\n")?.as_str())?;
    }
    Ok(text)
}

const NUMBERS: &str = "(Some(1), Some(2)) (Some(3), None)\n\
(None, None) (None, None)\n\
(Some(4), Some(5)) (None, None)\n\
(None, None) (None, None)\n";

#[test]
fn finds_the_requests_of_a_phase(rt: HostRuntime) -> Result<(), Fail> {
    let script = three_phases(rt.alloc())?;
    let text = numbers_text(rt.alloc(), &script)?;
    assert_eq!(rt; text.as_str(), NUMBERS);
    Ok(())
}

/// The controls at the first three places of each phase, a line each.
fn controls_text(alloc: Global, script: &Script) -> Result<String, Fail> {
    let mut text = String::new(alloc);
    for phase in 0..4 {
        let first = script.control(phase, 0);
        let second = script.control(phase, 1);
        let third = script.control(phase, 2);
        text.push_str(format!(in alloc; "{first:?} {second:?} {third:?}\n")?.as_str())?;
    }
    Ok(text)
}

const CONTROLS: &str = "None None None\n\
Some(Fail { node: 1 }) Some(Join { node: 2 }) None\n\
Some(Back { node: 1 }) None None\n\
None None None\n";

#[test]
fn finds_the_controls_of_a_phase(rt: HostRuntime) -> Result<(), Fail> {
    let script = three_phases(rt.alloc())?;
    let text = controls_text(rt.alloc(), &script)?;
    assert_eq!(rt; text.as_str(), CONTROLS);
    Ok(())
}

/// One disk and one phase, without a barrier, behind a line that says nothing.
const ONE_DISK: &[u8] =
    b"# one disk\ncluster 1\nsession 1 node 0\n1 vdi create -c 1 a 1M\n1 vdi open a\n1 vdi read 0 512\n";

fn one_disk(alloc: Global) -> Result<Script, Fail> {
    Ok(parse(alloc, ONE_DISK).ok().ok_or("the text is a script")?)
}

#[test]
fn has_one_phase_without_a_barrier(rt: HostRuntime) -> Result<(), Fail> {
    let script = one_disk(rt.alloc())?;
    assert_eq!(rt; script.phase_count(), 1);
    assert_eq!(rt; counts_of(&script, 0), Some((0, 0, 3)));
    assert_eq!(rt; barrier_of(&script, 0), Some(Barrier::Settling));
    assert!(rt; script.control(0, 0).is_none());
    Ok(())
}

#[test]
fn finds_the_last_request_of_the_only_phase(rt: HostRuntime) -> Result<(), Fail> {
    let script = one_disk(rt.alloc())?;
    assert_eq!(rt; script.request_of_phase(0, 2), Some(3));
    assert_eq!(rt; script.request_of_session(1, 2), Some(3));
    assert_eq!(rt; places_of(&script, 3), Some((1, 0)));
    assert!(rt; is_read(&script, 3));
    Ok(())
}
