//! What no clause says: that calls come through with ample memory, that stamps are the numbers from 0 on, also when two
//! threads draw them, and that a value can cross threads under the name of its clock.
ghost use Rattle.std.specs.Prelude.{◌≡◌, ◌<◌, IfOk};

use crate::{Clock, ClockName, ClockSpent, Note, Seat, stamps_grow};
use object_id::NoMemory;
use std::alloc::Global;
use std::marker::{Brand, PhantomData};
use std::test::Fail;
use std::thread::{self, Threads};

#[test]
fn is_spent_from_the_last_number_on(rt: HostRuntime) -> Result<(), Fail> {
    let (clock, mut seats) = Clock::new(rt.alloc(), 1, 2)?;
    assert_eq!(rt; seats.len(), 2);
    assert_eq!(rt; clock.draw(&mut seats[0]), Ok(0));
    assert_eq!(rt; clock.draw(&mut seats[0]), Err(ClockSpent));
    assert_eq!(rt; clock.draw(&mut seats[1]), Err(ClockSpent));
    Ok(())
}

// The most seats, and the greatest last number.
#[test]
fn each_seat_draws_the_next_number(rt: HostRuntime) -> Result<(), Fail> {
    let (clock, seats) = Clock::new(rt.alloc(), 1 << 62, 1024)?;
    assert_eq!(rt; seats.len(), 1024);
    let mut next = 0u64;
    for mut seat in seats {
        assert_eq!(rt; clock.draw(&mut seat), Ok(next));
        next = next.saturating_add(1);
    }
    assert_eq!(rt; next, 1024);
    Ok(())
}

#[test]
fn notes_and_joins_use_up_no_number(rt: HostRuntime) -> Result<(), Fail> {
    let (clock, mut seats) = Clock::new(rt.alloc(), 10, 2)?;
    let (Some(mut taker), Some(mut maker)) = (seats.pop(), seats.pop()) else {
        panic!(rt; "two seats");
    };
    assert_eq!(rt; clock.draw(&mut maker), Ok(0));
    let mut note = clock.note(&mut maker);
    let again = clock.again(&mut note);
    clock.learn(&mut taker, again);
    clock.learn(&mut maker, note);
    assert_eq!(rt; stamps_grow(&clock, &mut taker), Ok(1));
    clock.join(&mut taker, maker);
    assert_eq!(rt; clock.draw(&mut taker), Ok(2));
    Ok(())
}

/// Draws a thousand numbers, unless the clock is spent before.
fn draw_a_thousand(alloc: Global, clock: &Clock, seat: Seat) -> Result<(Seat, Vec<u64>), NoMemory>
    requires { seat.clock ≡ clock.now.id }
    ensures { IfOk result (λ drawn. drawn.0.clock ≡ clock.now.id) }
{
    let mut seat = seat;
    let mut numbers = Vec::new(alloc);
    for _ in 0..1000 {
        let Ok(number) = clock.draw(&mut seat) else {
            break;
        };
        numbers.push(number)?;
    }
    Ok((seat, numbers))
}

#[test]
fn two_threads_draw_each_number_once(rt: HostRuntime) -> Result<(), Fail> {
    let alloc = rt.alloc();
    let (clock, mut seats) = Clock::new(alloc, 2000, 2)?;
    let clock = &clock;
    let (Some(one), Some(other)) = (seats.pop(), seats.pop()) else {
        panic!(rt; "two seats");
    };
    let (first, second) = thread::join(
        &rt,
        move || -> Result<(Seat, Vec<u64>), NoMemory>
            requires { one.clock ≡ clock.now.id }
            ensures { IfOk result (λ drawn. drawn.0.clock ≡ clock.entry.now.id) }
        { draw_a_thousand(alloc, clock, one) },
        move || -> Result<(Seat, Vec<u64>), NoMemory>
            requires { other.clock ≡ clock.now.id }
            ensures { IfOk result (λ drawn. drawn.0.clock ≡ clock.entry.now.id) }
        { draw_a_thousand(alloc, clock, other) },
    );
    let (mut seat, mut numbers) = first?;
    let (other, more) = second?;
    clock.join(&mut seat, other);
    for number in more {
        numbers.push(number)?;
    }
    numbers.sort()?;
    assert_eq!(rt; numbers.len(), 2000);
    let mut next = 0u64;
    for number in numbers {
        assert_eq!(rt; number, next);
        next = next.saturating_add(1);
    }
    assert_eq!(rt; clock.draw(&mut seat), Err(ClockSpent));
    Ok(())
}

/// A stamp with a note that has seen it, of the clock that N names.
#[derive(Drop)]
struct Brought<N: ClockName> {
    stamp: u64,
    note: Note,
    name: PhantomData<N>,
    ghost clock: { note.clock ≡ N.clock },
    ghost below: { stamp < note.seen },
}

fn bring<N: ClockName>(clock: &Clock, seat: Seat) -> Result<Brought<N>, ClockSpent>
    requires clock { clock.now.id ≡ N.clock }
    requires seat { seat.clock ≡ N.clock }
{
    let mut seat = seat;
    let stamp = clock.draw(&mut seat)?;
    Ok(Brought {
        stamp,
        note: clock.note(&mut seat),
        name: PhantomData,
    })
}

fn draw_above<N: ClockName>(
    clock: &Clock,
    seat: Seat,
    brought: Brought<N>,
) -> Result<(u64, u64), ClockSpent>
    requires clock { clock.now.id ≡ N.clock }
    requires seat { seat.clock ≡ N.clock }
    ensures { IfOk result (λ stamps. stamps.0 < stamps.1) }
{
    let mut seat = seat;
    let Brought {
        stamp,
        note,
        name: _,
    } = brought;
    clock.learn(&mut seat, note);
    Ok((stamp, clock.draw(&mut seat)?))
}

/// One thread draws and makes a note, and another learns it. Of what was handed over only the type's facts are known.
fn hand_over<N: ClockName, R: Threads>(
    rt: &R,
    clock: &Clock,
    maker: Seat,
    taker: Seat,
) -> Result<(u64, u64), ClockSpent>
    requires clock { clock.now.id ≡ N.clock }
    requires maker { maker.clock ≡ N.clock }
    requires taker { taker.clock ≡ N.clock }
    ensures { IfOk result (λ stamps. stamps.0 < stamps.1) }
{
    let (made, ()) = thread::join(
        rt,
        move || -> Result<Brought<N>, ClockSpent>
            requires { (clock.now.id ≡ N.clock) × (maker.clock ≡ N.clock) }
        { bring(clock, maker) },
        || (),
    );
    draw_above(clock, taker, made?)
}

#[test]
fn a_stamp_in_a_thread_is_above_what_another_brought(rt: HostRuntime) -> Result<(), Fail> {
    let (clock, mut seats) = Clock::new(rt.alloc(), 2, 2)?;
    let (Some(maker), Some(taker)) = (seats.pop(), seats.pop()) else {
        panic!(rt; "two seats");
    };
    assert_eq!(rt;
        hand_over::<Brand, HostRuntime>(&rt, &clock, maker, taker),
        Ok((0, 1))
    );
    Ok(())
}
