//! Queues whose answers come from outside, and that each call comes through with ample memory.

use crate::queue::Queue;
use object_id::NoMemory;
use std::alloc::Global;
use std::test::Fail;

// A row: what it shows; the steps, + with a request's number and its first and last index, or - with the number of one
// that is done; after each step whether each request that isn't done may run, in ascending number.
// The rows before the drawn ones were worked out by hand. The drawn ones were drawn at random and answered by a program
// in Python that was written apart from this one.
const QUEUES: &[u8] = b"one alone;+135;y\n\
the same index;+133+233;y.yn\n\
neighbours;+112+234;y.yy\n\
its last index is the other's first;+113+235;y.yn\n\
its first index is the other's last;+135+213;y.yn\n\
within the other;+119+244;y.yn\n\
around the other;+144+219;y.yn\n\
a later one blocks nothing;+144+219+300;y.yn.yny\n\
what is done blocks nothing;+133+233-100;y.yn.y\n\
one that waits blocks too;+103+236+369;y.yn.ynn\n\
until it is done;+103+236+369-200;y.yn.ynn.yy\n\
apart from both;+103+236+377;y.yn.yny\n\
the second of two that block is done;+122+233+323-200;y.yy.yyn.yn\n\
both are done;+122+233+323-200-100;y.yy.yyn.yn.y\n\
earlier is what was pushed before;+255+155;y.ny\n\
a number again, behind the others;+111+211-100+111;y.yn.y.ny\n\
drawn 1;+124+214-100+333-300-200;y.yn.y.yn.y.\n\
drawn 2;+166+211+303+400-200-100+547+622;y.yy.yyn.yynn.yyn.yn.yny.ynyn\n\
drawn 3;+134-100+203-200+357+478-300+533;y..y..y.yn.y.yy\n\
drawn 4;+147+257-100-200+323-300+466+514;y.yn.y..y..y.yy\n\
drawn 5;+156+279+311+477-300+578+655+755;y.yy.yyy.yyyn.yyn.yynn.yynnn.yynnnn\n\
drawn 6;+113-100+222+377-300+424+546+666;y..y.yy.y.yn.ynn.ynnn\n\
drawn 7;+111-100+202+323-200;y..y.yn.y\n\
drawn 8;+158+225+302+468+513+600-200;y.yn.ynn.ynnn.ynnnn.ynnnnn.yynnn\n\
drawn 9;+122-100+211+312+411+523+657;y..y.yn.ynn.ynnn.ynnny\n\
drawn 10;+113+279+311-200;y.yy.yyn.yn\n\
drawn 11;+146+225-200-100+344+447+523+655+733;y.yn.y..y.yn.yny.ynyn.ynynn\n\
drawn 12;+133+255+346-300+457+556-100;y.yy.yyn.yy.yyn.yynn.ynn\n\
drawn 13;+177-100+202+355+413;y..y.yy.yyn\n\
drawn 14;+135+267-200+311-100-300+425+578-400;y.yy.y.yy.y..y.yy.y\n\
drawn 15;+100+224+333-100;y.yy.yyn.yn\n\
drawn 16;+136-100+222+357+469-200;y..y.yy.yyn.yn\n\
drawn 17;+102+200-200+314-300+414-100-400;y.yn.y.yn.y.yn.y.\n\
drawn 18;+179-100+278+334+479+547+635-200;y..y.yy.yyn.yynn.yynnn.yynn\n\
drawn 19;+178-100+266-200+311+455-300;y..y..y.yy.y\n\
drawn 20;+133+277+333+467+556-300-500;y.yy.yyn.yynn.yynnn.yynn.yyn\n\
drawn 21;+102-100+211+333-300-200+444;y..y.yy.y..y\n\
drawn 22;+146-100+255-200+366-300+412;y..y..y..y\n\
drawn 23;+133-100+277-200;y..y.\n\
drawn 24;+122+233+344-200+434+523;y.yy.yyy.yy.yyn.yynn";

fn digit(byte: u8) -> u32 {
    u32::from(byte.wrapping_sub(b'0'))
}

/// Makes a step of four letters; false where it can't be made.
fn make(queue: &mut Queue, step: &[u8]) -> Result<bool, NoMemory> {
    let [kind, req, first, last] = step else {
        return Ok(false);
    };
    let (req, first, last) = (digit(*req), digit(*first), digit(*last));
    if *kind == b'-' {
        if !queue.is_queued(req) {
            return Ok(false);
        }
        queue.done(req);
        return Ok(true);
    }
    if queue.is_queued(req) || last < first {
        return Ok(false);
    }
    queue.push(req, first, last)?;
    Ok(true)
}

/// Whether each request may run, in ascending number, behind what is there.
fn answer(queue: &Queue, answers: &mut Vec<u8>) -> Result<(), NoMemory> {
    for req in 0..10 {
        if queue.is_queued(req) {
            answers.push(if queue.may_run(req) { b'y' } else { b'n' })?;
        }
    }
    Ok(())
}

fn is_answered(alloc: Global, row: &[u8]) -> Result<bool, NoMemory> {
    let mut fields = row.split(|byte| *byte == b';').skip(1);
    let (Some(steps), Some(want)) = (fields.next(), fields.next()) else {
        return Ok(false);
    };
    let mut queue = Queue::new(alloc);
    let mut answers = Vec::new(alloc);
    for step in steps.chunks_exact(4) {
        if !make(&mut queue, step)? {
            return Ok(false);
        }
        if !answers.is_empty() {
            answers.push(b'.')?;
        }
        answer(&queue, &mut answers)?;
    }
    Ok(answers.as_slice() == want)
}

#[test]
fn answers_as_the_table(rt: HostRuntime) -> Result<(), Fail> {
    let mut rows = 0_u32;
    for row in QUEUES.split(|byte| *byte == b'\n') {
        assert!(rt; is_answered(rt.alloc(), row)?, "row {rows}");
        rows = rows.wrapping_add(1);
    }
    assert_eq!(rt; rows, 40);
    Ok(())
}

#[test]
fn takes_the_greatest_numbers(rt: HostRuntime) -> Result<(), Fail> {
    let mut queue = Queue::new(rt.alloc());
    queue.push(u32::MAX, 0, u32::MAX)?;
    queue.push(0, u32::MAX, u32::MAX)?;
    assert_eq!(rt; (queue.may_run(u32::MAX), queue.may_run(0)), (true, false));
    queue.done(u32::MAX);
    assert_eq!(rt;
        (queue.is_queued(u32::MAX), queue.may_run(0)),
        (false, true)
    );
    Ok(())
}

// Sixteen requests on one object each run at once, and the next one, which covers them all, waits for the last.
#[test]
fn sixteen_run_at_once(rt: HostRuntime) -> Result<(), Fail> {
    let mut queue = Queue::new(rt.alloc());
    for req in 0..17 {
        let (first, last) = if req < 16 { (req, req) } else { (0, 15) };
        if !queue.is_queued(req) {
            queue.push(req, first, last)?;
        }
    }
    for req in 0..16 {
        assert!(rt; queue.is_queued(req) && queue.may_run(req), "{req}");
        assert!(rt; queue.is_queued(16) && !queue.may_run(16), "{req}");
        if queue.is_queued(req) {
            queue.done(req);
        }
    }
    assert!(rt; queue.is_queued(16) && queue.may_run(16));
    Ok(())
}
