//! A ring between two threads: what the one sends comes to the other, in order.
use crate::packets::{SEND, send_packet, take_packet};
use geo_base::Memory;
use link_rings::{RingSend, RingTake, ring};
use std::alloc::Global;
use std::test::Fail;
use std::thread;

/// How many packets cross. The ring has places for two of them, so that each thread waits for the other.
const PACKETS: u64 = 2000;

/// How often a thread tries at most, so that the test ends in any case.
const TRIES: u64 = 100_000_000;

/// Sends the packets by their stamps, each as soon as there is room, and answers how many were sent.
fn send_all(alloc: Global, end: RingSend) -> Result<u64, Memory> {
    let mut end = end;
    let sent = send_each(alloc, &mut end);
    drop(end);
    sent
}

fn send_each(alloc: Global, end: &mut RingSend) -> Result<u64, Memory> {
    let mut sent = 0u64;
    for _ in 0..TRIES {
        if sent >= PACKETS {
            break;
        }
        if send_packet(alloc, end, sent, &SEND)? {
            sent += 1;
        } else {
            thread::yield_now();
        }
    }
    Ok(sent)
}

/// Takes packets while each is the next one, and answers how many were taken.
fn take_all(end: RingTake) -> Result<u64, Memory> {
    let mut end = end;
    let taken = take_each(&mut end);
    drop(end);
    taken
}

fn take_each(end: &mut RingTake) -> Result<u64, Memory> {
    let mut taken = 0u64;
    for _ in 0..TRIES {
        if taken >= PACKETS {
            break;
        }
        match take_packet(end, taken, &SEND)? {
            None => thread::yield_now(),
            Some(true) => taken += 1,
            Some(false) => break,
        }
    }
    Ok(taken)
}

#[test]
fn packets_cross_between_two_threads(rt: HostRuntime) -> Result<(), Fail> {
    let alloc = rt.alloc();
    let (sends, takes) = ring(alloc, 10, 10)?;
    let (sent, taken) = thread::join(&rt, move || send_all(alloc, sends), move || take_all(takes));
    assert_eq!(rt; sent?, PACKETS);
    assert_eq!(rt; taken?, PACKETS);
    Ok(())
}
