//! Exchanges whose bytes come and go in pieces: in every order of a few pieces, and byte by byte in many.

use crate::simulated::{Client, PAUSE, SimulatedNetwork};
use bike_fixed::Moment;
use bike_http_connection::{Exchange, RequestReader, ResponseBuffer};
use bike_http_connections::Connections;
use std::alloc::Global;
use std::collections::VecDeque;
use std::io::{ErrorKind, Read, Write};

/// How many bytes a request has, and its answer.
const LENGTH: u8 = 18;

/// How many bytes a piece has: three of them are a request.
const PIECE: u8 = 6;

/// In how many orders nine pieces of three clients can come, told as digits to the base of three.
const ORDERS: u32 = 19_683;

/// In how many orders bytes of two clients come, and those of three.
const BYTE_ORDERS: u64 = 2_000;

/// How many times accepting fails at most.
const MOST_FAILURES: u64 = 20;

/// How many steps a client has at most: two for each byte of its own, and one for each of two others.
const MOST_STEPS: usize = 72;

/// The steps by which a client sends and takes.
#[derive(Clone, Copy)]
struct Steps {
    steps: [u8; MOST_STEPS],
    count: usize,
}

impl Steps {
    /// None yet.
    fn new() -> Steps {
        Steps {
            steps: [PAUSE; MOST_STEPS],
            count: 0,
        }
    }

    /// Adds a step.
    fn push(&mut self, step: u8) {
        if self.count < MOST_STEPS {
            self.steps[self.count] = step;
            self.count += 1;
        }
    }

    /// Adds a turn: with so many bytes where it is this client's own, and else with nothing.
    fn push_turn(&mut self, is_own: bool, bytes: u8) {
        if is_own {
            self.push(bytes);
        }
        self.push(PAUSE);
    }

    /// All that were added.
    fn as_slice(&self) -> &[u8] {
        &self.steps[..self.count.min(MOST_STEPS)]
    }
}

/// The steps of three clients who send a piece in each of nine turns, a turn belonging to the client that a digit of
/// the order names. None where not each has three turns.
fn steps_of_pieces(order: u32) -> Option<[Steps; 3]> {
    let mut steps = [Steps::new(), Steps::new(), Steps::new()];
    let mut own: [u32; 3] = [0; 3];
    let mut left = order;
    for _turn in 0..9 {
        for client in 0..3 {
            let is_own = left % 3 == client;
            let at = usize::try_from(client).ok()?;
            own[at] = own[at].saturating_add(u32::from(is_own));
            steps[at].push_turn(is_own, PIECE);
        }
        left /= 3;
    }
    if own == [3; 3] { Some(steps) } else { None }
}

/// The next of a row of numbers without an order that one sees.
fn next_number(seed: &mut u64) -> u64 {
    *seed = seed
        .wrapping_mul(6_364_136_223_846_793_005)
        .wrapping_add(1_442_695_040_888_963_407);
    *seed >> 33
}

/// Which client has the next turn: any of those who have bytes left.
fn next_client(seed: &mut u64, left: &mut [u8; 3]) -> Option<usize> {
    let first = next_number(seed);
    for further in 0..3 {
        let client = usize::try_from((first % 3 + further) % 3).ok()?;
        if left[client] > 0 {
            left[client] -= 1;
            return Some(client);
        }
    }
    None
}

/// The steps of three clients who send a byte in each turn of theirs. The third has none where only two come.
fn steps_of_bytes(seed: u64, third: u8) -> Option<[Steps; 3]> {
    let mut steps = [Steps::new(), Steps::new(), Steps::new()];
    let mut seed = seed;
    let mut left = [LENGTH, LENGTH, third];
    for _turn in 0..MOST_STEPS {
        let Some(own) = next_client(&mut seed, &mut left) else {
            return Some(steps);
        };
        for client in 0..3 {
            steps[client].push_turn(client == own, 1);
        }
    }
    None
}

/// Reads a request, and writes it back as its answer.
fn answer(request: &mut RequestReader, answer: &mut ResponseBuffer) -> bool {
    let mut bytes = [0; 64];
    let mut length = 0;
    for _turn in 0..64 {
        if length >= bytes.len() {
            return false;
        }
        match request.read(&mut bytes[length..]) {
            Ok(0) => return answer.write_all(&bytes[..length]).is_ok(),
            Ok(count) => length = (length + count).min(64),
            Err(error) if error.kind() == ErrorKind::WouldBlock => {
                return answer.write_all(&bytes[..length]).is_ok();
            }
            Err(_) => return false,
        }
    }
    false
}

/// Answers all that come; how many.
fn answer_all(connections: &mut Connections<SimulatedNetwork<'_>>) -> Option<u32> {
    let mut count: u32 = 0;
    for _turn in 0..64 {
        match connections.next() {
            Ok(Some((exchange, mut text))) => {
                let Exchange { peer, mut request } = exchange;
                if !answer(&mut request, &mut text) {
                    return None;
                }
                connections.finish(peer, text, false);
                count = count.saturating_add(1);
            }
            Ok(None) => return Some(count),
            Err(_) => return None,
        }
    }
    None
}

/// Two or three exchanges, each sent and taken by its steps, where accepting fails so many times first; whether each is
/// answered with its own request.
fn are_answered(alloc: Global, steps: &[Steps; 3], most: u32, failures: u64) -> Option<bool> {
    let mut first = Vec::new(alloc);
    let mut second = Vec::new(alloc);
    let mut third = Vec::new(alloc);
    let moment = Moment::new(1_700_000_000)?;
    let mut clients = VecDeque::with_capacity(alloc, 3).ok()?;
    clients
        .push_back(Client {
            wait: 0,
            moment,
            input: b"G /r1 HTTP/1.1\r\n\r\n",
            sends: steps[0].as_slice(),
            takes: steps[0].as_slice(),
            is_silent: false,
            taken: &mut first,
        })
        .ok()?;
    clients
        .push_back(Client {
            wait: 0,
            moment,
            input: b"G /r2 HTTP/1.1\r\n\r\n",
            sends: steps[1].as_slice(),
            takes: steps[1].as_slice(),
            is_silent: false,
            taken: &mut second,
        })
        .ok()?;
    if most > 2 {
        clients
            .push_back(Client {
                wait: 0,
                moment,
                input: b"G /r3 HTTP/1.1\r\n\r\n",
                sends: steps[2].as_slice(),
                takes: steps[2].as_slice(),
                is_silent: false,
                taken: &mut third,
            })
            .ok()?;
    }
    let network = SimulatedNetwork::new(clients).failing(failures);
    let mut connections = Connections::new(alloc, network).ok()?;
    let count = answer_all(&mut connections)?;
    connections.close(std::time::Duration::from_secs(10)).ok()?;
    drop(connections);
    Some(
        count == most
            && first.as_slice() == b"G /r1 HTTP/1.1\r\n\r\n".as_slice()
            && second.as_slice() == b"G /r2 HTTP/1.1\r\n\r\n".as_slice()
            && (most == 2 || third.as_slice() == b"G /r3 HTTP/1.1\r\n\r\n".as_slice()),
    )
}

/// In how many orders of their pieces all three were answered.
fn answered_orders(alloc: Global) -> Option<u32> {
    let mut answered: u32 = 0;
    for order in 0..ORDERS {
        if let Some(steps) = steps_of_pieces(order) {
            if !are_answered(alloc, &steps, 3, 0)? {
                return None;
            }
            answered = answered.saturating_add(1);
        }
    }
    Some(answered)
}

/// Whether all were answered in each of many orders of the bytes of two clients, and of three.
fn are_all_answered(alloc: Global) -> Option<bool> {
    for seed in 0..BYTE_ORDERS {
        let two = steps_of_bytes(seed, 0)?;
        let three = steps_of_bytes(seed, LENGTH)?;
        if !are_answered(alloc, &two, 2, 0)? || !are_answered(alloc, &three, 3, 0)? {
            return Some(false);
        }
    }
    Some(true)
}

/// How many times accepting failed, up to the most, where all three were answered afterwards.
fn answered_after_failures(alloc: Global) -> Option<u64> {
    let steps = steps_of_bytes(0, LENGTH)?;
    for failures in 0..MOST_FAILURES {
        if !are_answered(alloc, &steps, 3, failures)? {
            return Some(failures);
        }
    }
    Some(MOST_FAILURES)
}

/// Whether a client takes its answer that sends and takes by these steps, one in each turn, and then all; none where it
/// takes a part.
fn is_answered(alloc: Global, sends: &[u8], takes: &[u8]) -> Option<bool> {
    let mut taken = Vec::new(alloc);
    let moment = Moment::new(1_700_000_000)?;
    let mut clients = VecDeque::with_capacity(alloc, 1).ok()?;
    clients
        .push_back(Client {
            wait: 0,
            moment,
            input: b"G /r1 HTTP/1.1\r\n\r\n",
            sends,
            takes,
            is_silent: false,
            taken: &mut taken,
        })
        .ok()?;
    let mut connections = Connections::new(alloc, SimulatedNetwork::new(clients)).ok()?;
    answer_all(&mut connections)?;
    drop(connections);
    if taken.is_empty() {
        return Some(false);
    }
    if taken.as_slice() == b"G /r1 HTTP/1.1\r\n\r\n".as_slice() {
        Some(true)
    } else {
        None
    }
}

/// A turn takes a hundredth of a second.
#[test]
fn a_client_has_ten_seconds(rt: HostRuntime) {
    assert_eq!(rt; is_answered(rt.alloc(), &[PAUSE; 990], &[]), Some(true));
    assert_eq!(rt; is_answered(rt.alloc(), &[PAUSE; 1010], &[]), Some(false));
    assert_eq!(rt; is_answered(rt.alloc(), &[], &[PAUSE; 990]), Some(true));
    assert_eq!(rt; is_answered(rt.alloc(), &[], &[PAUSE; 1010]), Some(false));
}

#[test]
fn three_exchanges_where_accepting_fails_first(rt: HostRuntime) {
    assert_eq!(rt; answered_after_failures(rt.alloc()), Some(MOST_FAILURES));
}

#[test]
fn three_exchanges_in_every_order_of_their_pieces(rt: HostRuntime) {
    assert_eq!(rt; answered_orders(rt.alloc()), Some(1680));
}

#[test]
fn two_and_three_exchanges_byte_by_byte(rt: HostRuntime) {
    assert_eq!(rt; are_all_answered(rt.alloc()), Some(true));
}
