//! HTTP/1.1 on the loopback address: one request a connection, one request after the other.

ghost use Rattle.std.specs.Prelude.{◌≡◌, ◌≤◌, ◌-◌, ◌^◌, ◌⊎◌, ℕ, List, [], false, IsTrue};
ghost use Rattle.std.specs.Prelude.{Some, Err, IfSome, IsNone, IsSomeAnd, IfErr};
ghost use Rattle.sqlite.specs.State.{HasCleanDisk};
ghost use Rattle.sqlite.specs.Held.{state};
ghost use Rattle.sqlite_trees.specs.View.{doubt};
ghost use Rattle.bike_operator.specs.Operator.{Operator};
ghost use Rattle.bike_schema.specs.Stands.{AllLeft, TreesStandFor};
ghost use Rattle.bike_desk.specs.Desk.{desk_state, OfOperator};
ghost use Rattle.bike_http_connection.specs.Asking.{AsksAs};
ghost use Rattle.bike_server.specs.Visits.{IsOpen};
ghost use Rattle.bike_server.specs.Answering.{ExchangesOne, ServesInOrder};
ghost use Rattle.bike_server.specs.Listening.{end_of_serving, EndsListening};
ghost use Rattle.bike_server.specs.Serving.{ServesRequests, StandsAfterRequests};

use crate::arrivals::{AcceptFault, Arrival, Arrivals};
use crate::connections::closing_time;
use crate::fault::ServerFault;
use bike_audit::adopt;
use bike_console::Fault;
use bike_desk::Desk;
use bike_http::serve_one;
use bike_http_connections::Connections;
use bike_http_head::Routes;
use bike_http_sockets::{Loopback, has_descriptors};
use bike_stream::write_whole;
use sqlite::{Alter, Connection};
use std::alloc::Global;
use std::io::{ErrorKind, Write};
use std::net::SocketAddr;

/// Serves the one request of a connection, and lets it go. What fails of the connection alone is told to nobody: the
/// client sees it end. What was accepted of it stands, and is answered as before when it is sent again.
fn serve_arrival<S: Alter, A: Arrivals>(
    alloc: Global,
    desk: &mut Desk<S>,
    routes: &Routes,
    arrivals: &mut A,
    arrival: Arrival<A::Client, A::Reader, A::Writer>,
)
    requires { IsOpen (A.known arrivals.old) }
    ensures clean { doubt (desk_state S.Store desk.old).is_clean ≤ doubt (desk_state S.Store desk.new).is_clean }
    ensures kept { OfOperator S.Store desk.old desk.new (λ s. ServesRequests S.Store desk.new s) }
    ensures served { OfOperator S.Store desk.old desk.new (λ s. (read input : List ℕ)
        → A.Reader.remaining arrival.reader ≡ Some read → AsksAs read input
        → A.Writer.contents arrival.writer ≡ Some []
        → ExchangesOne S.Store desk.new s (A.connected arrival.client)
        (record { moment = arrival.moment; input = input }) (A.known arrivals.old) (A.known arrivals.new)) }
{
    let Arrival {
        moment,
        client,
        mut reader,
        mut writer,
    } = arrival;
    let served = serve_one(alloc, desk, routes, moment, &mut reader, &mut writer);
    arrivals.finish(client, writer, served);
}

/// Accepts so many connections, or all where there are fewer, and serves one request of each, at the moment of its
/// acceptance. It ends early where accepting fails (`AcceptFailed`) and where the desk is stopped (`StoreFailed`); a
/// connection that fails ends nothing.
///
/// Whatever clients send and whatever becomes of the connections, a desk at an operator is at it after some list of
/// good requests; or it is stopped, and all that a crash may leave stands for the operator after such a list or after
/// one request more. Where it is known what comes, each connection that is accepted is answered once, in the order in
/// which they are accepted, as the operator after those before it answers; the others are ahead still, or were lost
/// with nothing asked. Its answer goes to the client who asked, once, and to nobody else. What wasn't sent whole is
/// told to `finish` as a failure.
pub fn serve_count<S: Alter, A: Arrivals>(
    alloc: Global,
    desk: &mut Desk<S>,
    routes: &Routes,
    arrivals: &mut A,
    count: u64,
) -> Result<(), ServerFault>
    // Whatever comes: the desk, or a crash, leaves the operator after good requests.
    ensures clean { doubt (desk_state S.Store desk.old).is_clean ≤ doubt (desk_state S.Store desk.new).is_clean }
    ensures kept { OfOperator S.Store desk.old desk.new (λ s. ServesRequests S.Store desk.new s) }
    // `StoreFailed` is told of a stopped desk, and wherever one stops.
    ensures stopped { result ≡ Err ServerFault.StoreFailed → IsTrue desk.new.is_stopped }
    ensures goes_on { desk.old.is_stopped ≡ false → IsTrue desk.new.is_stopped → result ≡ Err ServerFault.StoreFailed }
    // Where it is known what comes: each is answered once, in order, as the operator answers.
    ensures serves { OfOperator S.Store desk.old desk.new (λ s.
        IfSome (A.known arrivals.old) (λ before. IsSomeAnd (A.known arrivals.new)
        (λ after. ServesInOrder S.Store desk.new A.may_fail s count before after result))) }
    // No other fault ends it.
    ensures faults { IfErr result (λ fault. (fault ≡ ServerFault.StoreFailed) ⊎ (fault ≡ ServerFault.AcceptFailed)) }
{
    for _turn in 0..count {
        match arrivals.accept() {
            Ok(Some(arrival)) => serve_arrival(alloc, desk, routes, arrivals, arrival),
            Ok(None) => return Ok(()),
            Err(AcceptFault) => return Err(ServerFault::AcceptFailed),
        }
        if desk.stopped() {
            return Err(ServerFault::StoreFailed);
        }
    }
    Ok(())
}

/// Listens for so many connections on this port of 127.0.0.1; `BindFailed` where it can't be listened on, and
/// `AcceptFailed` where the process may not have the descriptors that they take.
fn bind<'a>(rt: &'a HostRuntime, port: u16, count: u64) -> Result<Loopback<'a>, ServerFault> {
    if !has_descriptors(rt) {
        return Err(ServerFault::AcceptFailed);
    }
    match Loopback::bind(rt, port, count) {
        Ok(network) => Ok(network),
        Err(error) if error.kind() == ErrorKind::OutOfMemory => Err(ServerFault::OutOfMemory),
        Err(_) => Err(ServerFault::BindFailed),
    }
}

/// Tells the address that is listened on; `WriteFailed` where the output fails.
fn tell_address<W: Write>(
    rt: &HostRuntime,
    address: SocketAddr,
    writer: &mut W,
) -> Result<(), ServerFault> {
    let line = format!(in rt.alloc(); "listening {address}\n")?;
    match write_whole(writer, line.as_bytes()) {
        Ok(()) => Ok(()),
        Err(_) => Err(ServerFault::WriteFailed),
    }
}

/// Listens for so many connections on this port of 127.0.0.1, and tells it.
fn begin<'a, W: Write>(
    rt: &'a HostRuntime,
    port: u16,
    count: u64,
    writer: &mut W,
) -> Result<Connections<Loopback<'a>>, ServerFault> {
    let network = bind(rt, port, count)?;
    let Ok(address) = network.local_addr() else {
        return Err(ServerFault::BindFailed);
    };
    let Ok(connections) = Connections::new(rt.alloc(), network) else {
        return Err(ServerFault::OutOfMemory);
    };
    tell_address(rt, address, writer)?;
    Ok(connections)
}

/// How many connections are served: so many, or more than ever come.
fn count_of(count: Option<u32>) -> u64
    ensures given { IfSome count (λ given. result ≡ given) }
    ensures endless { IsNone count → result ≡ 2 ^ 64 - 1 }
{
    match count {
        Some(count) => u64::from(count),
        None => u64::MAX,
    }
}

/// Listens on this port of 127.0.0.1 and tells it, and serves so many connections, or without end; then it sends the
/// answers under way.
fn listen_at<S: Alter, W: Write>(
    rt: &HostRuntime,
    desk: &mut Desk<S>,
    routes: &Routes,
    port: u16,
    count: Option<u32>,
    writer: &mut W,
) -> Result<(), ServerFault>
    ensures clean { doubt (desk_state S.Store desk.old).is_clean ≤ doubt (desk_state S.Store desk.new).is_clean }
    ensures kept { OfOperator S.Store desk.old desk.new (λ s. ServesRequests S.Store desk.new s) }
{
    let count = count_of(count);
    let mut connections = begin(rt, port, count, writer)?;
    let served = serve_count(rt.alloc(), desk, routes, &mut connections, count);
    let _ = connections.close(closing_time(served.is_ok()));
    served
}

/// Listens with all routes, and serves.
fn listen_all<S: Alter, W: Write>(
    rt: &HostRuntime,
    desk: &mut Desk<S>,
    port: u16,
    count: Option<u32>,
    writer: &mut W,
) -> Result<(), ServerFault>
    ensures clean { doubt (desk_state S.Store desk.old).is_clean ≤ doubt (desk_state S.Store desk.new).is_clean }
    ensures kept { OfOperator S.Store desk.old desk.new (λ s. ServesRequests S.Store desk.new s) }
{
    let Ok(routes) = Routes::new(rt.alloc()) else {
        return Err(ServerFault::OutOfMemory);
    };
    let served = listen_at(rt, desk, &routes, port, count, writer);
    drop(routes);
    served
}

/// How listening ends, as serving ended.
fn ended(served: Result<(), ServerFault>) -> Result<u64, Fault>
    ensures { result ≡ end_of_serving served }
{
    match served {
        Ok(()) => Ok(0),
        Err(fault) => Err(Fault::from(fault)),
    }
}

/// Takes the connection, which is outside a transaction, into service, listens on this port of 127.0.0.1 (0: a free
/// one), tells that by the line `listening 127.0.0.1:PORT`, and serves so many connections, or without end. Gives the
/// connection back, with the fault where one ended that: a port that can't be bound is `BindFailed`. Where the
/// connection can't be taken into service, the fault tells why, and nothing is written or listened to.
///
/// Where the database stood for an operator, all that a crash may then leave stands for it after some list of good
/// requests.
pub fn listen<S: Alter, W: Write>(
    rt: &HostRuntime,
    port: u16,
    count: Option<u32>,
    conn: Connection<S>,
    writer: &mut W,
) -> (Connection<S>, Result<u64, Fault>)
    requires { conn.in_transaction ≡ false }
    ensures clean { doubt (state S.Store conn).is_clean ≤ doubt (state S.Store result.0).is_clean }
    ensures kept { HasCleanDisk (state S.Store result.0) → (s : Operator)
        → TreesStandFor s (state S.Store conn).now.trees → IsTrue (state S.Store conn).is_open
        → AllLeft (state S.Store result.0) (StandsAfterRequests s) }
    ensures ends { EndsListening S.Store conn result.0 (W.contents writer.old) (W.contents writer.new) result.1 }
{
    match adopt(rt.alloc(), conn) {
        Ok(mut desk) => {
            let served = listen_all(rt, &mut desk, port, count, writer);
            (desk.close(), ended(served))
        }
        Err(fault) => {
            let (conn, told) = Fault::taken_from(fault);
            (conn, Err(told))
        }
    }
}
