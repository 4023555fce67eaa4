//! An echo server over sockets, with one selector. It serves two connections, which this program makes itself; its loop
//! sets no bound on how many.
#![tactic(auto)]

use nio::net::{ByteBuffer, CheckedNet, Got, MioNet, Net};
use nio::{Addr, Caller, ChanId, Kind, Ops, USUAL_LIMITS, Words};
use std::collections::BTreeMap;
use std::io::{Result, Write, read_to_string};
use std::net::{OpenListener, OpenStream, Shutdown, TcpListener, TcpStream};

fn main(rt: HostRuntime) -> anyhow::Result<()> {
    let (words, pass) = Words::make(rt.alloc(), USUAL_LIMITS)?;
    let mut caller = Caller::first(&words, pass);
    let (sockets, _bell) = MioNet::make(rt, rt.alloc())?;
    let mut net = CheckedNet::make(rt.alloc(), sockets, USUAL_LIMITS.channels)?;
    let sel = caller.open_selector()?;
    let listener = caller.open_channel(Kind::Listener)?;
    caller.register_non_blocking(&rt, sel, listener, Ops::ACCEPT, 0)?;
    let ip = [127, 0, 0, 1];
    let port = TcpListener::bind(&rt, "127.0.0.1:0")?.local_addr()?.port();
    net.listen(listener, Addr { ip, port })?;
    let clients = (send(&rt, port, "hello")?, send(&rt, port, "again")?);

    // What came on each link and isn't written back yet.
    let mut buffers = BTreeMap::new(rt.alloc());
    let mut link = caller.open_channel(Kind::Stream)?;
    // A selection by the selector's list looks only at the keys that were touched since the last.
    caller.take_list(rt.alloc(), sel);
    let mut open: u32 = 2;
    for _ in rt.forever() {
        if open == 0 {
            break;
        }
        let Some((number, _)) = net.next_told() else {
            caller.select(&rt, rt.alloc(), sel, &mut net)?;
            continue;
        };
        // A poll tells numbers; what was closed in this round stands no more.
        let Some(chan) = net.channel_at(number) else {
            continue;
        };
        let Some(key) = caller.take_selected(chan, sel) else {
            continue;
        };
        if let Some(buffer) = buffers.get_mut(&number.0) {
            if let Some(ops) = echo(&mut net, chan, buffer) {
                caller.set_interest(key, ops)?;
            } else {
                buffers.remove(&number.0);
                net.close(chan);
                caller.close_channel(chan);
                open -= 1;
            }
        } else if net.accept(listener, link)? {
            buffers.insert(link.number.0, ByteBuffer::with_capacity(rt.alloc(), 512)?)?;
            caller.register_non_blocking(&rt, sel, link, Ops::READ, 0)?;
            link = caller.open_channel(Kind::Stream)?;
        }
    }
    let first = read_to_string(rt.alloc(), clients.0)?;
    let second = read_to_string(rt.alloc(), clients.1)?;
    println!(rt; "{first} {second}")?;
    Ok(())
}

/// Reads from a link, or writes what came back. Answers what it is to be ready for next; none at its end or a fault.
fn echo<N: Net + Drop>(
    net: &mut CheckedNet<N>,
    link: ChanId,
    buffer: &mut ByteBuffer,
) -> Option<Ops> {
    if !buffer.is_empty() {
        net.write_buf(link, buffer).ok()?;
    } else if net.read_buf(link, buffer).ok()? == Got::End {
        return None;
    }
    Some(buffer.interest())
}

/// Connects, and sends a text and its end.
fn send<R: std::net::Net>(rt: &R, port: u16, text: &str) -> Result<R::Stream> {
    let mut stream = TcpStream::connect(rt, ("127.0.0.1", port))?;
    stream.write_all(text.as_bytes())?;
    stream.shutdown(Shutdown::Write)?;
    Ok(stream)
}
