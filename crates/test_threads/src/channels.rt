//! Links over channels.
use ring_node::{ChannelLink, Link, OfferPool, Reached, channel_link};
use std::sync::Wait;
use std::test::Fail;
use std::thread;
use test_values::checks::expect;

#[test]
fn a_server_ends_with_its_link(rt: HostRuntime) -> Result<(), Fail> {
    let alloc = rt.alloc();
    let pool = OfferPool::new(alloc);
    let (link, server) = channel_link(alloc)?;
    link.stop(&rt);
    server.run(&rt, &pool);
    let (link, server) = channel_link(alloc)?;
    drop(link);
    server.run(&rt, &pool);
    Ok(())
}

#[test]
fn a_link_without_its_server_fails(rt: HostRuntime) -> Result<(), Fail> {
    let alloc = rt.alloc();
    let (mut link, server) = channel_link(alloc)?;
    drop(server);
    let is_lost = matches!(link.offer(&rt), Reached::Lost);
    expect(is_lost, "the offer is lost")?;
    let is_lost = matches!(link.ask(&rt, b"no ask"), Reached::Lost);
    expect(is_lost, "the answer is lost")?;
    expect(link.failures() == 2, "both failures are counted")
}

#[test]
fn a_server_refuses_what_is_no_ask(rt: HostRuntime) -> Result<(), Fail> {
    let alloc = rt.alloc();
    let pool = OfferPool::new(alloc);
    let (link, server) = channel_link(alloc)?;
    let (served, pool) = (&server, &pool);
    let (failures, ()) = thread::join(&rt, || ask_badly(&rt, link), || served.run(&rt, pool));
    expect(failures == 1, "only the lost call is counted")
}

/// Asks with bytes that aren't an ask, and for an offer that doesn't exist. Returns the number of failures of the link.
fn ask_badly<R: Wait>(rt: &R, link: ChannelLink) -> u64 {
    let mut link = link;
    let lost = matches!(link.ask(rt, b"no ask"), Reached::Lost);
    let gone = matches!(link.offer(rt), Reached::Gone);
    let failures = if lost && gone { link.failures() } else { 0 };
    link.stop(rt);
    failures
}
