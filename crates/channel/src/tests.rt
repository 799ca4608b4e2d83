// A packet of either kind is added, grows older and is taken out as it was.
use crate::{add, fresh, take, tick};
use numbers::packet::Packet;
use rules::{BareAck, BareData, Channel, Refused, Setup};

const SETUP: Setup = Setup {
    window: 4,
    seqbits: 8,
    clockbits: 8,
    life: 5,
    rate: 3,
    seq: 0,
    sclock: 0,
    rclock: 0,
};

fn passed<P: Packet>(p: P) -> Result<(P, Channel<P>), Refused<Channel<P>>> {
    let c = add(fresh(SETUP)?, p)?;
    take(tick(c)?, 0)
}

#[test]
fn either_kind_comes_out(rt: HostRuntime) {
    let p = BareData {
        seq: 1,
        stamp: 2,
        unit: 3,
    };
    assert!(rt; passed(p).is_ok_and(|(q, c)| q == p && c.count == 0));
    let p = BareAck {
        ack: 1,
        window: 2,
        stamp: 3,
    };
    assert!(rt; passed(p).is_ok_and(|(q, c)| q == p && c.count == 0));
}
