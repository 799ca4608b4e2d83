// What the damages start from: well-formed states in which much is held, at either of two setups.
use rules::{Aged, BareAck, BareData, Bench, Channel, Receiver, Recent, Sender, Setup};

// What was handed over, with other values in some of its places.
macro_rules! with {
    ($whole:expr, $($field:ident $(.$inner:ident)? $([$i:literal])? = $value:expr),+) => {{
        let mut next = $whole;
        $(next.$field $(.$inner)? $([$i])? = $value;)+
        next
    }};
}

pub(crate) use with;

// RW 2, NS 8, NC 8, L 1 and B 2; NS and NC are as small as they may be.
pub const SMALL: Setup = Setup {
    window: 2,
    seqbits: 3,
    clockbits: 3,
    life: 1,
    rate: 2,
    seq: 7,
    sclock: 7,
    rclock: 2,
};

// RW 4, NS 16, NC 16, L 2 and B 3: any one of the eight numbers can be another.
pub const WIDE: Setup = Setup {
    window: 4,
    seqbits: 4,
    clockbits: 4,
    life: 2,
    rate: 3,
    seq: 7,
    sclock: 7,
    rclock: 2,
};

// A recent that is none.
pub const NONE: Recent = Recent {
    held: false,
    stamp: 0,
    age: 0,
};

// Packets that both setups allow, and packets that no setup in this program does.
pub const DATA: BareData = BareData {
    seq: 4,
    stamp: 5,
    unit: 500,
};

pub const ACK: BareAck = BareAck {
    ack: 5,
    window: 2,
    stamp: 4,
};

pub const FAR_DATA: BareData = BareData {
    seq: u32::MAX,
    stamp: u32::MAX,
    unit: 500,
};

pub const FAR_ACK: BareAck = BareAck {
    ack: u32::MAX,
    window: u32::MAX,
    stamp: u32::MAX,
};

// A channel with a packet in place j.
pub fn placed<P: Copy>(c: Channel<P>, j: usize, packet: P, age: u32) -> Channel<P> {
    let mut next = c;
    if let Some(place) = next.packets.get_mut(j) {
        *place = Aged { packet, age };
    }
    next
}

// One unit outstanding of the two that are granted, and one accepted in this tick.
pub fn sender(setup: Setup) -> Sender {
    let s = Sender {
        setup,
        una: 4,
        outstanding: 1,
        granted: 2,
        accepted: 1,
        clock: 5,
        recent: Recent {
            held: true,
            stamp: 4,
            age: 1,
        },
        slots: [0; 64],
    };
    with!(s, slots[0] = 500)
}

// A window of 2, and the later of its two units held already.
pub fn receiver(setup: Setup) -> Receiver {
    let r = Receiver {
        setup,
        nxt: 4,
        window: 2,
        clock: 3,
        recent: Recent {
            held: true,
            stamp: 5,
            age: 1,
        },
        slots: [0; 64],
        marks: 0b10,
    };
    with!(r, slots[1] = 600)
}

pub fn empty<P: Copy>(setup: Setup, nothing: P) -> Channel<P> {
    Channel {
        setup,
        packets: [Aged {
            packet: nothing,
            age: 0,
        }; 32],
        count: 0,
    }
}

pub fn datas(setup: Setup) -> Channel<BareData> {
    let c = empty(setup, BareData::default());
    let c = placed(c, 0, DATA, 0);
    let c = placed(c, 1, with!(DATA, seq = 5), 1);
    with!(c, count = 2)
}

pub fn acks(setup: Setup) -> Channel<BareAck> {
    let c = empty(setup, BareAck::default());
    let c = placed(c, 0, ACK, 1);
    let c = placed(c, 1, with!(ACK, ack = 4), 0);
    with!(c, count = 2)
}

pub fn bench(setup: Setup) -> Bench {
    Bench {
        sender: sender(setup),
        receiver: receiver(setup),
        datas: datas(setup),
        acks: acks(setup),
    }
}

// The all-zero bench, whose parts are the all-zero parts.
pub fn zero() -> Bench {
    let setup = Setup::default();
    Bench {
        sender: Sender {
            una: 0,
            outstanding: 0,
            granted: 0,
            accepted: 0,
            clock: 0,
            recent: NONE,
            slots: [0; 64],
            setup,
        },
        receiver: Receiver {
            nxt: 0,
            window: 0,
            clock: 0,
            recent: NONE,
            slots: [0; 64],
            marks: 0,
            setup,
        },
        datas: empty(setup, BareData::default()),
        acks: empty(setup, BareAck::default()),
    }
}
