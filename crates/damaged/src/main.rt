// States damaged in each way that makes one malformed, setups that are not admitted, and packets with a field out of range, handed to
// every public operation; beside them what stands at the very edge of each limit. A line for each says what the operations answer.
#![tactic(auto)]

mod answers;
mod base;
mod benches;
mod channels;
mod packets;
mod receivers;
mod senders;
mod setups;

use std::io;

fn main(rt: HostRuntime) -> io::Result<()> {
    println!(&rt;
        "A + stands where the state or the lent row that comes back is not the one that was handed over; malformed is what the part's own test says."
    )?;
    println!(&rt;
        "The setup, where none is named: window 2, seqbits 3, clockbits 3, life 1, rate 2, seq 7, sclock 7, rclock 2; with RW 4, and where setups differ: 4, 4, 4, 2, 3, 7, 7, 2."
    )?;
    println!(&rt;
        "Bench, its other parts as their own headings say: accept 500, send 0, data 0, room, ack, hear 0, dropd 0, dropa 0, dupd 0, dupa 0, tick, data 0 to a row of one place."
    )?;
    setups::show(&rt)?;
    setups::show_differing(&rt)?;
    senders::show(&rt)?;
    receivers::show(&rt)?;
    channels::show_datas(&rt)?;
    channels::show_acks(&rt)?;
    packets::show_out_of_range(&rt)?;
    packets::show_short_rows(&rt)
}
