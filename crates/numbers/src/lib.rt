// Numbers round a range, the slots of a ring, the mark word, and what is asked of a packet: the leaves that the parts stand on.
#![tactic(auto)]

pub mod inner;
pub mod packet;
