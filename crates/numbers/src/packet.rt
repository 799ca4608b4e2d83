// Packets as they are handed over, of either kind.
ghost use Rattle.std.specs.Prelude.{◌≡◌, Bool, true};
ghost use Rattle.rules.specs.declared.Setup.{Setup};
ghost use Rattle.rules.specs.Numbers.{wrapped};
ghost use Rattle.rules.specs.Parts.{no_data, no_ack, is_no_data, is_no_ack};
ghost use Rattle.rules.specs.Malformed.{right_data, right_ack};
ghost use Rattle.rules.proofs.Fits.{no_data_is, no_ack_is};

use crate::inner::in_bits;
use rules::{BareAck, BareData, Setup};

// What a channel and an end ask of a packet. No bounds `Default` and `PartialEq` in place of the first two functions: at a bound, equal
// to the default does not say that it is the same packet.
pub trait Packet: Clone + Copy {
    ghost none: { Self };

    ghost is_none: { Self → Bool };

    ghost right: { Setup → Self → Bool };

    // All fields 0: what an empty place holds.
    fn nothing() -> Self
        ensures { result ≡ none };

    fn is_nothing(self) -> bool
        ensures { result ≡ is_none self };

    // Each field is in its range.
    fn in_range(self, s: Setup) -> bool
        ensures { result ≡ right s self };

    ghost only_none: { (p : Self) → is_none p ≡ true → p ≡ none };
}

impl Packet for BareData {
    ghost none = { no_data };

    ghost is_none = { is_no_data };

    ghost right = { λ S. right_data (wrapped S) S };

    ghost only_none = { no_data_is };

    fn nothing() -> BareData {
        BareData::default()
    }

    fn is_nothing(self) -> bool {
        self == BareData::default()
    }

    fn in_range(self, s: Setup) -> bool {
        in_bits(s.seqbits, self.seq) & in_bits(s.clockbits, self.stamp)
    }
}

impl Packet for BareAck {
    ghost none = { no_ack };

    ghost is_none = { is_no_ack };

    ghost right = { λ S. right_ack (wrapped S) S };

    ghost only_none = { no_ack_is };

    fn nothing() -> BareAck {
        BareAck::default()
    }

    fn is_nothing(self) -> bool {
        self == BareAck::default()
    }

    fn in_range(self, s: Setup) -> bool {
        in_bits(s.seqbits, self.ack) & (self.window <= s.window) & in_bits(s.clockbits, self.stamp)
    }
}
