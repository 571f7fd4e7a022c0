// How a refusal reads in C.
ghost use Rattle.std.specs.Prelude.{◌≡◌};
ghost use Rattle.records.specs.Faults.{record_ground};
ghost use Rattle.rules.specs.Faults.{rule_ground};
ghost use Rattle.watches.specs.Faults.{watch_ground};
ghost use Rattle.firmware.specs.Refusals.{layer_number, unrefused, refused};

use faults::{Fault, Ground, Layer, Place};
use records::RecordFault;
use rules::RuleFault;
use watches::WatchFault;

// Why a call is refused: the ground's number, 0 where nothing is refused, and the layer that refuses. Of entry, head and poll
// those are set that the place at fault names; the others are 0.
#[repr(C)]
#[derive(Clone, Copy, PartialEq, Eq, Debug)]
pub struct Refusal {
    pub number: u32,
    pub layer: u32,
    pub entry: usize,
    pub head: u32,
    pub poll: u32,
}

fn number_of(layer: Layer) -> u32
    ensures { result ≡ layer_number layer }
{
    match layer {
        Layer::Rule => 1,
        Layer::Record => 2,
        Layer::Log => 3,
        Layer::Watch => 4,
        Layer::Sheet => 5,
    }
}

impl Refusal {
    // Nothing is refused.
    pub(crate) fn none() -> Refusal
        ensures { result ≡ unrefused }
    {
        Refusal {
            number: 0,
            layer: 0,
            entry: 0,
            head: 0,
            poll: 0,
        }
    }

    // The refusal by a ground.
    fn of(ground: Ground) -> Refusal
        ensures { result ≡ refused ground }
    {
        let plain = Refusal {
            number: ground.number as u32,
            layer: number_of(ground.layer),
            ..Refusal::none()
        };
        match ground.place {
            Place::Whole | Place::Byte(_) => plain,
            Place::Entry(entry) => Refusal { entry, ..plain },
            Place::Reading { head, poll } => Refusal {
                head,
                poll,
                ..plain
            },
        }
    }
}

impl From<RuleFault> for Refusal {
    ghost from_gives = { λ fault r. r ≡ refused (rule_ground fault) };

    fn from(fault: RuleFault) -> Refusal {
        Refusal::of(fault.ground())
    }
}

impl From<RecordFault> for Refusal {
    ghost from_gives = { λ fault r. r ≡ refused (record_ground fault) };

    fn from(fault: RecordFault) -> Refusal {
        Refusal::of(fault.ground())
    }
}

impl From<WatchFault> for Refusal {
    ghost from_gives = { λ fault r. r ≡ refused (watch_ground fault) };

    fn from(fault: WatchFault) -> Refusal {
        Refusal::of(fault.ground())
    }
}
