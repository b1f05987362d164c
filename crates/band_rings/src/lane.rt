//! A lane between two threads: a ring of slots that carries numbers in order.

ghost use Rattle.std.specs.Prelude.{◌≡◌, ◌<◌, ◌⊎◌, [], pos, IsOk, IfOk, IfErr};
ghost use Rattle.cube_core.specs.Shape.{InRange};
ghost use Rattle.cube_core.specs.declared.fault.Fault.TheVariants.{FieldRange, WantOfMemory};
ghost use Rattle.cube_core.specs.declared.fault.Field.TheVariants.{Slots};

use crate::bell::Bells;
use crate::receiver::LaneReceiver;
use crate::sender::LaneSender;
use cube_core::fault::{Fault, Field};
use rtrb::RingBuffer;
use std::alloc::Global;
use std::sync::Arc;

/// The greatest number of slots of a lane.
const MOST_SLOTS: u32 = 65_536;

/// Returns the sending and the receiving end of a lane of `slots` slots, 1 to 65,536. Either end may move to a
/// thread of its own, and no call of either waits or allocates.
///
/// Returns `FieldRange` of `Slots` if the number of slots is out of range; `WantOfMemory` if the ring can't be
/// allocated.
pub fn lane(alloc: Global, slots: u32) -> Result<(LaneSender, LaneReceiver), Fault>
    ensures pair { IfOk result (λ ends. ends.0.lane ≡ ends.1.lane) }
    ensures sender { IfOk result (λ ends. (ends.0.sent ≡ []) × (ends.0.free ≡ slots) × (ends.0.slots ≡ slots)) }
    ensures receiver { IfOk result (λ ends. (ends.1.received ≡ []) × (ends.1.known ≡ [])) }
    ensures range { IsOk result → InRange 1 65536 slots }
    ensures refused { IfErr result (λ e. (((slots ≡ 0) ⊎ (65536 < slots)) × (e ≡ FieldRange Slots (pos slots)))
        ⊎ (InRange 1 65536 slots × (e ≡ WantOfMemory))) }
{
    if slots == 0 || slots > MOST_SLOTS {
        return Err(Fault::FieldRange {
            field: Field::Slots,
            value: i64::from(slots),
        });
    }
    let (producer, consumer) = RingBuffer::new(alloc, slots as usize)?;
    let bells = Arc::new(alloc, Bells::new())?;
    let same = Arc::try_clone(&bells)?;
    Ok((
        LaneSender::new(producer, bells),
        LaneReceiver::new(consumer, same),
    ))
}
