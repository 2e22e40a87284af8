//! Why a story ended early: its lines up to there were written, since each is written when its event has happened.
ghost use Rattle.std.specs.Prelude.{◌≡◌};
ghost use Rattle.pb_base.specs.Growths.{refused_growth};
ghost use Rattle.pb_story.specs.declared.fault.StoryFault.TheVariants as faults;

use pb_base::NoMemory;
use pb_world::WorldFault;
use std::alloc::AllocError;

/// Why a story ended before it was whole.
#[derive(Drop)]
pub enum StoryFault {
    /// An event was at fault. The lines of those before it were written.
    Event(WorldFault),
    /// A write failed, or took no byte.
    Output,
    /// A growth was refused. The lines of the first events were written.
    NoMemory(NoMemory),
}

impl From<AllocError> for StoryFault {
    ghost from_gives = { λ _ f. f ≡ faults.NoMemory refused_growth };

    fn from(e: AllocError) -> StoryFault {
        StoryFault::NoMemory(NoMemory::from(e))
    }
}
