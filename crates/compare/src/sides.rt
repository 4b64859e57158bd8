// The sources of both plans' last bytes.
ghost use Rattle.std.specs.Prelude.{◌<◌};
ghost use Rattle.compare.specs.Reading.{addresses};
ghost use Rattle.compare.specs.Code.Block.{Sides};

use crate::reading::ADDRESSES;
use crate::run::FirstStretch;
use crate::segment::{Source, segment_at};

// One source in each plan for all addresses up to an end.
#[derive(Clone, Copy, Debug, PartialEq, Eq)]
pub(crate) struct Sources {
    pub old: Source,
    pub new: Source,
    pub end: u64,
}

// The sources from an address on.
pub(crate) fn sources_at(old: FirstStretch, new: FirstStretch, at: u64) -> Sources
    requires { at < addresses }
    ensures { Sides old.entry.plan.now new.entry.plan.now at result }
{
    let old_segment = segment_at(old, at, ADDRESSES);
    let new_segment = segment_at(new, at, old_segment.end);
    Sources {
        old: old_segment.source,
        new: new_segment.source,
        end: new_segment.end,
    }
}
