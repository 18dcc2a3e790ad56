// The definitions, computed on small frames.
ghost use Rattle.pattern.specs.Frames.{FramesWorked};

/// Parents, places, counts, totals and structure of small frames are what was worked out by hand.
pub fn worked_frames()
    ensures { FramesWorked }
{}
