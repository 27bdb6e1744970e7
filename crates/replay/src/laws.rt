//! What the definitions say of runs that only copy.

ghost use Rattle.replay.specs.Throughout.{EveryCopyingOrderEndsAsHeld};

/// Whatever the order of events, the machine of such a schedule ends with what is held after the
/// last step.
pub fn every_copying_order_ends_as_held()
    ensures { EveryCopyingOrderEndsAsHeld }
{}
