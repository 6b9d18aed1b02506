//! What is promised of bars.

ghost use Rattle.run_picture.specs.Laws.{BarsAreTakes};

/// The bars of a transcript's lines are the takes that are shown, as many and in their order, each in the
/// lane of its caller.
pub fn bars_are_takes()
    ensures { BarsAreTakes }
{}
