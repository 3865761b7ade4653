//! Laws of loops.

ghost use Rattle.cost_theory.specs.Laws.{HeadersAreInside, EnteredLoopsDoNotCross, EnteredLoopsAreNested, HeadersAreHeld, EnteredLoopsAreAccepted};

/// Loops that are entered at their headers alone have their headers in their bodies, and are nested or apart. They are
/// accepted where no header is in more than 16 bodies and the nodes have an order along plain edges.
pub fn entered_loops_are_nested()
    ensures headers { HeadersAreInside }
    ensures no_crossing { EnteredLoopsDoNotCross }
    ensures nested { EnteredLoopsAreNested }
    ensures held { HeadersAreHeld }
    ensures accepted { EnteredLoopsAreAccepted }
{}
