//! Laws over the definitions. Each function does nothing; its clause is the law.

ghost use Rattle.std.specs.Prelude.{◌≡◌, ◌⊎◌};
ghost use Rattle.nego_reader.specs.declared.parsed.Parsed.{Parsed};
ghost use Rattle.nego_reader.specs.Content.{content_of};
ghost use Rattle.nego_reader.specs.Rising.{HasRisingWords};
ghost use Rattle.nego_shape.specs.declared.fault.ShapeFault.{ShapeFault};
ghost use Rattle.nego_shape.specs.Conditions.{HasShape};
ghost use Rattle.nego_shape.specs.FirstFault.{IsFirstFault};
ghost use Rattle.nego_shape.specs.Laws.{OneOrderIsTold, OneCycleIsFound};

/// A negotiation has at most one order that can be told.
pub fn one_order_is_told()
    ensures { OneOrderIsTold }
{}

/// A negotiation has at most one cycle that can be found.
pub fn one_cycle_is_found()
    ensures { OneCycleIsFound }
{}

/// What a text says has the shape of a diagram, or the text has a first fault of shape, never both; and where its words
/// rise, as in each text that is read, it has one first fault at most.
pub fn texts_have_the_shape_or_one_fault()
    ensures either { (p : Parsed) → HasShape (content_of p) ⊎ ((fault : ShapeFault) × IsFirstFault p fault) }
    ensures apart { (p : Parsed) (fault : ShapeFault) → HasShape (content_of p) → IsFirstFault p fault → ⊥ }
    ensures once { (p : Parsed) (one two : ShapeFault) → HasRisingWords p → IsFirstFault p one → IsFirstFault p two → one ≡ two }
{}
