//! What is proved of the explicit bytes, as promises of functions that do nothing.

ghost use Rattle.explicit.specs.Laws.{PlacementBack, TextBack, RectangleBack, PolygonBack, PathBack, StartRead, CellsRead, PlacementRead, TextRead, RectangleRead, PolygonRead, PathRead, EndRead, TextsShown, VerticesShown, RecordsAreBytes};
ghost use Rattle.explicit.specs.Examples.{ExamplesHold};

/// The explicit bytes of each record are read again as that record: its fields by the reader of its kind (`back`), and all of
/// its bytes as one step over the file (`read`), or as two steps for a cell. The names, texts and vertices that are found at
/// the places that it gives are those that were written. Each of its bytes is below 256.
pub fn laws_of_explicit_bytes()
    ensures placement_back { PlacementBack }
    ensures text_back { TextBack }
    ensures rectangle_back { RectangleBack }
    ensures polygon_back { PolygonBack }
    ensures path_back { PathBack }
    ensures start_read { StartRead }
    ensures cell_read { CellsRead }
    ensures placement_read { PlacementRead }
    ensures text_read { TextRead }
    ensures rectangle_read { RectangleRead }
    ensures polygon_read { PolygonRead }
    ensures path_read { PathRead }
    ensures end_read { EndRead }
    ensures texts { TextsShown }
    ensures vertices { VerticesShown }
    ensures bytes { RecordsAreBytes }
    ensures examples { ExamplesHold }
{}
