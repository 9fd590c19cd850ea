//! The modal variables: what a record inherits from those before it. A variable is undefined (`None`) after a reset.

ghost use Rattle.std.specs.Prelude.{◌≡◌};
ghost use Rattle.fields.specs.Variables.{stored_layers, stored_sides, fresh};

use crate::number::{Layers, Sides};
use crate::reference::Reference;
use bounds::Point;

/// The variables of placements.
#[derive(Clone, Copy)]
pub struct PlacementVariables {
    pub at: Point,
    pub cell: Option<Reference>,
}

/// A layer and a datatype, or a textlayer and a texttype.
#[derive(Clone, Copy, Default)]
pub struct LayerVariables {
    pub layer: Option<u64>,
    pub datatype: Option<u64>,
}

impl From<Layers> for LayerVariables {
    ghost from_gives = { λ l v. v ≡ stored_layers l };

    fn from(layers: Layers) -> Self {
        LayerVariables {
            layer: Some(layers.layer),
            datatype: Some(layers.datatype),
        }
    }
}

/// The variables of texts.
#[derive(Clone, Copy)]
pub struct TextVariables {
    pub at: Point,
    pub text: Option<Reference>,
    pub layers: LayerVariables,
}

/// The variables that rectangles, polygons and paths share.
#[derive(Clone, Copy)]
pub struct FigureVariables {
    pub at: Point,
    pub layers: LayerVariables,
}

/// The width and the height of rectangles.
#[derive(Clone, Copy, Default)]
pub struct SideVariables {
    pub width: Option<u64>,
    pub height: Option<u64>,
}

impl From<Sides> for SideVariables {
    ghost from_gives = { λ s v. v ≡ stored_sides s };

    fn from(sides: Sides) -> Self {
        SideVariables {
            width: Some(sides.width),
            height: Some(sides.height),
        }
    }
}

/// The variables of paths: the half-width, both extensions, and the place of the point list.
#[derive(Clone, Copy, Default)]
pub struct PathVariables {
    pub half: Option<u64>,
    pub start: Option<i64>,
    pub end: Option<i64>,
    pub list: Option<usize>,
}

/// All modal variables. A point list and a repetition are kept as their places in the file.
#[derive(Clone, Copy)]
pub struct Modals {
    /// Whether coordinates are relative to the element before.
    pub relative: bool,
    pub repetition: Option<usize>,
    pub placement: PlacementVariables,
    pub text: TextVariables,
    pub figure: FigureVariables,
    pub sides: SideVariables,
    /// The place of the point list of polygons.
    pub polygon: Option<usize>,
    pub path: PathVariables,
}

const ORIGIN: Point = Point { x: 0, y: 0 };

impl Modals {
    /// The variables after a reset: positions at the origin, absolute coordinates, and all else undefined.
    pub fn reset() -> Modals
        ensures undefined { result ≡ fresh }
    {
        Modals {
            relative: false,
            repetition: None,
            placement: PlacementVariables {
                at: ORIGIN,
                cell: None,
            },
            text: TextVariables {
                at: ORIGIN,
                text: None,
                layers: LayerVariables::default(),
            },
            figure: FigureVariables {
                at: ORIGIN,
                layers: LayerVariables::default(),
            },
            sides: SideVariables::default(),
            polygon: None,
            path: PathVariables::default(),
        }
    }
}
