//! Hulls of sets of ids and of lists of points.
use crate::point::Id;
use crate::polygon::Polygon;
use std::marker::Model;

/// The hull of a set of ids of distinct points.
///
/// The extreme ids rise strictly, and the polygons name no other ids.
#[derive(Debug, Drop)]
pub struct Body {
    /// The dimension of the set, from 0 to 3.
    pub dim: u8,
    /// The extreme ids, rising.
    pub extremes: Vec<Id>,
    /// The faces, in rising lexicographic order of their ids.
    pub polygons: Vec<Polygon>,
    /// The number of edges.
    pub edges: u64,
}

impl Model for Body {
    ghost use Rattle.qh_model.specs.{contract.Bodies.IsBodyInOrder, headline.Hull.BodyValue};

    ghost Value = { BodyValue };

    ghost view = { λ b. record { dim = b.dim; extremes = b.extremes.items; polygons = b.polygons.items; edges = b.edges } };

    ghost invariant = { λ b. IsBodyInOrder b.extremes.items b.polygons.items };
}

/// The hull of a list of points.
#[derive(Debug, Drop)]
pub struct Hull {
    /// The number of points of the list.
    pub given: u32,
    /// The number of distinct points.
    pub distinct: u32,
    /// The hull of the distinct points.
    pub body: Body,
}

impl Model for Hull {
    ghost use Rattle.qh_model.specs.headline.Hull.{HullValue};

    ghost Value = { HullValue };

    ghost view = { λ h. record { given = h.given; distinct = h.distinct; body = h.body } };
}
