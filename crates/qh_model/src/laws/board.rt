//! The laws of the board.
ghost use Rattle.qh_model.specs.laws.BoardLaws.{SingleHolder, HeldOnce, ChildrenFirst, RootAtTheEnd, RootWhereAllLeft};
ghost use Rattle.qh_model.specs.laws.BoardLaws.{NoRootWhereGivenUp, StepBound, SpanOfLeaf, SpanOfNode, SpansApart};
ghost use Rattle.qh_model.specs.laws.BoardLaws.{SpanOfRoot};

/// These facts hold for every order of the passes' events. No pass holds two nodes, and no node is held twice. An inner
/// node is reached only after both its children. The root is published exactly if all blocks are claimed and no pass
/// holds a node; so it is published if all passes left, and not if one gave up. There are at most 3 B + 2 W - 1 events.
/// So workers can share a reduction over blocks without any order between them.
pub fn board_core()
    ensures holder { SingleHolder }
    ensures once { HeldOnce }
    ensures children { ChildrenFirst }
    ensures root { RootAtTheEnd }
    ensures all_left { RootWhereAllLeft }
    ensures given_up { NoRootWhereGivenUp }
    ensures bound { StepBound }
{}

/// The span of a leaf is its block. The span of an inner node consists of the spans of its children, which share no
/// block, and the span of the root is all blocks. So values of spans can be combined.
pub fn spans_share_blocks()
    ensures leaf { SpanOfLeaf }
    ensures node { SpanOfNode }
    ensures apart { SpansApart }
    ensures root { SpanOfRoot }
{}
