//! The laws of cuts, and of values for their blocks.
ghost use Rattle.qh_model.specs.laws.CutLaws.{BlocksCover, BlocksAreApart, BlocksAreInside, BlocksAreNotEmpty};
ghost use Rattle.qh_model.specs.laws.RightValueLaws.{RightOfLeaf, RightOfNode, HullOfRoot};

/// The blocks of a cut have each position exactly once and no other position, and no block is empty.
pub fn blocks_share_positions()
    ensures cover { BlocksCover }
    ensures apart { BlocksAreApart }
    ensures inside { BlocksAreInside }
    ensures full { BlocksAreNotEmpty }
{}

/// The extreme ids of a block are right for its leaf in a tree over the blocks. The extreme ids of values that are
/// right for both children of a node are right for the node. The hull of a value that is right for the root is the hull
/// of all ids. So blocks can be combined pairwise, in any order.
pub fn right_values_rise()
    ensures leaf { RightOfLeaf }
    ensures node { RightOfNode }
    ensures root { HullOfRoot }
{}
