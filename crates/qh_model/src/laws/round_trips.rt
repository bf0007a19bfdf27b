//! The law of the round trip of OFF files.
ghost use Rattle.qh_model.specs.laws.RoundTrip.{IsReadAsExtremePoints, ExtremePointsHaveText, IsWrittenAgain};

/// Take points that can be read, written as an OFF file with faces or in triangles. If it fits the input limit, the
/// file is read as the extreme points in the order of their ids. Those points are written as the same bytes again: a
/// second run changes nothing.
pub fn off_is_read_back()
    ensures points { IsReadAsExtremePoints }
    ensures text { ExtremePointsHaveText }
    ensures again { IsWrittenAgain }
{}
