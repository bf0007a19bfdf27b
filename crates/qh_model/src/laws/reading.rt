//! The law of files.
ghost use Rattle.qh_model.specs.laws.Readings.{ReadsOneList, HasListOrFault, IsNeverBoth};

/// In each form, a byte string either is the file of one list of points and has no fault, or has one first fault and is
/// the file of no list. So a reader has one right answer.
pub fn one_reading()
    ensures unique { ReadsOneList }
    ensures either { HasListOrFault }
    ensures never_both { IsNeverBoth }
{}
