//! Laws of the definitions, each the contract of a function that does nothing.

ghost use Rattle.answers.specs.Laws.{
  FailuresTellTheFault,
  FirstUnmetIsFirst,
  OtherwiseIsTheTest,
  ValuesMeetAll,
};

/// A text that passes a test has no fault by it, and any other has the one that is named.
pub fn otherwise_is_the_test()
    ensures { OtherwiseIsTheTest }
{}

/// The fault of requirements in their order is that of the first which the text does not meet, and there is none just
/// where it meets all.
pub fn first_unmet_is_first()
    ensures { FirstUnmetIsFirst }
{}

/// A text has its value where it meets all requirements, and else the fault of the first that it does not meet.
pub fn values_meet_all()
    ensures { ValuesMeetAll }
{}

/// To give an answer is to say its value, or its fault, unless that is that memory ran out.
pub fn failures_tell_the_fault()
    ensures { FailuresTellTheFault }
{}
