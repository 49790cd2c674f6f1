// Laws of reading a checkpoint.
ghost use Rattle.checkpoint_reading.specs.Laws.{FaultIsWrong, HasOneOutcome, ReadIsRight, RightIsRead};

/// Bytes are read in one way: a checkpoint has one first fault, or none.
pub fn one_outcome()
    ensures { HasOneOutcome }
{}

/// What is spelled and right for a folder is read without a fault.
pub fn right_is_read()
    ensures { RightIsRead }
{}

/// What is read without a fault is spelled and right.
pub fn read_is_right()
    ensures { ReadIsRight }
{}

/// What has a fault is not spelled by a text that is right.
pub fn fault_is_wrong()
    ensures { FaultIsWrong }
{}
