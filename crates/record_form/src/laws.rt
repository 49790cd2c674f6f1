// The laws of records and their bytes.
ghost use Rattle.record_form.specs.Laws.{HasLength, HasOneSpelling, IsCut, IsReadAgain, IsSpelled};

/// A record has as many bytes as its kind says.
pub fn lengths()
    ensures { HasLength }
{}

/// What is written is read again, whatever follows it.
pub fn written_is_read()
    ensures { IsReadAgain }
{}

/// What is read as a whole record is spelled so by a front of the bytes.
pub fn read_is_spelled()
    ensures { IsSpelled }
{}

/// A record has one spelling, and none begins that of another record.
pub fn one_spelling()
    ensures { HasOneSpelling }
{}

/// A record that is cut anywhere is read as a part.
pub fn cut_is_part()
    ensures { IsCut }
{}
