// What holds of all spellings.
ghost use Rattle.avro_binary.specs.Number.{IsInt, IntFault, IsLong, LongFault};
ghost use Rattle.avro_binary.specs.Value.{IsBoolean, BooleanFault, IsBytes, BytesFault, IsText, TextFault, IsFixed, FixedFault};
ghost use Rattle.avro_binary.specs.Items.{IsMeta, MetaFault};
ghost use Rattle.avro_binary.specs.Event.{IsEvent, EventFault, IsBatch, BatchFault};
ghost use Rattle.avro_binary.specs.Written.{written_number, written_boolean, written_bytes, written_event, written_batch};
ghost use Rattle.avro_binary.specs.Laws.{IsPrefixFree, ExcludesFaults, HasOneFault, IntsAreSpelled, LongsAreSpelled, BooleansAreSpelled, BytesAreSpelled, TextsAreSpelled, EventsAreSpelled, BatchesAreSpelled, IsShortest, EventsTakeBytes, NoneIsLarge};

/// No spelling of a value is the front of another of the same type, and each spells one value.
pub fn one_spelling_at_a_place()
    ensures ints { IsPrefixFree IsInt }
    ensures longs { IsPrefixFree IsLong }
    ensures booleans { IsPrefixFree IsBoolean }
    ensures bytes { IsPrefixFree IsBytes }
    ensures texts { IsPrefixFree IsText }
    ensures fixed { IsPrefixFree IsFixed }
    ensures metas { IsPrefixFree IsMeta }
    ensures events { IsPrefixFree IsEvent }
    ensures batches { IsPrefixFree IsBatch }
{}

/// Where a value is spelled, a reader meets no fault, whatever follows.
pub fn no_fault_in_a_value()
    ensures ints { ExcludesFaults IsInt IntFault }
    ensures longs { ExcludesFaults IsLong LongFault }
    ensures booleans { ExcludesFaults IsBoolean BooleanFault }
    ensures bytes { ExcludesFaults IsBytes BytesFault }
    ensures texts { ExcludesFaults IsText TextFault }
    ensures fixed { ExcludesFaults IsFixed FixedFault }
    ensures metas { ExcludesFaults IsMeta MetaFault }
    ensures events { ExcludesFaults IsEvent EventFault }
    ensures batches { ExcludesFaults IsBatch BatchFault }
{}

/// What is refused is at fault at one place: no bytes have two faults.
pub fn one_fault_at_a_place()
    ensures ints { HasOneFault IntFault }
    ensures longs { HasOneFault LongFault }
    ensures booleans { HasOneFault BooleanFault }
    ensures bytes { HasOneFault BytesFault }
    ensures texts { HasOneFault TextFault }
    ensures fixed { HasOneFault FixedFault }
    ensures metas { HasOneFault MetaFault }
    ensures events { HasOneFault EventFault }
    ensures batches { HasOneFault BatchFault }
{}

/// What is written spells the value, so it is read again, whatever follows.
pub fn written_is_spelled()
    ensures ints { IntsAreSpelled }
    ensures longs { LongsAreSpelled }
    ensures booleans { BooleansAreSpelled }
    ensures bytes { BytesAreSpelled }
    ensures texts { TextsAreSpelled }
    ensures events { EventsAreSpelled }
    ensures batches { BatchesAreSpelled }
{}

/// No spelling of a value is shorter than what is written, whatever its blocks and however its numbers are spelled.
pub fn shortest_is_written()
    ensures ints { IsShortest IsInt written_number }
    ensures longs { IsShortest IsLong written_number }
    ensures booleans { IsShortest IsBoolean written_boolean }
    ensures bytes { IsShortest IsBytes written_bytes }
    ensures texts { IsShortest IsText written_bytes }
    ensures fixed { IsShortest IsFixed (λ content. content) }
    ensures events { IsShortest IsEvent written_event }
    ensures batches { IsShortest IsBatch written_batch }
{}

/// A batch of n events has more than 2n bytes, and there is no first event above the limit exactly where none is
/// above it.
pub fn facts_of_batches()
    ensures take_bytes { EventsTakeBytes }
    ensures none_large { NoneIsLarge }
{}
