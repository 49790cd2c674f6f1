// What holds of all messages.
ghost use Rattle.avro_hop.specs.Laws.{OneRequest, NoRequestFault, OneCall, NoCallFault, OneRequestFault, OneCallFault, OneMatch, OneAnswer};
ghost use Rattle.avro_hop.specs.Within.{TypesAreFound, FieldTypesAreFound};
ghost use Rattle.avro_hop.specs.Responses.{GreetingsAreSpelled, ResponsesAreSpelled, UnknownIsSpelled, OneGreeting, OneResponse};
ghost use Rattle.avro_hop.specs.Connection.{OneDialogue, DialoguesJoin, SerialsAreKept, EndsAreFinal};

/// A message is read in one way: a handshake or call that is spelled has one meaning and no fault.
pub fn one_reading()
    ensures requests { OneRequest }
    ensures no_request_fault { NoRequestFault }
    ensures calls { OneCall }
    ensures no_call_fault { NoCallFault }
{}

/// A handshake or call that is at fault is so at one place, and the hashes of a handshake match in one way.
pub fn one_fault_at_a_place()
    ensures requests { OneRequestFault }
    ensures calls { OneCallFault }
    ensures matches { OneMatch }
{}

/// A message has one answer, except when out of memory: `Hop::answer` leaves nothing open.
pub fn one_answer()
    ensures { OneAnswer }
{}

/// A connection has one dialogue, which goes on from message to message: each is answered once, in order and under its
/// serial, up to the first that is refused, and nothing after that one counts.
pub fn one_dialogue()
    ensures one { OneDialogue }
    ensures join { DialoguesJoin }
    ensures serials { SerialsAreKept }
    ensures ends { EndsAreFinal }
{}

/// What is answered to a handshake and to a call is spelled as the specification says, and no answer begins another.
pub fn answers_are_spelled()
    ensures greetings { GreetingsAreSpelled }
    ensures responses { ResponsesAreSpelled }
    ensures unknown { UnknownIsSpelled }
    ensures one_greeting { OneGreeting }
    ensures one_response { OneResponse }
{}

/// A type of a protocol's text is found at any depth: `accepts` misses none that is written out within another, and
/// takes no field and no parameter for one.
pub fn types_at_any_depth()
    ensures types { TypesAreFound }
    ensures fields { FieldTypesAreFound }
{}
