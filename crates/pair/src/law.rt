// The law of faithful transmission.
ghost use Rattle.pair.specs.Consequences.{NothingIsLostWhenTakenInTime, ALabelArrivesWhole};
ghost use Rattle.pair.specs.Law.{TransmissionIsFaithful, TransmissionBetweenBoardsIsFaithful};

/// Over any clear cable, at either end of a bench just opened and over any run of loads, takes and moments that writes only the bits 16, 19, 20 and 21
/// and has every flip arrive inside a character: what is stored is what was loaded opposite, in order, changed exactly where the cable
/// inverted a sample; RPER, RFER and ROVER are exact; each take answers the last one stored, once; and a character that is sent at once is
/// stored within the deadline.
pub fn transmission_is_faithful()
    ensures { TransmissionIsFaithful }
{}

/// The same between any two boards of which one receives what the other sends.
pub fn between_boards()
    ensures { TransmissionBetweenBoardsIsFaithful }
{}

/// Where every character is taken before the next is stored, the n-th take answers a copy of the n-th character loaded, without ROVER.
pub fn nothing_is_lost_when_taken_in_time()
    ensures { NothingIsLostWhenTakenInTime }
{}

/// Once a transmitter is empty, all that was loaded is stored opposite when more φ clocks have passed than the cable delays.
pub fn a_label_arrives_whole()
    ensures { ALabelArrivesWhole }
{}
