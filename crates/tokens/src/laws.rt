//! What is proved of the tokens, as promises of functions that do nothing.
//!
//! One of them says that the shortest bytes of 16384, `80 80 01`, are read again as 16384 wherever they stand.

ghost use Rattle.tokens.specs.Deltas.{two_delta, three_delta, g_delta};
ghost use Rattle.tokens.specs.Laws.{NumbersAreDistinct};
ghost use Rattle.tokens.specs.Laws.{ReadsChains, ChainsAreRead, CutsExactly, WideExactly, NoOtherAnswer, ReadsNothingElse};
ghost use Rattle.tokens.specs.Laws.{UnsignedMade, SignedMade, DeltaMade, ByteMade, TextMade, PartMade, PartShows, UnitMade};
ghost use Rattle.tokens.specs.Laws.{UnsignedBack, SignedBack, GDeltaBack, ByteBack, TextBack, PartBack, UnitBack};
ghost use Rattle.tokens.specs.Laws.{BytesAreDistinct, ShortestIsChain, ShortestSizes, ShortestBytes};
ghost use Rattle.tokens.specs.Examples.{ExamplesHold};

/// No two faults have one number.
pub fn laws_of_faults()
    ensures distinct { NumbersAreDistinct }
{}

/// Which bytes are read as an integer, and which are faults.
pub fn laws_of_chains()
    ensures sound { ReadsChains }
    ensures complete { ChainsAreRead }
    ensures cut { CutsExactly }
    ensures wide { WideExactly }
    ensures only { NoOtherAnswer }
{}

/// How far a reader goes, what holds of its value, and that it reads nothing else.
pub fn laws_of_readers()
    ensures local { ReadsNothingElse }
    ensures unsigned { UnsignedMade }
    ensures signed { SignedMade }
    ensures two_delta { DeltaMade two_delta }
    ensures three_delta { DeltaMade three_delta }
    ensures g_delta { DeltaMade g_delta }
    ensures byte { ByteMade }
    ensures text { TextMade }
    ensures part { PartMade }
    ensures shows { PartShows }
    ensures unit { UnitMade }
{}

/// What is written is read again, and is as short as can be.
pub fn laws_of_encodings()
    ensures unsigned { UnsignedBack }
    ensures signed { SignedBack }
    ensures g_delta { GDeltaBack }
    ensures byte { ByteBack }
    ensures text { TextBack }
    ensures part { PartBack }
    ensures unit { UnitBack }
    ensures distinct { BytesAreDistinct }
    ensures shortest { ShortestIsChain }
    ensures sizes { ShortestSizes }
    ensures bytes { ShortestBytes }
{}

/// Worked examples.
pub fn worked_examples()
    ensures hold { ExamplesHold }
{}
