//! What numbers are for.

ghost use Rattle.requests.specs.Numbered.{AllInPlace, ExactlyOnce, NoneIsMissing};

/// Whatever clients ask, in whatever order and however often, and over however many primaries: a word with a number is taken at the place
/// of its number, and where each tells its number, the words that are taken are the clients' first words, each once.
pub fn words_in_their_places()
    ensures in_place { AllInPlace }
    ensures exactly_once { ExactlyOnce }
    // Who asks again for all from a number on, before which none is missing, has them taken.
    ensures none_is_missing { NoneIsMissing }
{}
