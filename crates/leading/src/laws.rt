//! What a primary's calls are to its clients' words.

ghost use Rattle.leading.specs.Clients.{GivenWereHanded, GivesClientsWords, WordsFollow};

/// Whatever a primary hears and whatever else it does: a hart's queue is that of the words that clients asked for, and what its log gave
/// the hart since the term began are the clients' words in their order, each once.
pub fn words_are_the_clients()
    ensures follow { WordsFollow }
    // Who goes on from there goes on behind words that were handed on.
    ensures handed { GivenWereHanded }
    ensures given { GivesClientsWords }
{}
