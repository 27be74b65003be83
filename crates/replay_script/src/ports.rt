//! How a word names a port.
ghost use Rattle.std.specs.Prelude.{◌≡◌};
ghost use Rattle.replay_script.specs.Words.{port_of};

use request_types::Port;

/// The port that a word names. The port of SQL has no word yet.
pub fn port_of(word: &[u8]) -> Option<Port>
    ensures { result ≡ port_of word.now }
{
    if word == b"r".as_slice() {
        return Some(Port::Reading);
    }
    if word == b"w".as_slice() {
        return Some(Port::Writing);
    }
    None
}
