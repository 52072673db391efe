// Connections with a transaction open.
ghost use Rattle.std.specs.Prelude.{◌<◌, length, MatchOption};
ghost use Rattle.wat_core.specs.Opened.{IsFirstOpen, NoneOpen};

use wat_connection::Connection;

/// The number of the first connection that has a transaction open.
pub(crate) fn first_open(connections: &[Connection]) -> Option<u16>
    requires { length connections.now < 65536 }
    ensures { MatchOption result (NoneOpen connections.now (length connections.now)) (IsFirstOpen connections.now) }
{
    for i in 0..connections.len() {
        if connections[i].has_transaction() {
            return Some(i as u16 + 1);
        }
    }
    None
}
