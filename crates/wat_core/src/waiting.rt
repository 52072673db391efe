ghost use Rattle.std.specs.Prelude.{◌≡◌, ◌++◌, ◌<◌, length, IfOk, OnOk};
ghost use Rattle.std.specs.Option.{option_to_list};
ghost use Rattle.wat_core.specs.Parts.{request_in, requests_in};

use std::alloc::Global;
use wat_connection::Connection;
use wat_cycle::{Request, Requests};
use wat_list::{Copied, Items, NoMemory};

/// Adds what the connection waits for, if it does.
fn push_request(
    alloc: Global,
    requests: &mut Requests,
    conn: u16,
    connection: &Connection,
) -> Result<(), NoMemory>
    ensures { OnOk result (requests.new ≡ requests.old ++ option_to_list (request_in conn connection.now)) }
{
    match connection.request() {
        Some(wants) => {
            let wants = wants.copy(alloc)?;
            requests.push(Request { conn, wants })
        }
        None => Ok(()),
    }
}

/// The requests of the connections that wait. They are numbered from 1.
pub fn requests(alloc: Global, connections: &[Connection]) -> Result<Requests, NoMemory>
    requires { length connections.now < 65536 }
    ensures { IfOk result (λ requests. requests ≡ requests_in connections.now) }
{
    let mut found = Items::new(alloc);
    for i in 0..connections.len() {
        push_request(alloc, &mut found, i as u16 + 1, &connections[i])?;
    }
    Ok(found)
}
