// How bindings compare, and whose turn it is.
ghost use Rattle.std.specs.Prelude.{◌≡◌, ◌<◌, length};
ghost use Rattle.arj_protocol.specs.Named as protocol;
ghost use Rattle.arj_protocol.specs.Order.{binding_eq, binding_less, binding_number};

use arj_base::Binding;

// A binding as a number: by incarnation, then by count.
fn number(binding: Binding) -> u64
    ensures { result ≡ binding_number binding }
{
    u64::from(binding.inc) * 4_294_967_296 + u64::from(binding.count)
}

/// Whether the first is below the second.
pub fn is_below(a: Binding, b: Binding) -> bool
    ensures { result ≡ binding_less a b }
{
    number(a) < number(b)
}

/// Whether they are one.
pub fn is_same(a: Binding, b: Binding) -> bool
    ensures { result ≡ binding_eq a b }
{
    number(a) == number(b)
}

// The first of the servers; 0 where there is none.
fn first_server(servers: &[u8]) -> u8
    ensures { result ≡ protocol.first_server servers.now }
{
    match servers.first() {
        Some(server) => *server,
        None => 0,
    }
}

// The server behind this one, where the first follows the last.
fn server_behind(last: u8, servers: &[u8]) -> u8
    ensures { result ≡ protocol.server_behind last servers.now servers.now }
{
    let mut i = 1;
    while i < servers.len() {
        if servers[i - 1] == last {
            return servers[i];
        }
        i += 1;
    }
    first_server(servers)
}

/// The server that is bound next: the first one, or the one behind the one that was bound last.
pub fn next_server(turn: Option<u8>, servers: &[u8]) -> u8
    ensures { result ≡ protocol.next_server turn servers.now }
{
    match turn {
        Some(last) => server_behind(last, servers),
        None => first_server(servers),
    }
}
