//! Where requests come in.
ghost use Rattle.std.specs.Prelude.{◌≡◌, [], ◌∷◌, IfErr};
ghost use Rattle.std.specs.Net.Addr.{ipv4_octets};
ghost use Rattle.std.specs.Net.Socket.{v4_ip, v4_port};

use crate::fault::ServingFault;
use std::net::{Ipv4Addr, Net, SocketAddrV4, TcpListener};

/// A port of 127.0.0.1, an address that is reached from this machine alone. There is no `Local` of another address.
#[derive(Clone, Copy)]
pub struct Local {
    address: SocketAddrV4,
    ghost octets: { ipv4_octets (v4_ip address) ≡ 127 ∷ 0 ∷ 0 ∷ 1 ∷ [] },
}

/// The port of 127.0.0.1.
pub fn local_at(port: u16) -> Local
    ensures octets { ipv4_octets (v4_ip result.address) ≡ 127 ∷ 0 ∷ 0 ∷ 1 ∷ [] }
    ensures port { v4_port result.address ≡ port }
{
    let address = SocketAddrV4::new(Ipv4Addr::LOCALHOST, port);
    Local { address }
}

/// What listens on ports of 127.0.0.1. It can't be asked for another address: who is generic over it has no other way to a listener.
pub trait ListenLocally {
    /// What takes the connections.
    type Listener;

    /// Listens on a port of 127.0.0.1. `Net` comes where it can't be listened on. No other fault comes.
    fn listen_on(&self, local: Local) -> Result<Self::Listener, ServingFault>
        ensures { IfErr result (λ fault. fault ≡ ServingFault.Net) };
}

impl<N: Net> ListenLocally for N {
    type Listener = N::Listener;

    // This is the only call of `bind`, which has no clause: that it is called with this address is to be read here.
    fn listen_on(&self, local: Local) -> Result<N::Listener, ServingFault> {
        match TcpListener::bind(self, local.address) {
            Ok(listener) => Ok(listener),
            Err(_) => Err(ServingFault::Net),
        }
    }
}

/// Listens on a port of 127.0.0.1; no other address can be asked for.
///
/// `Net` comes where it can't be listened on, as where another program listens there. No other fault comes.
pub fn listen_at<N: ListenLocally>(net: &N, local: Local) -> Result<N::Listener, ServingFault>
    ensures { IfErr result (λ fault. fault ≡ ServingFault.Net) }
{
    net.listen_on(local)
}
