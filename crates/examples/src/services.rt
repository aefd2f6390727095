//! Which trees mean a service, in the words of a user.
ghost use Rattle.std.specs.Prelude.{◌↔◌, IfOk};
ghost use Rattle.miniserde.specs.Tree.{Tree};
ghost use Rattle.miniserde.specs.Value.{IsJson};
ghost use Rattle.examples.specs.Services.{IsPort, IsService};

use crate::service::Service;
use miniserde::json::from_str;
use miniserde::{FromJson, Result};
use std::alloc::Global;

/// Does nothing. It promises which trees mean a service.
pub fn service_meant()
    ensures { (t : Tree) → (s : Service) → ⟦<Service as FromJson>⟧.means.reads t s ↔ IsService t s }
{}

/// Does nothing. It promises which port a service has, by a clause on that one field, of all members.
pub fn port_meant()
    ensures { (t : Tree) → (s : Service) → ⟦<Service as FromJson>⟧.means.reads t s → IsPort t s.port }
{}

/// Parses a service, and returns its port: that of the text's last member `port`, or 8080 if it has none.
pub fn port_of(alloc: Global, text: &str) -> Result<u16>
    ensures { IfOk result (λ port. (t : Tree) × IsJson text.now t × IsPort t port) }
{
    port_meant();
    let service: Service = from_str(alloc, text)?;
    Ok(service.port)
}
