//! Lists of connections, in ascending number.
ghost use Rattle.std.specs.Prelude.{◌≡◌, ◌<◌, ◌↔◌, OnOk, IsTrue};
ghost use Rattle.node_model.specs.declared.connections.Connection.{Connection as ConnectionValue};
ghost use Rattle.node_model.specs.Connections.{AreNumbered, IsRidOf, StaysNumbered, connection_of, connections_with, without};
ghost use Rattle.node_model.specs.Sending.{IsPlaceOfFirst};

use crate::connections::Connection;
use std::alloc::AllocError;

/// Takes the connection of a number out of a list, if it is there.
pub fn take_connection(list: &mut Vec<Connection>, number: u32) -> Option<Connection>
    ensures found { result ≡ connection_of number list.old.items }
    ensures left { list.new.items ≡ without number list.old.items }
    ensures numbered { AreNumbered list.old.items → IsRidOf number list.new.items }
{
    let place = place_of(list.as_slice(), number)?;
    Some(list.remove(place))
}

/// Puts a connection in its place in a list. Where memory runs out it is lost.
pub fn place_connection(list: &mut Vec<Connection>, one: Connection) -> Result<(), AllocError>
    ensures placed { OnOk result (list.new.items ≡ connections_with one list.old.items) }
    ensures numbered { OnOk result (StaysNumbered one list.old.items list.new.items) }
{
    let place = place_behind(list.as_slice(), one.number).unwrap_or(list.len());
    list.insert(place, one)?;
    Ok(())
}

/// Where the connection of a number is in a list.
fn place_of(list: &[Connection], number: u32) -> Option<usize>
    ensures { IsPlaceOfFirst (λ (one : ConnectionValue). one.number ≡ number) list.now result }
{
    list.iter().position(|one| has_number(one, number))
}

/// Where the first connection is in a list whose number is greater.
fn place_behind(list: &[Connection], number: u32) -> Option<usize>
    ensures { IsPlaceOfFirst (λ (one : ConnectionValue). number < one.number) list.now result }
{
    list.iter().position(|one| is_behind(one, number))
}

/// Whether a connection has this number.
fn has_number(one: &Connection, number: u32) -> bool
    ensures { IsTrue result ↔ (one.now.number ≡ number) }
{
    one.number == number
}

/// Whether a connection has a greater number.
fn is_behind(one: &Connection, number: u32) -> bool
    ensures { IsTrue result ↔ (number < one.now.number) }
{
    one.number > number
}
