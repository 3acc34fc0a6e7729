// What the public calls answer: the definitions are in specs/, and answers are made here.
#![tactic(auto)]

ghost use Rattle.std.specs.Prelude.{◌≡◌, ◌^◌, ◌<◌};
ghost use Rattle.refusal.specs.Told.{number_in};
ghost use Rattle.call.specs.Answers.{values};
ghost use Rattle.call.specs.Kept.{written, entered, passed, IsShort};

use method::{Distance, Entry};
use refusal::Reason;

// The nodes that first hops pass from a node to a target, the target last: how many they are, and the distance or the mark in its place.
#[derive(Clone, Copy, Debug, PartialEq, Eq, Hash)]
pub struct Way {
    pub nodes: u8,
    pub distance: Distance,
}

// An answer's values: a from bit 8 on, b from bit 16 on.
pub fn values(a: u32, b: u32) -> u32
    requires { values a b < 2 ^ 32 }
    ensures { result ≡ values a b }
{
    256 * a + 65536 * b
}

// The refusal's number, or 0.
pub fn refused<T: Drop>(found: Result<T, Reason>) -> u32
    ensures { result ≡ number_in found }
{
    match found {
        Ok(_) => 0,
        Err(reason) => u32::from(reason),
    }
}

// How many numbers were written, or the refusal's number, as one answer.
pub fn written(count: Result<u16, Reason>) -> u32
    ensures { result ≡ written count }
{
    match count {
        Ok(count) => values(u32::from(count), 0),
        Err(reason) => u32::from(reason),
    }
}

// An entry's first hop, and its distance or the mark in its place; or the refusal's number.
pub fn entered(entry: Result<Entry, Reason>) -> u32
    requires { IsShort entry }
    ensures { result ≡ entered entry }
{
    match entry {
        Ok(entry) => values(u32::from(entry.hop()), u32::from(entry.distance().0)),
        Err(reason) => u32::from(reason),
    }
}

// How many nodes a way passes, and the distance or the mark in its place; or the refusal's number.
pub fn passed(way: Result<Way, Reason>) -> u32
    ensures { result ≡ passed way }
{
    match way {
        Ok(way) => values(u32::from(way.nodes), u32::from(way.distance.0)),
        Err(reason) => u32::from(reason),
    }
}
