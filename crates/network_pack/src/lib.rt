// A network that is accepted, made bytes.
#![tactic(auto)]

ghost use Rattle.std.specs.Prelude.{◌≡◌, [], ◌∷◌, ◌+◌, ◌≤◌, ◌<◌, length};
ghost use Rattle.std.proofs.lemmas.List.Edits.{sets};
ghost use Rattle.method.specs.Room.{begins};
ghost use Rattle.network.specs.Bytes;
ghost use Rattle.network.specs.Fits.{Fits};
ghost use Rattle.network.specs.Given.{given};
ghost use Rattle.network.specs.Layout.{arc_at, net_of};
ghost use Rattle.call.specs.Calls.{net_bytes};
ghost use Rattle.call.specs.Kept.{written, Packs};
ghost use Rattle.network_pack.specs.Pairs.{pair_bytes};
ghost use Rattle.network_pack.specs.Pairs;

use network::{Arc, Network};
use refusal::Reason;

// Two fields of 4 bits in a byte.
fn halves(x: u8, y: u8) -> u8
    requires { (x < 16) × (y < 16) }
    ensures { result ≡ Pairs.halves x y }
{
    16 * x + y
}

// Arc k.
fn arc_at(net: &Network, k: usize) -> Arc
    requires { k < net.now.layout.count }
    ensures laid { given result ≡ arc_at net.now.layout k }
    ensures fits { Fits (given result) }
{
    let site = net.layout.sites[k];
    Arc {
        tail: site / 16 + 1,
        head: site % 16 + 1,
        len: net.layout.lengths[usize::from(site)],
    }
}

// How many bytes a network of m arcs has.
fn bytes_of(m: u8) -> u16
    ensures { result ≡ Bytes.size m }
{
    3 + (12 * u16::from(m) + 7) / 8
}

// Writes two arcs in the three bytes from p on. That arcs fit their fields is asked for: an `Arc` holds what is refused as well, so its
// type cannot say it.
fn put_pair(room: &mut [u8], p: usize, a: Arc, b: Arc)
    requires { Fits (given a) × Fits (given b) × (p + 2 < length room.old) }
    ensures { room.new ≡ sets room.old p (pair_bytes (given a ∷ given b ∷ [])) }
{
    room[p] = halves(a.tail - 1, a.head - 1);
    room[p + 1] = halves(a.len, b.tail - 1);
    room[p + 2] = halves(b.head - 1, b.len);
}

// Writes an odd last arc: the second half of its second byte is 0. Two bytes, where a pair has three: one function of both would have a
// case for each; no plainer.
fn put_last(room: &mut [u8], p: usize, a: Arc)
    requires { Fits (given a) × (p + 1 < length room.old) }
    ensures { room.new ≡ sets room.old p (pair_bytes (given a ∷ [])) }
{
    room[p] = halves(a.tail - 1, a.head - 1);
    room[p + 1] = halves(a.len, 0);
}

// Writes the arcs from byte 3 on.
fn put_arcs(net: &Network, room: &mut [u8])
    requires { Bytes.size net.now.layout.count ≤ length room.old }
    ensures { room.new ≡ sets room.old 3 (pair_bytes (net_of net.now.layout).arcs) }
{
    let m = usize::from(net.layout.count);
    for k in 0..m / 2 {
        put_pair(room, 3 + 3 * k, arc_at(net, 2 * k), arc_at(net, 2 * k + 1));
    }
    if m % 2 == 1 {
        put_last(room, 3 + 3 * (m / 2), arc_at(net, m - 1));
    }
}

// Writes the bytes of an accepted network.
fn put_bytes(net: &Network, room: &mut [u8])
    requires { Bytes.size net.now.layout.count ≤ length room.old }
    ensures { room.new ≡ begins (net_bytes (net_of net.now.layout)) room.old }
{
    room[0] = halves(1, net.layout.nodes - 1);
    room[1] = halves(net.layout.lmax, 0);
    room[2] = net.layout.count;
    put_arcs(net, room);
}

// Writes the bytes of what was found at the room's start, unless it is refused or the room is short; how many they are.
pub fn pack(found: Result<Network, Reason>, room: &mut [u8]) -> Result<u16, Reason>
    ensures { Packs found room.old (written result) room.new }
{
    // lent: taken out, the network would be copied once more
    let net = match &found {
        Ok(net) => net,
        Err(reason) => return Err(*reason),
    };
    let long = bytes_of(net.layout.count);
    if room.len() < usize::from(long) {
        return Err(Reason::RoomTooShort);
    }
    put_bytes(net, room);
    Ok(long)
}
