// How a lent slice of structs is walked: a law in proofs/, over any struct. A crate has some function, and no call uses this one.
#![tactic(auto)]

pub fn nothing(x: u8) -> u8 {
    x
}
