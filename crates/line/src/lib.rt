// The line between the wheel and its bus: bytes in, one at a time, unpacked into a lent message buffer (`receiver`), and a
// message out, packed into a lent reply buffer (`packing`). Nothing here knows what a message means.
#![tactic(auto)]

pub mod framing;
pub mod packing;
pub mod receiver;
