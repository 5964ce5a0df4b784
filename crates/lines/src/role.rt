//! The two roles of a link's ends.

/// Which end of the link sends: its scrambler feeds back other bits than the far end's.
#[derive(Clone, Copy, PartialEq, Eq, Debug)]
pub enum Role {
    Master,
    Slave,
}
