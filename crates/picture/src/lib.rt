//! What a codestream's first bytes say of its picture: the image area, the tiles and the components.
#![tactic(auto)]

pub mod outline;
