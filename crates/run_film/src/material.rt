//! What a film is drawn from.
use crate::pace::Shown;
use crate::stage::Stage;
use std::alloc::Global;
use topology::Net;

/// What each part of a film is drawn from: the network, where its nodes stand, and the stills.
#[derive(Clone, Copy)]
pub struct Material<'a> {
    /// Where memory comes from.
    pub alloc: Global,
    /// The network.
    pub net: &'a Net,
    /// Where its nodes stand.
    pub stage: &'a Stage,
    /// The stills, and the pace at which they are shown.
    pub shown: Shown<'a>,
}
